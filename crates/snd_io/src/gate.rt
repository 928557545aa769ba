//! Gates: what threads call as they go, so that a test can hold them.

/// What workers, editors and renderers call before and after the parts of their work, so that a
/// test can hold one of them there. Each call returns, and needs no memory.
///
/// A gate tells nothing to a contract: what its callers answer doesn't depend on it. A gate that
/// several threads share is `Sync`.
pub trait Gate {
    /// Called before each run of the job that decodes page `page` of resource `resource`.
    fn before_job(&self, resource: u32, page: u32);

    /// Called after a run of the job that decodes page `page` of resource `resource`, where the page
    /// was filled.
    fn after_job(&self, resource: u32, page: u32);

    /// Called before edit `k` of editor `editor`. Each editor's edits count from 0.
    fn before_edit(&self, editor: u8, k: u32);

    /// Called after edit `k` of editor `editor`.
    fn after_edit(&self, editor: u8, k: u32);

    /// Called before block `n` is rendered. Blocks count from 0.
    fn before_block(&self, n: u32);

    /// Called after block `n` was rendered.
    fn after_block(&self, n: u32);

    /// Called in block `n` before the visit of the buses of node `node` begins.
    fn before_visit(&self, n: u32, node: u32);
}

/// A call of a [`Gate`], with its arguments.
#[derive(Clone, Copy, Debug, PartialEq, Eq)]
pub enum Event {
    BeforeJob { resource: u32, page: u32 },
    AfterJob { resource: u32, page: u32 },
    BeforeEdit { editor: u8, k: u32 },
    AfterEdit { editor: u8, k: u32 },
    BeforeBlock { n: u32 },
    AfterBlock { n: u32 },
    BeforeVisit { n: u32, node: u32 },
}

/// A gate that does nothing.
#[derive(Clone, Copy, Debug)]
pub struct FreeGate;

impl Gate for FreeGate {
    fn before_job(&self, _resource: u32, _page: u32) {}

    fn after_job(&self, _resource: u32, _page: u32) {}

    fn before_edit(&self, _editor: u8, _k: u32) {}

    fn after_edit(&self, _editor: u8, _k: u32) {}

    fn before_block(&self, _n: u32) {}

    fn after_block(&self, _n: u32) {}

    fn before_visit(&self, _n: u32, _node: u32) {}
}
