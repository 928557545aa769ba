use crate::{Event, Gate};
use plain_data::OutOfMemory;
use std::alloc::Global;
use std::sync::atomic::{AtomicU8, Ordering};
use std::thread;

/// The states of a listed event. It leaves the first one once, and then keeps its state.
const NOT_PASSED: u8 = 0;

const PASSED_IN_ORDER: u8 = 1;

const PASSED_LATE: u8 = 2;

/// An event of the list, and whether it has passed.
#[derive(Debug, Drop)]
struct ListedEvent {
    event: Event,
    state: AtomicU8,
}

impl ListedEvent {
    fn new(event: Event) -> ListedEvent {
        ListedEvent {
            event,
            state: AtomicU8::new(NOT_PASSED),
        }
    }

    fn state(&self) -> u8 {
        self.state.load(Ordering::SeqCst)
    }

    fn has_passed(&self) -> bool {
        self.state() != NOT_PASSED
    }

    /// Whether it has passed before, or all of the events before it in the list have.
    fn may_pass(&self, earlier: &[ListedEvent]) -> bool {
        self.has_passed() || earlier.iter().all(|listed| listed.has_passed())
    }

    /// Lets the event pass. Where several threads call it at once, the first of them sets the state.
    fn pass(&self, in_order: bool) {
        let state = if in_order {
            PASSED_IN_ORDER
        } else {
            PASSED_LATE
        };
        let _ = self
            .state
            .compare_exchange(NOT_PASSED, state, Ordering::SeqCst, Ordering::SeqCst);
    }
}

/// A gate that lets the events of a list pass only in the order of the list, as long as they don't
/// wait too long.
///
/// An event that isn't listed, or that has passed before, passes at once. Each other event waits
/// until all events before it in the list have passed, at most `turns` turns: a turn is a look at
/// these events, after which the thread yields. After its last turn it passes late, if they still
/// haven't. A late event has passed: those after it don't wait for it any more.
///
/// It stands on atomic numbers, so that any number of threads may share it, and takes no lock. No
/// contract speaks of it.
#[derive(Debug, Drop)]
pub struct HoldGate {
    order: Vec<ListedEvent>,
    turns: u32,
}

impl HoldGate {
    /// A gate at which no event has passed. The events of `order` are distinct: one that is listed
    /// again never passes there, so that the order isn't kept.
    ///
    /// # Errors
    ///
    /// [`OutOfMemory`] where there is no memory.
    pub fn new(alloc: Global, order: Vec<Event>, turns: u32) -> Result<HoldGate, OutOfMemory> {
        let order = order.into_iter().map(ListedEvent::new).collect(alloc)?;
        Ok(HoldGate { order, turns })
    }

    /// Whether each listed event has passed, and none of them late. Once it is true it stays so.
    pub fn kept(&self) -> bool {
        self.order
            .iter()
            .all(|listed| listed.state() == PASSED_IN_ORDER)
    }

    /// Lets an event pass, at once or after a wait.
    fn pass(&self, event: Event) {
        if let Some(place) = self.order.iter().position(|listed| listed.event == event) {
            let listed = &self.order[place];
            let in_order = self.wait(listed, &self.order[..place]);
            listed.pass(in_order);
        }
    }

    /// Waits until the event may pass. Answers `false` where its turns ran out first.
    fn wait(&self, listed: &ListedEvent, earlier: &[ListedEvent]) -> bool {
        for _ in 0..self.turns {
            if listed.may_pass(earlier) {
                return true;
            }
            thread::yield_now();
        }
        listed.may_pass(earlier)
    }
}

impl Gate for HoldGate {
    fn before_job(&self, resource: u32, page: u32) {
        self.pass(Event::BeforeJob { resource, page });
    }

    fn after_job(&self, resource: u32, page: u32) {
        self.pass(Event::AfterJob { resource, page });
    }

    fn before_edit(&self, editor: u8, k: u32) {
        self.pass(Event::BeforeEdit { editor, k });
    }

    fn after_edit(&self, editor: u8, k: u32) {
        self.pass(Event::AfterEdit { editor, k });
    }

    fn before_block(&self, n: u32) {
        self.pass(Event::BeforeBlock { n });
    }

    fn after_block(&self, n: u32) {
        self.pass(Event::AfterBlock { n });
    }

    fn before_visit(&self, n: u32, node: u32) {
        self.pass(Event::BeforeVisit { n, node });
    }
}
