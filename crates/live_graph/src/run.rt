use std::marker::Brand;

/// Names a live run: contracts know by it that parts are of one run, which lie in different threads or
/// behind a lock. No type but a contract's [`Brand`] has it, and it has no functions.
pub trait Run {
    ghost use Rattle.live_graph.specs.Runs.{RunData};

    /// Its scene, the table of its board, and its lists as they were opened.
    ghost run: { RunData };
}

impl Run for Brand {
    ghost use Rattle.live_graph.specs.Runs.{no_run};

    ghost run = { no_run };
}
