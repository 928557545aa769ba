//! The outside of the engine: stores of files, sinks and gates, as traits, and fakes of them in memory.
//!
//! A [`Depot`] is a store of files that gives a file whole and writes one file at a time, in
//! pieces. A [`Sink`] takes bytes: the lines of standard output, or a file that is made in memory.
//! Both count their faults: a call answers `Failed` only where the count rose, or stands at the last
//! number of a u64, and no other call moves the count. What they hold is told to contracts where it can be: a fake in memory tells its
//! files, a disk tells nothing, and every promise on causes holds over both.
//!
//! [`SureDepot`] never fails. [`MemDepot`] and [`MemSink`] fail at the calls that were listed,
//! each by a [`Snag`].
//!
//! A [`Gate`] is what threads call before and after each part of their work: a page that is decoded, an
//! edit, a block. It tells nothing to contracts, and is there so that a test can hold a thread. A
//! [`FreeGate`] lets all pass, and a [`HoldGate`] lets the [`Event`]s of a list pass in their order.
#![tactic(auto)]

mod answers;
mod depot;
mod entries;
mod gate;
mod hold_gate;
mod mem_depot;
mod mem_sink;
mod sink;
mod snag;
mod sure_depot;
mod writing;

pub use answers::{Fetch, FetchFault, Put, PutFault};
pub use depot::Depot;
pub use gate::{Event, FreeGate, Gate};
pub use hold_gate::HoldGate;
pub use mem_depot::MemDepot;
pub use mem_sink::MemSink;
pub use sink::Sink;
pub use snag::Snag;
pub use sure_depot::SureDepot;
pub use writing::write_file;
