//! The rule of the table, and a type for each kind of step. What a step of a kind does and tells
//! stands in `specs/Steps.antt`.
use crate::view::View;
use atomic_table::{Join, Play, Split, TableRule};

/// The rule, for a key that is the number of buses.
pub struct BusListRule;

impl<T> TableRule<Option<T>, View<T>, u32> for BusListRule {
    ghost use Rattle.bus_list.specs.Rule.{TableInvariant, first_view};

    ghost holds = { TableInvariant };

    ghost first = { first_view };
}

/// The editor's side and the pass's side, split and joined.
pub struct Sides;

impl<T> Split<View<T>> for Sides {
    ghost use Rattle.bus_list.specs.Rule.{editor_part, pass_part};

    ghost left = { editor_part };

    ghost right = { pass_part };
}

impl<T> Join<View<T>> for Sides {
    ghost use Rattle.bus_list.specs.Rule.{joined, spent_view};

    ghost both = { joined };

    ghost spent = { spent_view };
}

pub struct BeginsVisit;

impl<T> Play<Option<T>, View<T>> for BeginsVisit {
    ghost use Rattle.bus_list.specs.Steps.{Began};

    ghost then = { Began };
}

pub struct EntersStep;

impl<T> Play<Option<T>, View<T>> for EntersStep {
    ghost use Rattle.bus_list.specs.Steps.{EnteredStep};

    ghost then = { EnteredStep };
}

pub struct LoadsLink;

impl<T> Play<Option<T>, View<T>> for LoadsLink {
    ghost use Rattle.bus_list.specs.Steps.{LoadedLink};

    ghost then = { LoadedLink };
}

pub struct AddsReference;

impl<T> Play<Option<T>, View<T>> for AddsReference {
    ghost use Rattle.bus_list.specs.Steps.{AddedReference};

    ghost then = { AddedReference };
}

pub struct ReturnsFeed;

impl<T> Play<Option<T>, View<T>> for ReturnsFeed {
    ghost use Rattle.bus_list.specs.Steps.{ReturnedFeed};

    ghost then = { ReturnedFeed };
}

pub struct SubtractsReference;

impl<T> Play<Option<T>, View<T>> for SubtractsReference {
    ghost use Rattle.bus_list.specs.Steps.{SubtractedReference};

    ghost then = { SubtractedReference };
}

pub struct LeavesStep;

impl<T> Play<Option<T>, View<T>> for LeavesStep {
    ghost use Rattle.bus_list.specs.Steps.{LeftStep};

    ghost then = { LeftStep };
}

pub struct LoadsFlag;

impl<T> Play<Option<T>, View<T>> for LoadsFlag {
    ghost use Rattle.bus_list.specs.Steps.{LoadedFlag};

    ghost then = { LoadedFlag };
}

pub struct TakesFeed;

impl<T> Play<Option<T>, View<T>> for TakesFeed {
    ghost use Rattle.bus_list.specs.Steps.{TookFeed};

    ghost then = { TookFeed };
}

pub struct EndsVisit;

impl<T> Play<Option<T>, View<T>> for EndsVisit {
    ghost use Rattle.bus_list.specs.Steps.{Ended};

    ghost then = { Ended };
}

pub struct StoresOwnLink;

impl<T> Play<Option<T>, View<T>> for StoresOwnLink {
    ghost use Rattle.bus_list.specs.Steps.{StoredOwnLink};

    ghost then = { StoredOwnLink };
}

pub struct OpensCell;

impl<T> Play<Option<T>, View<T>> for OpensCell {
    ghost use Rattle.bus_list.specs.Steps.{OpenedCell};

    ghost then = { OpenedCell };
}

pub struct FillsCell;

impl<T> Play<Option<T>, View<T>> for FillsCell {
    ghost use Rattle.bus_list.specs.Steps.{FilledCell};

    ghost then = { FilledCell };
}

pub struct StoresDummyLink;

impl<T> Play<Option<T>, View<T>> for StoresDummyLink {
    ghost use Rattle.bus_list.specs.Steps.{StoredDummyLink};

    ghost then = { StoredDummyLink };
}

pub struct SetsFlag;

impl<T> Play<Option<T>, View<T>> for SetsFlag {
    ghost use Rattle.bus_list.specs.Steps.{SetFlag};

    ghost then = { SetFlag };
}

pub struct StoresEdits;

impl<T> Play<Option<T>, View<T>> for StoresEdits {
    ghost use Rattle.bus_list.specs.Steps.{StoredEdits};

    ghost then = { StoredEdits };
}

pub struct ClearsFlag;

impl<T> Play<Option<T>, View<T>> for ClearsFlag {
    ghost use Rattle.bus_list.specs.Steps.{ClearedFlag};

    ghost then = { ClearedFlag };
}

pub struct StoresPredecessorLink;

impl<T> Play<Option<T>, View<T>> for StoresPredecessorLink {
    ghost use Rattle.bus_list.specs.Steps.{StoredPredecessorLink};

    ghost then = { StoredPredecessorLink };
}

pub struct LoadsSteps;

impl<T> Play<Option<T>, View<T>> for LoadsSteps {
    ghost use Rattle.bus_list.specs.Steps.{LoadedSteps};

    ghost then = { LoadedSteps };
}

pub struct LoadsReferences;

impl<T> Play<Option<T>, View<T>> for LoadsReferences {
    ghost use Rattle.bus_list.specs.Steps.{LoadedReferences};

    ghost then = { LoadedReferences };
}

pub struct TakesCell;

impl<T> Play<Option<T>, View<T>> for TakesCell {
    ghost use Rattle.bus_list.specs.Steps.{TookCell};

    ghost then = { TookCell };
}

pub struct EmptiesCell;

impl<T> Play<Option<T>, View<T>> for EmptiesCell {
    ghost use Rattle.bus_list.specs.Steps.{EmptiedCell};

    ghost then = { EmptiedCell };
}

pub struct LearnsVisits;

impl<T> Play<Option<T>, View<T>> for LearnsVisits {
    ghost use Rattle.bus_list.specs.Steps.{Learnt};

    ghost then = { Learnt };
}
