//! Each law is the contract of a function that does nothing.
ghost use Rattle.flow_core.specs.Laws.{DegreesGoAlong, EntriesGoAlong, IteratesGoAlong, PartsHold, PartsInAnyOrder, ReducersReadParts};

/// A folder holds the pairs that its parts are made of, in whatever order they came.
pub fn parts_hold()
    ensures pairs { PartsHold }
    ensures any_order { PartsInAnyOrder }
{}

/// The reducers of a job read the sorted parts of all that its mappers write, however the inputs are cut.
pub fn reducers_read_parts()
    ensures { ReducersReadParts }
{}

/// Where nodes get other numbers, entries and iterates go along.
pub fn iterates_go_along<Val, Msg, Weight>()
    ensures entries { EntriesGoAlong }
    ensures degrees { DegreesGoAlong }
    ensures iterates { IteratesGoAlong Val Msg Weight }
{}
