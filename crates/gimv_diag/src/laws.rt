//! Steps of closed values lie between the least labels and plain steps, and end at the least labels; closing in place is
//! closing by rounds. Each law is the contract of a function that does nothing.

ghost use Rattle.gimv_diag.specs.Rounds.{ClosedListsAreClosed, ListRoundsAreRounds};
ghost use Rattle.gimv_diag.specs.Sweeps.{SweepsClose, SweepsStop};
ghost use Rattle.gimv_diag.specs.Sending.{SentClosedIsStep};
ghost use Rattle.gimv_diag.specs.Diagonal.{CloseCloses, DiagonalEndsAtLeast, DiagonalIsBetween};

/// Labels lie between the least ones and those of plain steps.
pub fn diagonal_is_between()
    ensures { DiagonalIsBetween }
{}

/// The iterations end within n, at the least labels.
pub fn diagonal_ends_at_least()
    ensures { DiagonalEndsAtLeast }
{}

/// Labels that are closed within blocks stay as they are in one more step there.
pub fn close_closes()
    ensures { CloseCloses }
{}

/// Closed values that are sent make the step.
pub fn sent_closed_is_step<Val, Msg, Weight>()
    ensures { SentClosedIsStep Val Msg Weight }
{}

/// Rounds on a block's list of values are rounds on its nodes' values.
pub fn list_rounds_are_rounds<Val, Msg, Weight>()
    ensures { ListRoundsAreRounds Val Msg Weight }
{}

/// The closed values of a block are closed.
pub fn closed_lists_are_closed<Val, Msg, Weight>()
    ensures { ClosedListsAreClosed Val Msg Weight }
{}

/// Values are closed in place as well: entry by entry, until a sweep changes nothing.
pub fn sweeps_close<Val, Msg, Weight>()
    ensures close { SweepsClose Val Msg Weight }
    ensures stop { SweepsStop Val Msg Weight }
{}
