//! What follows from the laws, for each algorithm that keeps them. Each is the contract of a function that does nothing.

ghost use Rattle.gimv_core.specs.Consequences.{IteratesFit, LowerCountsAsOld, RoundsEnd, StepsAreMonotone, StepsFit, StepsInAnyOrder, StepsNeverRaise};

/// A step of values that fit gives values that fit, and so do any number of steps from the first values on.
pub fn steps_fit<Val, Msg, Weight>()
    ensures step { StepsFit Val Msg Weight }
    ensures iterates { IteratesFit Val Msg Weight }
{}

/// The order of a matrix's entries makes no difference to a step.
pub fn steps_in_any_order<Val, Msg, Weight>()
    ensures { StepsInAnyOrder Val Msg Weight }
{}

/// A step of a closing algorithm is monotone and never raises a value.
pub fn closing_steps_fall<Val, Msg, Weight>()
    ensures never_raise { StepsNeverRaise Val Msg Weight }
    ensures monotone { StepsAreMonotone Val Msg Weight }
{}

/// A closed value that is sent as a message counts as the old value.
pub fn closed_counts_as_old<Val, Msg, Weight>()
    ensures { LowerCountsAsOld Val Msg Weight }
{}

/// Of as many closing rounds in a block as it has nodes the last one changes nothing.
pub fn closing_rounds_end<Val, Msg, Weight>()
    ensures { RoundsEnd Val Msg Weight }
{}
