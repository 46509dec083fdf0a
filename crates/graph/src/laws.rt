//! Laws of the definitions, each the contract of a function that does nothing.

ghost use Rattle.graph.specs.Laws.{EntriesInAnyOrder, FixedAreLeast, IteratesAreReached, IteratesEndAtLeast, LabelsInAnyOrder, LeastIsOne, LeastLabelsAreOne, MessagesInAnyOrder, MessagesInGroups, RanksInAnyOrder, StepKeepsReached, StepNeverRaises};

/// The order of messages makes no difference, where combining is associative and commutative with a neutral unit.
pub fn messages_in_any_order<Val, Msg, Weight>()
    ensures { MessagesInAnyOrder Val Msg Weight }
{}

/// Messages may be put together in groups first.
pub fn messages_in_groups<Val, Msg, Weight>()
    ensures { MessagesInGroups Val Msg Weight }
{}

/// The order of a matrix's entries makes no difference to a step.
pub fn entries_in_any_order<Val, Msg, Weight>()
    ensures { EntriesInAnyOrder Val Msg Weight }
{}

/// The messages of the components and of the ranks may be combined in any order.
pub fn algorithms_in_any_order()
    ensures labels { LabelsInAnyOrder }
    ensures ranks { RanksInAnyOrder }
{}

/// A node has one least label, and a graph has one list of them.
pub fn least_labels_are_one()
    ensures node { LeastIsOne }
    ensures graph { LeastLabelsAreOne }
{}

/// A step of the components never raises a label.
pub fn step_never_raises()
    ensures { StepNeverRaises }
{}

/// A step of the components gives each node a label at the end of a walk from it.
pub fn step_keeps_reached()
    ensures { StepKeepsReached }
{}

/// Labels that a step of the components leaves as they are are the least ones, if they were reached.
pub fn fixed_are_least()
    ensures { FixedAreLeast }
{}

/// The labels after any number of steps are reached.
pub fn iterates_are_reached()
    ensures { IteratesAreReached }
{}

/// The components of n nodes end within n iterations, at the least labels.
pub fn iterates_end_at_least()
    ensures { IteratesEndAtLeast }
{}
