//! Each law is the contract of a function that does nothing.
ghost use Rattle.flow.specs.Children.{BundledFollow};
ghost use Rattle.flow.specs.Examples.{ChangesByExample, FlowByExample, LayoutByExample};
ghost use Rattle.flow.specs.Held.{ConsoleIsOfIterates, KeptHoldsIterates, KeptHoldsResult};
ghost use Rattle.flow.specs.Iterates.{LastIsOne};
ghost use Rattle.flow.specs.Laws.{BaseFlow, BaseResult, ChangesAreCounted, ComponentsEnd, FileEdgesAreCountable, FileFlow, FileResult, RadiiEnd, RanksEnd};

/// Children that write what the roles of their words give are there: those of the definition.
pub fn bundled_follow()
    ensures { BundledFollow }
{}

/// Where the children are the bundled ones, each vector of the base form is so many steps, and its lines
/// count what the last of them changed.
pub fn base_flow()
    ensures edges { BaseFlow }
    ensures files { FileFlow }
{}

/// The base form has a last iteration, and its result has the numbers of that iteration's values.
pub fn base_result()
    ensures edges { BaseResult }
    ensures files { FileResult }
{}

/// Components end at the least labels, ranks after as many iterations as were asked for, and radii with the
/// radius of each node.
pub fn commands_end()
    ensures components { ComponentsEnd }
    ensures ranks { RanksEnd }
    ensures radii { RadiiEnd }
{}

/// Where the children are the bundled ones, each image that is kept holds whole iterations, each so many steps, and the
/// result of the last one.
pub fn kept_holds_iterates()
    ensures iterates { KeptHoldsIterates }
    ensures result { KeptHoldsResult }
{}

/// What the flow has a run say are the counts and the total of the iterates.
pub fn console_is_of_iterates()
    ensures { ConsoleIsOfIterates }
{}

/// The accepted edges of a file are such that a matrix is made of them.
pub fn file_edges_are_countable()
    ensures { FileEdgesAreCountable }
{}

/// A run has at most one last iteration.
pub fn last_is_one()
    ensures { LastIsOne }
{}

/// The changes in a folder are those of the step.
pub fn changes_are_counted<Val, Msg, Weight>()
    ensures { ChangesAreCounted Val Msg Weight }
{}

/// The folders of a small graph.
pub fn folders_by_example()
    ensures layouts { LayoutByExample }
    ensures changes { ChangesByExample }
    ensures flow { FlowByExample }
{}
