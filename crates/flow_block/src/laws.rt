//! Each law is the contract of a function that does nothing.
ghost use Rattle.flow_block.specs.Laws.{BlockResultsAreNumbers, BlockVectorsAreIterates, BlocksHoldEntries};
ghost use Rattle.flow_block.specs.Placing.{PlacedChangesAreChanges, PlacedResultsAreNumbers};
ghost use Rattle.flow_block.specs.Placing.{PlacedVectorsAreIterates};

/// The folder of the blocks holds lines of items that the entries of the matrix are cut into.
pub fn blocks_hold_entries<Val, Msg, Weight>()
    ensures { BlocksHoldEntries Val Msg Weight }
{}

/// Folders of which the first is made of the places and each later one of the blocks and the one before it
/// hold the iterates, block by block, and a result that is made of such a folder has the numbers of its
/// values, as that of the base form has.
pub fn block_vectors_are_iterates<Val, Msg, Weight>()
    ensures vectors { BlockVectorsAreIterates Val Msg Weight }
    ensures results { BlockResultsAreNumbers Val Msg Weight }
{}

/// Where nodes have places of their own, the folders hold the iterates place by place, count what the
/// iterates change, and the numbers of places that are joined with the nodes there make the result of the
/// base form.
pub fn placed_vectors_are_iterates<Val, Msg, Weight>()
    ensures vectors { PlacedVectorsAreIterates Val Msg Weight }
    ensures changes { PlacedChangesAreChanges Val Msg Weight }
    ensures results { PlacedResultsAreNumbers Val Msg Weight }
{}
