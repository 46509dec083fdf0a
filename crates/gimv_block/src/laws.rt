//! Steps in blocks are plain steps, and what is written of blocks reads back, for each algorithm that keeps its laws. Each
//! law is the contract of a function that does nothing.

ghost use Rattle.gimv_block.specs.BlockFlow.{PartsAreSent};
ghost use Rattle.gimv_block.specs.BlockListing.{BlocksAreListed};
ghost use Rattle.gimv_block.specs.BlockReadBack.{BlocksReadBack, CutsReadBack, LinesReadBack, MatricesReadBack, PartsReadBack, SeatsReadBack};
ghost use Rattle.gimv_block.specs.BlockSteps.{BlockIteratesAreIterates, BlockStepsAreSteps, LinesByOffsets};
ghost use Rattle.gimv_block.specs.BlockValues.{FirstsByOffsets, NewValuesAreMade};
ghost use Rattle.gimv_block.specs.Blocks.{BlocksAreAllNodes, NodesHaveOffsets};
ghost use Rattle.gimv_block.specs.Unplacing.{PlaceNodesReadBack, PlaceNumbersReadBack};

/// A node has one offset in one block, and the blocks have all nodes.
pub fn blocks_cut_the_nodes()
    ensures offsets { NodesHaveOffsets }
    ensures all { BlocksAreAllNodes }
{}

/// A step in blocks is a plain step, however the entries are cut into lines; so all steps are.
pub fn block_steps_are_steps<Val, Msg, Weight>()
    ensures step { BlockStepsAreSteps Val Msg Weight }
    ensures iterates { BlockIteratesAreIterates Val Msg Weight }
{}

/// What a line between two blocks passes on, by offsets.
pub fn lines_by_offsets<Val, Msg, Weight>()
    ensures { LinesByOffsets Val Msg Weight }
{}

/// The parts that come to a row are what the lines send to its node.
pub fn parts_are_sent<Val, Msg, Weight>()
    ensures { PartsAreSent Val Msg Weight }
{}

/// The entries of a good group are listed in lines.
pub fn blocks_are_listed<Item>()
    ensures { BlocksAreListed Item }
{}

/// A block has its first values, in whatever order its places come; its new values are those of its nodes, one by one.
pub fn values_are_made<Val, Msg, Weight>()
    ensures firsts { FirstsByOffsets Val Msg Weight }
    ensures new { NewValuesAreMade Val Msg Weight }
{}

/// A block's values read back from their line.
pub fn blocks_read_back<Val, Msg, Weight>()
    ensures { BlocksReadBack Val Msg Weight }
{}

/// The messages to a block's rows read back from their line.
pub fn parts_read_back<Val, Msg, Weight>()
    ensures { PartsReadBack Val Msg Weight }
{}

/// What a line of items passes on reads back from its line.
pub fn lines_read_back<Val, Msg, Weight>()
    ensures { LinesReadBack Val Msg Weight }
{}

/// A node by its offset in a block reads back.
pub fn seats_read_back()
    ensures { SeatsReadBack }
{}

/// An entry reads back, by its column and by its blocks.
pub fn entries_read_back()
    ensures matrix { MatricesReadBack }
    ensures cut { CutsReadBack }
{}

/// The records of places read back.
pub fn places_read_back()
    ensures numbers { PlaceNumbersReadBack }
    ensures nodes { PlaceNodesReadBack }
{}
