//! Laws on edge lists that come in pieces. Each is the contract of a function that does nothing.

ghost use Rattle.edge_text.specs.Laws.{AcceptedAreBelow, CuttingChangesNothing, PiecesJoin, ReadsWholeRecords, WrittenIsRead};

/// However an edge list is cut into pieces, a reader reads its edges and its refusal.
pub fn cutting_changes_nothing()
    ensures { CuttingChangesNothing }
{}

/// Two pieces, fed one after another, do what both do as one piece.
pub fn pieces_join()
    ensures { PiecesJoin }
{}

/// A reader stands where the whole records among the bytes so far have brought it.
pub fn reads_whole_records()
    ensures { ReadsWholeRecords }
{}

/// Both nodes of each accepted edge are below the number of nodes.
pub fn accepted_are_below()
    ensures { AcceptedAreBelow }
{}

/// The lines that are written for edges are read as these edges.
pub fn written_is_read()
    ensures { WrittenIsRead }
{}
