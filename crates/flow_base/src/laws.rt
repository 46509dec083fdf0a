//! Each law is the contract of a function that does nothing.
ghost use Rattle.flow_base.specs.Laws.{MatrixOfOnes, MatrixOfRanks, ResultsAreNumbers, VectorsAreIterates};

/// Folders of which the first is made of the nodes and each later one of the one before it hold the
/// iterates, and a result that is made of one of them has the numbers of its values.
pub fn vectors_are_iterates<Val, Msg, Weight>()
    ensures vectors { VectorsAreIterates Val Msg Weight }
    ensures results { ResultsAreNumbers Val Msg Weight }
{}

/// The folder of a matrix holds the entries of the edges.
pub fn matrices_hold_entries<Val, Msg>()
    ensures ones { MatrixOfOnes Val Msg }
    ensures ranks { MatrixOfRanks }
{}
