//! Each law is the contract of a function that does nothing, or that calls others for their laws.
ghost use Rattle.flow_diag.specs.Laws.{ClosedIteratesFit, DiagonalLabelsFit};
ghost use Rattle.flow_diag.specs.Laws.{DiagonalVectorsAreClosedIterates, DiagonalVectorsAreLabels};

use gimv_diag::laws::{list_rounds_are_rounds, sent_closed_is_step};
use graph::One;

/// Folders of which the first is made of the nodes and each later one of the blocks and the one before it,
/// with the values of each block closed before they are passed on, hold the steps of closed values, block by
/// block.
pub fn diagonal_vectors_are_closed_iterates<Val, Msg, Weight>()
    ensures vectors { DiagonalVectorsAreClosedIterates Val Msg Weight }
    ensures fit { ClosedIteratesFit Val Msg Weight }
{
    list_rounds_are_rounds::<Val, Msg, Weight>();
    sent_closed_is_step::<Val, Msg, Weight>();
}

/// For components these are the labels after so many steps of closed labels.
pub fn diagonal_vectors_are_labels()
    ensures vectors { DiagonalVectorsAreLabels }
    ensures fit { DiagonalLabelsFit }
{
    diagonal_vectors_are_closed_iterates::<u64, u64, One>();
}
