//! Each law is the contract of a function that does nothing, or that calls others for their laws.
ghost use Rattle.flow_forms.specs.AsBase.{FormsEndAsBase};
ghost use Rattle.flow_forms.specs.BlockForm.{BlockEndsAsBase, BlockFlow, BlockKeepsIterates};
ghost use Rattle.flow_forms.specs.BlockForm.{FileBlockEndsAsBase, FileBlockFlow};
ghost use Rattle.flow_forms.specs.DiagonalForm.{DiagonalEndsAsBase, DiagonalFlow, DiagonalKeepsLabels};
ghost use Rattle.flow_forms.specs.DiagonalForm.{FileDiagonalEndsAsBase, FileDiagonalFlow};
ghost use Rattle.flow_forms.specs.Examples.{BlockFlowByExample, BlockRanksByExample, BlocksByExample};
ghost use Rattle.flow_forms.specs.Examples.{ClosedByExample, DiagonalFlowByExample};
ghost use Rattle.flow_forms.specs.Held.{FormsKeepIterations};

use flow_diag::laws::diagonal_vectors_are_labels;
use gimv_diag::laws::diagonal_ends_at_least;

/// Where the vectors of a form count what the iterates change, and its result is read from the last of them,
/// its run ends as that of the base form does: with the bytes of its result, and with its lines.
pub fn forms_end_as_base()
    ensures { FormsEndAsBase }
{}

/// Each image that is kept of such a run holds whole iterations of its form, and the result of the last one.
pub fn forms_keep_iterations()
    ensures { FormsKeepIterations }
{}

/// Where the children are the bundled ones, each vector of the block form is so many steps, block by block,
/// and its lines count what the last of them changed.
pub fn block_flow()
    ensures edges { BlockFlow }
    ensures files { FileBlockFlow }
{}

/// A run of the block form ends as that of the base form does.
pub fn block_ends_as_base()
    ensures edges { BlockEndsAsBase }
    ensures files { FileBlockEndsAsBase }
{}

/// Each image that is kept of such a run holds whole iterations, each so many steps, and the result of the
/// last one.
pub fn block_keeps_iterates()
    ensures { BlockKeepsIterates }
{}

/// Where the children are the bundled ones, each vector of the diagonal form is so many steps of closed
/// labels, block by block, and its lines count what the last of them changed.
pub fn diagonal_flow()
    ensures edges { DiagonalFlow }
    ensures files { FileDiagonalFlow }
{
    diagonal_vectors_are_labels();
}

/// A run of the diagonal form ends at the least labels, with the bytes of the base form's result.
pub fn diagonal_ends_as_base()
    ensures edges { DiagonalEndsAsBase }
    ensures files { FileDiagonalEndsAsBase }
{
    diagonal_vectors_are_labels();
    diagonal_ends_at_least();
}

/// Each image that is kept of such a run holds whole iterations, and the result of the last one.
pub fn diagonal_keeps_labels()
    ensures { DiagonalKeepsLabels }
{
    diagonal_vectors_are_labels();
    diagonal_ends_at_least();
}

/// The folders of small graphs in blocks.
pub fn blocks_by_example()
    ensures layouts { BlocksByExample }
    ensures flow { BlockFlowByExample }
    ensures ranks { BlockRanksByExample }
{}

/// The folders of a small graph in the diagonal form.
pub fn diagonal_by_example()
    ensures layouts { ClosedByExample }
    ensures flow { DiagonalFlowByExample }
{
    diagonal_flow();
    diagonal_ends_as_base();
}
