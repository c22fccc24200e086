//! Which lines of a log leave the shape of the mesh.
ghost use Rattle.std.specs.Prelude.{IfOk};
ghost use Rattle.track_measure.specs.Measured.{KeepsShape};

use edit_base::Change;
use grid_base::NoMemory;
use log_text::LogLine;
use mesh_base::Surface;
use shape_laws::{collapse_keeps_shape, keeps_shape};
use std::alloc::Global;

// Whether an edit that is done leaves the shape of the mesh before it as it is.
fn edit_keeps_shape<S: Surface>(alloc: Global, mesh: &S, change: &Change) -> Result<bool, NoMemory>
    ensures { IfOk result (KeepsShape (S.mesh mesh.now) (LogLine.Did change.now)) }
{
    if keeps_shape(mesh, change) {
        return Ok(true);
    }
    collapse_keeps_shape(alloc, mesh, change)
}

/// Whether a line that fits leaves the components and the Euler number of the mesh before it as they are; that is asked before the line
/// is taken. Where it answers false, they may still be the same.
pub(crate) fn line_keeps_shape<S: Surface>(
    alloc: Global,
    mesh: &S,
    line: &LogLine,
) -> Result<bool, NoMemory>
    ensures { IfOk result (KeepsShape (S.mesh mesh.now) line.now) }
{
    match line {
        LogLine::Did(change) => edit_keeps_shape(alloc, mesh, change),
        LogLine::Close { kept } => Ok(*kept),
        _ => Ok(true),
    }
}
