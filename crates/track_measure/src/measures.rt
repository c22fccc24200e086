//! What one line of a log tells of volume and shape.
ghost use Rattle.std.specs.Prelude.{◌≡◌, IfOk};
ghost use Rattle.track_measure.specs.MeasureLines.{shape_of, change_to, measure_of_line};

use grid_base::NoMemory;
use log_text::LogLine;
use mesh_base::Surface;
use mesh_measure::{components, euler, genus_by, volume6};
use std::alloc::Global;

/// How many pieces a mesh is in, and its Euler number.
#[derive(Clone, Copy, Debug, PartialEq, Eq)]
pub struct MeshShape {
    pub components: u32,
    pub euler: i64,
}

/// A line that tells of volume and shape.
#[derive(Clone, Copy, Debug, PartialEq, Eq)]
pub enum MeasureLine {
    /// What there is to measure of mesh `k`.
    Measure {
        k: u32,
        volume6: i128,
        shape: MeshShape,
        genus: Option<u32>,
    },
    /// Behind a line of the log the shape is another than before it.
    Change {
        line: u32,
        shape: MeshShape,
    },
    /// The log came to its end.
    End,
}

/// The components and the Euler number of a mesh.
pub fn shape_of<S: Surface>(alloc: Global, mesh: &S) -> Result<MeshShape, NoMemory>
    ensures { IfOk result (λ found. found ≡ shape_of (S.mesh mesh.now)) }
{
    let pieces = components(alloc, mesh)?;
    let number = euler(alloc, mesh)?;
    Ok(MeshShape {
        components: pieces,
        euler: number,
    })
}

// The change to a shape, where it is another than before.
fn change_to(line: u32, before: MeshShape, shape: MeshShape) -> Option<MeasureLine>
    ensures { result ≡ change_to line before shape }
{
    if shape == before {
        return None;
    }
    Some(MeasureLine::Change { line, shape })
}

/// What the line of a log with this number tells, where the mesh had one shape before it and is this one behind it, of this shape.
pub fn measure_of_line<S: Surface>(
    alloc: Global,
    mesh: &S,
    number: u32,
    line: &LogLine,
    before: MeshShape,
    shape: MeshShape,
) -> Result<Option<MeasureLine>, NoMemory>
    requires { shape ≡ shape_of (S.mesh mesh.now) }
    ensures { IfOk result (λ found. found ≡ measure_of_line number before (S.mesh mesh.now) line.now) }
{
    if let LogLine::Mesh { k, .. } = line {
        let genus = genus_by(alloc, mesh, shape.components, shape.euler)?;
        return Ok(Some(MeasureLine::Measure {
            k: *k,
            volume6: volume6(mesh),
            shape,
            genus,
        }));
    }
    Ok(change_to(number, before, shape))
}
