//! Whether faces run as often one way as the other along each side.
ghost use Rattle.std.specs.Prelude.{◌≡◌};
ghost use Rattle.mesh_rows.specs.Faults.{side_fault, sides_fault, balance_fault};

use crate::faults::RowsFault;
use crate::rows::FaceRow;
use mesh_base::{Corners, Surface, VertexId};

// What is wrong with a side.
fn side_fault<S: Surface>(mesh: &S, from: VertexId, to: VertexId) -> Option<RowsFault>
    ensures { result ≡ side_fault (S.mesh mesh.now) from to }
{
    if mesh.runs(from, to) == mesh.runs(to, from) {
        None
    } else {
        Some(RowsFault::Unbalanced { from, to })
    }
}

// What is wrong with the first side of a face of which something is wrong.
fn sides_fault<S: Surface>(mesh: &S, c: &Corners) -> Option<RowsFault>
    ensures { result ≡ sides_fault (S.mesh mesh.now) c.now }
{
    if let Some(fault) = side_fault(mesh, c.first, c.second) {
        return Some(fault);
    }
    if let Some(fault) = side_fault(mesh, c.second, c.third) {
        return Some(fault);
    }
    side_fault(mesh, c.third, c.first)
}

// The same of faces.
pub(crate) fn balance_fault<S: Surface>(mesh: &S, rows: &[FaceRow]) -> Option<RowsFault>
    ensures { result ≡ balance_fault (S.mesh mesh.now) rows.now }
{
    for row in rows {
        if let Some(fault) = sides_fault(mesh, &row.corners) {
            return Some(fault);
        }
    }
    None
}
