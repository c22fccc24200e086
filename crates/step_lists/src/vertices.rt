//! The vertices of a mesh in a list.
ghost use Rattle.std.specs.Prelude.{◌≡◌, IsTrue};

use mesh_base::VertexId;

/// Whether these are the same vertices, in the same order.
pub(crate) fn are_same_vertices(a: &[VertexId], b: &[VertexId]) -> bool
    ensures { IsTrue result → a.now ≡ b.now }
{
    if a.len() != b.len() {
        return false;
    }
    for (i, v) in a.iter().enumerate() {
        if b[i] != *v {
            return false;
        }
    }
    true
}
