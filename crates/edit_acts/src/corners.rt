//! The corners of a face, as edits take and change them.
ghost use Rattle.std.specs.Prelude.{◌≡◌};
ghost use Rattle.mesh_base.specs.Mesh.{equal_up_to_rotation};
ghost use Rattle.edit_base.specs.Edges.{corners_at, renamed};

use mesh_base::{Corners, FaceId, Surface, VertexId};

/// The corners of a face; three times 0, where it is not live.
pub fn corners_at<S: Surface>(mesh: &S, f: FaceId) -> Corners
    ensures { result ≡ corners_at (S.mesh mesh.now) f }
{
    match mesh.corners(f) {
        Some(ids) => Corners::of(ids),
        None => Corners {
            first: VertexId(0),
            second: VertexId(0),
            third: VertexId(0),
        },
    }
}

/// The corners with one vertex in the place of another.
pub fn renamed(c: Corners, from: VertexId, to: VertexId) -> Corners
    ensures { result ≡ renamed from to c }
{
    Corners {
        first: if c.first == from { to } else { c.first },
        second: if c.second == from { to } else { c.second },
        third: if c.third == from { to } else { c.third },
    }
}

/// Whether the corners are equal up to rotation.
pub fn are_equal(c: Corners, d: Corners) -> bool
    ensures { result ≡ equal_up_to_rotation c d }
{
    c.first == d.first && c.second == d.second && c.third == d.third
        || c.second == d.first && c.third == d.second && c.first == d.third
        || c.third == d.first && c.first == d.second && c.second == d.third
}
