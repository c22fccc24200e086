ghost use Rattle.std.specs.Prelude.{◌≡◌};
ghost use Rattle.mesh_base.specs.Placements.{point_of};

use crate::ids::VertexId;
use crate::surface::Surface;
use grid_base::Point;

/// Where a vertex stands; the origin, where it is not live.
pub fn point_of<S: Surface>(mesh: &S, v: VertexId) -> Point
    ensures { result ≡ point_of (S.mesh mesh.now) v }
{
    match mesh.point(v) {
        Some(p) => p,
        None => Point { x: 0, y: 0, z: 0 },
    }
}
