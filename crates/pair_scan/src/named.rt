//! The vertices of a pair, by its name.
ghost use Rattle.std.specs.Prelude.{◌≡◌};
ghost use Rattle.mesh_base.specs.Pairs.{five_ids};
ghost use Rattle.pair_scan.specs.Named.{corners_at, pair_named};

use mesh_base::{Corners, FaceId, PairName, Surface, VertexId};

// Ids that no vertex has.
const NO_CORNERS: Corners = Corners {
    first: VertexId(0),
    second: VertexId(0),
    third: VertexId(0),
};

// The corners of a face.
fn corners_at<S: Surface>(mesh: &S, face: FaceId) -> Corners
    ensures { result ≡ corners_at (S.mesh mesh.now) face }
{
    match mesh.corners(face) {
        Some(ids) => Corners::of(ids),
        None => NO_CORNERS,
    }
}

/// The five vertices of a pair of the mesh: the two ends of its edge, and then the three corners of its face.
pub fn five_of<S: Surface>(mesh: &S, name: &PairName) -> [VertexId; 5]
    ensures { result ≡ five_ids (pair_named (S.mesh mesh.now) name.now) }
{
    let c = corners_at(mesh, name.face);
    [name.a, name.b, c.first, c.second, c.third]
}
