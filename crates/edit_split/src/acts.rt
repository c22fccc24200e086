//! The acts of a split, which the test of a flip makes too.
ghost use Rattle.std.specs.Prelude.{◌≡◌, false, IsOk, OnOk};
ghost use Rattle.mesh_base.specs.Limits.{is_over_limits};
ghost use Rattle.mesh_base.specs.Sides.{IsClosed};
ghost use Rattle.mesh_base.specs.Kept.{BeginsWith};
ghost use Rattle.edit_split.specs.Split.{split_mesh, split_is_over, split_point};
ghost use Rattle.edit_split.specs.Laws.{TellsOver};
ghost use Rattle.edit_base.specs.Required.{HasEdge};

use edit_acts::{are_over, make_faces, make_vertex};
use edit_base::EdgeFaces;
use grid_base::{NoMemory, Point, floor_mid};
use mesh_base::{Surface, point_of};

/// Where the new vertex of a split is put: the midpoint, each component rounded down.
pub fn split_point<S: Surface>(mesh: &S, e: &EdgeFaces) -> Point
    ensures { result ≡ split_point (S.mesh mesh.now) e.now }
{
    floor_mid(point_of(mesh, e.a), point_of(mesh, e.b))
}

/// Whether the split of an edge would pass a limit, which the counts of the mesh tell for all its edges alike: it takes
/// one vertex more, two faces more, one vertex id and four face ids.
pub fn is_split_over<S: Surface>(mesh: &S) -> bool
    ensures counts { result ≡ split_is_over (S.mesh mesh.now) }
    ensures over { TellsOver (S.mesh mesh.now) result }
{
    are_over(
        mesh.limits(),
        mesh.vertices() + 1,
        mesh.faces() + 2,
        mesh.next_vertex() + 1,
        mesh.next_face() + 4,
    )
}

/// Drops the two faces beside an edge, and makes four round a new vertex at a point, in the order of the definition.
/// Where memory is wanting, some of it may be done.
pub fn apply_split<S: Surface>(mesh: &mut S, e: &EdgeFaces, at: Point) -> Result<(), NoMemory>
    requires closed { IsClosed (S.mesh mesh.old) }
    requires edge { HasEdge (S.mesh mesh.old) e.now }
    requires fits { is_over_limits (split_mesh (S.mesh mesh.old) e.now at) ≡ false }
    ensures made { OnOk result (S.mesh mesh.new ≡ split_mesh (S.mesh mesh.old) e.now at) }
    ensures marks { BeginsWith (S.kept mesh.new) (S.kept mesh.old) }
{
    mesh.drop_face(e.left_face)?;
    mesh.drop_face(e.right_face)?;
    let w = make_vertex(mesh, at)?;
    make_faces(
        mesh,
        &[[e.a, w, e.c], [w, e.b, e.c], [e.b, w, e.d], [w, e.a, e.d]],
    )
}
