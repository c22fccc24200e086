//! Whether a flip may be tried, and the test of one.
ghost use Rattle.std.specs.Prelude.{◌≡◌, ◌≤◌, ◌||◌, ◌==◌, IfOk};
ghost use Rattle.grid_decided.specs.Decided.{meets_exactly};
ghost use Rattle.mesh_base.specs.Sides.{IsClosed};
ghost use Rattle.mesh_base.specs.Pairs.{is_edge};
ghost use Rattle.mesh_base.specs.Placements.{IsClearMesh};
ghost use Rattle.mesh_base.specs.Kept.{BeginsWith};
ghost use Rattle.edit_base.specs.Edges.{edge_of};
ghost use Rattle.edit_flip.specs.Flip.{flip_scaffold};
ghost use Rattle.edit_base.specs.Scaffold.{first_failing};
ghost use Rattle.edit_flip.specs.Answer.{flip_answer};
ghost use Rattle.edit_flip.specs.Tried.{MayBeTried};
ghost use Rattle.edit_base.specs.Clauses.{OnOkIs, OnErrRefuses};

use edit_acts::exact_mid;
use edit_base::{EdgeFaces, Move, Touch, Why, edge_beside, is_crowded, is_edge};
use edit_check::check;
use edit_split::{apply_split, is_split_over, split_point};
use grid_base::{DEPTH_MAX, NoMemory};
use mesh_base::{PairName, Surface, VertexId};
use std::alloc::Global;

/// Whether the edge that a flip would make has one end, or is there already.
fn is_made_already<S: Surface>(mesh: &S, e: &EdgeFaces) -> bool
    ensures { result ≡ ((e.now.c == e.now.d) || is_edge (S.mesh mesh.now) e.now.c e.now.d) }
{
    e.c == e.d || is_edge(mesh, e.c, e.d)
}

/// The edge of two ids with the faces beside it, if its flip may be tried, and else why it is not flipped. The result of a
/// flip has no more of anything than the test of it, so the limits are tried on the test alone.
pub(crate) fn edge_to_flip<S: Surface>(mesh: &S, a: VertexId, b: VertexId) -> Result<EdgeFaces, Why>
    requires closed { IsClosed (S.mesh mesh.now) }
    ensures edge { OnOkIs result (edge_of (S.mesh mesh.now) a b) }
    ensures tried { IfOk result (λ e. MayBeTried (S.mesh mesh.now) e) }
    ensures refused { OnErrRefuses result (flip_answer meets_exactly (S.mesh mesh.now) a b) }
{
    match edge_beside(mesh, a, b) {
        None => Err(Why::NoEdge),
        Some(e) => {
            if is_crowded(mesh, e.a, e.b) {
                Err(Why::Crowded)
            } else if is_made_already(mesh, &e) {
                Err(Why::Edge)
            } else if is_split_over(mesh) {
                Err(Why::Full)
            } else {
                Ok(e)
            }
        }
    }
}

/// Makes the changes of a split, and answers the first pair that does not pass while the new vertex goes from the middle of
/// the edge to the middle of the two opposite vertices. Some of the changes may be made where memory is wanting.
fn put_and_check<S: Surface>(
    alloc: Global,
    mesh: &mut S,
    e: &EdgeFaces,
    depth: u8,
) -> Result<Option<PairName>, NoMemory>
    requires closed { IsClosed (S.mesh mesh.old) }
    requires clear { IsClearMesh (S.mesh mesh.old) }
    requires depth { depth ≤ DEPTH_MAX }
    requires tried { MayBeTried (S.mesh mesh.old) e.now }
    ensures first { OnOkIs result
        (first_failing meets_exactly (flip_scaffold (S.mesh mesh.old) e.now) depth) }
    ensures marks { BeginsWith (S.kept mesh.new) (S.kept mesh.old) }
{
    let fresh_from = mesh.next_face();
    let way = Move {
        v: VertexId(mesh.next_vertex()),
        start: exact_mid(mesh, e.a, e.b),
        end: exact_mid(mesh, e.c, e.d),
    };
    let at = split_point(mesh, e);
    apply_split(mesh, e, at)?;
    check(alloc, mesh, &[way], Touch::Never, &[], fresh_from, depth)
}

/// The first pair of a flip's test that does not pass. In every case the mesh and what was kept are left as they were.
pub(crate) fn first_hit<S: Surface>(
    alloc: Global,
    mesh: &mut S,
    e: &EdgeFaces,
    depth: u8,
) -> Result<Option<PairName>, NoMemory>
    requires closed { IsClosed (S.mesh mesh.old) }
    requires clear { IsClearMesh (S.mesh mesh.old) }
    requires depth { depth ≤ DEPTH_MAX }
    requires tried { MayBeTried (S.mesh mesh.old) e.now }
    ensures first { OnOkIs result
        (first_failing meets_exactly (flip_scaffold (S.mesh mesh.old) e.now) depth) }
    ensures mesh { S.mesh mesh.new ≡ S.mesh mesh.old }
    ensures marks { BeginsWith (S.kept mesh.new) (S.kept mesh.old) }
    ensures kept { S.kept mesh.new ≡ S.kept mesh.old }
{
    let mark = mesh.mark()?;
    let found = put_and_check(alloc, mesh, e, depth);
    mesh.back_to(mark);
    found
}
