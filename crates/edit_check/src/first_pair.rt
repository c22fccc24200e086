//! The first pair that is not as required.
ghost use Rattle.std.specs.Prelude.{◌≡◌, ◌≤◌, [], Some, IfOk, IsNone};
ghost use Rattle.std.specs.List.{All};
ghost use Rattle.grid_decided.specs.Decided.{meets_exactly};
ghost use Rattle.mesh_base.specs.Placements.{IsClearMesh};
ghost use Rattle.edit_base.specs.Scaffold.{first_failing};
ghost use Rattle.edit_check.specs.Untouched.{IsClearWhereUntouched, MoveFits};
ghost use Rattle.edit_check.specs.Reach.{ReachesTouched};
ghost use Rattle.pair_scan.specs.Answers.{IsFirstMeeting};
ghost use Rattle.edit_check.specs.Checking.{scaffold_by, IsFirstFailing, IsClearButIfNone};

use crate::face_pairs::none_is_seen_to_fail;
use crate::nearby::faces_near;
use crate::neighbourhood::Neighbourhood;
use crate::pair_search::first_along;
use crate::reach::reach_of;
use crate::terms::Terms;
use crate::touched::touched_of;
use box_tree::SmallBox;
use edit_base::{Move, Touch};
use grid_base::{DEPTH_MAX, Extent, NoMemory};
use mesh_base::{PairName, Surface, VertexId};
use pair_scan::MovedVertices;
use std::alloc::Global;

/// What `check` answers where a box has each touched face.
fn first_in_reach<S: Surface>(
    alloc: Global,
    paths: &MovedVertices<S, &[Move]>,
    terms: Terms,
    fresh_from: u32,
    reach: Extent,
) -> Result<Option<PairName>, NoMemory>
    requires reached { let m = S.mesh paths.now.mesh.now in
        ReachesTouched m paths.now.moves.now terms.together.now fresh_from (Some reach) }
    requires clear { let m = S.mesh paths.now.mesh.now in
        IsClearWhereUntouched m paths.now.moves.now fresh_from }
    ensures { let m = S.mesh paths.now.mesh.now in
        let t = terms.entry in
        let s = scaffold_by m paths.now.moves.now t.touch t.together.now in
        IfOk result (λ found. found ≡ first_failing meets_exactly s t.depth) }
{
    let all = faces_near(alloc, paths, reach)?;
    let faces = all.as_slice();
    let touched = touched_of(alloc, paths.moves, terms.together, fresh_from, faces)?;
    let near = Neighbourhood {
        terms,
        reach: SmallBox::of(&reach),
        faces,
        touched: touched.as_slice(),
    };
    if none_is_seen_to_fail(&near) {
        return Ok(None);
    }
    Ok(first_along(&near))
}

/// The first pair, in order of the edge and then of the face, over all pairs of the mesh, that is not as required in a
/// motion in which the vertices of the moves go from their starts to their ends, in half units, and all others stay. A
/// pair of which the edge has one of the vertices of `together` and the face another does as `touch` says; any other one
/// passes, to the depth. None exactly where each pair is as required; then no pair meets at any fraction of the motion,
/// but at the start, or the end, where two may touch there.
///
/// Faces from the id `fresh_from` on are new. Pairs of an old edge and an old face, of which no vertex moves, need not be
/// tested: they are not to meet where they stand. What is looked at are the faces near a box around what is new, moves or
/// may touch, as the mesh finds them, and their sides. Refuses only where there is no memory. After the test of edits in
/// El Topo (Brochu and Bridson 2009).
pub fn check<S: Surface>(
    alloc: Global,
    mesh: &S,
    moves: &[Move],
    touch: Touch,
    together: &[VertexId],
    fresh_from: u32,
    depth: u8,
) -> Result<Option<PairName>, NoMemory>
    requires depth { depth ≤ DEPTH_MAX }
    requires fits { All MoveFits moves.now }
    requires clear { IsClearWhereUntouched (S.mesh mesh.now) moves.now fresh_from }
    ensures first { IfOk result
        (IsFirstFailing (S.mesh mesh.now) moves.now touch together.now depth) }
    // None: the motion is clear.
    ensures clear { IfOk result (IsClearButIfNone (S.mesh mesh.now) moves.now touch) }
{
    let terms = Terms {
        touch,
        together,
        depth,
    };
    let paths = MovedVertices { mesh, moves };
    match reach_of(alloc, &paths, together, fresh_from)? {
        Some(reach) => first_in_reach(alloc, &paths, terms, fresh_from, reach),
        None => Ok(None),
    }
}

/// The first pair that meets, in order of the edge and then of the face, over all pairs of the mesh, where its vertices
/// stand; None exactly where the mesh is clear. Faces from the id `fresh_from` on are new. Pairs of an old edge and an old
/// face need not be tested: they are not to meet. Refuses only where there is no memory.
pub fn check_still<S: Surface>(
    alloc: Global,
    mesh: &S,
    fresh_from: u32,
) -> Result<Option<PairName>, NoMemory>
    requires { IsClearWhereUntouched (S.mesh mesh.now) [] fresh_from }
    ensures first { IfOk result (IsFirstMeeting (S.mesh mesh.now)) }
    // None: the mesh is clear.
    ensures clear { IfOk result (λ found. IsNone found → IsClearMesh (S.mesh mesh.now)) }
{
    let found = check(alloc, mesh, &[], Touch::Never, &[], fresh_from, 0)?;
    Ok(found)
}
