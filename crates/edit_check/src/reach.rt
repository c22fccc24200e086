//! A box that has each touched face: where it stands, and all its way.
ghost use Rattle.std.specs.Prelude.{◌≡◌, ◌-◌, IfOk, All};
ghost use Rattle.std.specs.FinMap as map;
ghost use Rattle.grid_base.specs.Triples.{Triple};
ghost use Rattle.grid_base.specs.Extents.{IsIn};
ghost use Rattle.mesh_base.specs.Sides.{above, faces_at};
ghost use Rattle.edit_check.specs.Reach.{HasVertex, HasFace, Reaches, ReachesAt, ReachesMoves};
ghost use Rattle.edit_check.specs.Reach.{ReachesTouched, Widens, old_ones};

use crate::moves::is_moved;
use crate::path_boxes::{box_of_path, united};
use box_tree::SmallBox;
use edit_base::Move;
use grid_base::{Extent, NoMemory};
use mesh_base::{Corners, FaceId, FaceIds, Surface, VertexId, live_faces_above};
use pair_paths::Paths;
use pair_scan::MovedVertices;
use std::alloc::Global;

/// A box that has the vertex where it stands, and all its way. One that no move names stands where it goes.
fn box_of_vertex<S: Surface>(paths: &MovedVertices<S, &[Move]>, v: VertexId) -> SmallBox
    ensures { HasVertex (S.mesh paths.now.mesh.now) paths.now.moves.now v result }
{
    let way = box_of_path(&paths.path_of(v));
    if is_moved(paths.moves, v) {
        let none: &[Move] = &[];
        let standing = MovedVertices {
            mesh: paths.mesh,
            moves: none,
        };
        united(&way, &box_of_path(&standing.path_of(v)))
    } else {
        way
    }
}

/// A box that has the face where it stands, and all its way.
fn box_of<S: Surface>(
    paths: &MovedVertices<S, &[Move]>,
    face: FaceId,
    corners: &Corners,
) -> SmallBox
    ensures { HasFace (S.mesh paths.now.mesh.now) paths.now.moves.now (face, corners.now) result }
{
    let two = united(
        &box_of_vertex(paths, corners.first),
        &box_of_vertex(paths, corners.second),
    );
    united(&two, &box_of_vertex(paths, corners.third))
}

/// The box, or the other alone where there is none, so that it has the other too.
fn widened(reach: Option<SmallBox>, by: &SmallBox) -> SmallBox
    ensures has { (p : Triple) → IsIn by.now p → IsIn result p }
    ensures keeps { Widens reach (Some result) }
{
    match reach {
        Some(old) => united(&old, by),
        None => *by,
    }
}

/// The box, made to have the face, if it is live.
fn reach_face<S: Surface>(
    paths: &MovedVertices<S, &[Move]>,
    f: FaceId,
    reach: Option<SmallBox>,
) -> Option<SmallBox>
    ensures reaches { Reaches (S.mesh paths.now.mesh.now) paths.now.moves.now result f }
    ensures keeps { Widens reach result }
{
    match paths.mesh.corners(f) {
        Some(ids) => Some(widened(reach, &box_of(paths, f, &Corners::of(ids)))),
        None => reach,
    }
}

/// The box, made to have the faces.
fn reach_faces<S: Surface>(
    paths: &MovedVertices<S, &[Move]>,
    faces: &[FaceId],
    reach: Option<SmallBox>,
) -> Option<SmallBox>
    ensures reaches { let m = S.mesh paths.now.mesh.now in
        All (Reaches m paths.now.moves.now result) faces.now }
    ensures keeps { Widens reach result }
{
    let mut wide = reach;
    for f in faces {
        wide = reach_face(paths, *f, wide);
    }
    wide
}

/// Leaves the ids below the first new one.
fn keep_old(faces: &mut Vec<FaceId>, fresh_from: u32)
    ensures { faces.new.items ≡ old_ones fresh_from faces.old.items }
{
    faces.retain(|f| f.0 < fresh_from);
}

/// The box, made to have the old faces at a vertex.
fn reach_at<S: Surface>(
    paths: &MovedVertices<S, &[Move]>,
    fresh_from: u32,
    v: VertexId,
    at: &mut Vec<FaceId>,
    reach: Option<SmallBox>,
) -> Result<Option<SmallBox>, NoMemory>
    ensures reaches { let m = S.mesh paths.now.mesh.now in
        IfOk result (λ wide. ReachesAt m paths.now.moves.now fresh_from wide v) }
    ensures keeps { IfOk result (λ wide. Widens reach wide) }
{
    paths.mesh.faces_at(v, at)?;
    keep_old(at, fresh_from);
    Ok(reach_faces(paths, at.as_slice(), reach))
}

/// The box, made to have the old faces at each vertex that moves.
fn reach_moves<S: Surface>(
    paths: &MovedVertices<S, &[Move]>,
    fresh_from: u32,
    at: &mut Vec<FaceId>,
    reach: Option<SmallBox>,
) -> Result<Option<SmallBox>, NoMemory>
    ensures reaches { let m = S.mesh paths.now.mesh.now in
        IfOk result (λ wide. ReachesMoves m paths.now.moves.now fresh_from wide) }
    ensures keeps { IfOk result (λ wide. Widens reach wide) }
{
    let mut wide = reach;
    for m in paths.moves {
        wide = reach_at(paths, fresh_from, m.v, at, wide)?;
    }
    Ok(wide)
}

/// The box, made to have the old faces at a vertex, if it has those at each vertex that moves.
fn reach_vertex<S: Surface>(
    paths: &MovedVertices<S, &[Move]>,
    fresh_from: u32,
    v: VertexId,
    at: &mut Vec<FaceId>,
    reach: Option<SmallBox>,
) -> Result<Option<SmallBox>, NoMemory>
    requires { ReachesMoves (S.mesh paths.now.mesh.now) paths.now.moves.now fresh_from reach }
    ensures reaches { let m = S.mesh paths.now.mesh.now in
        IfOk result (λ wide. ReachesAt m paths.now.moves.now fresh_from wide v) }
    ensures keeps { IfOk result (λ wide. Widens reach wide) }
{
    if is_moved(paths.moves, v) {
        return Ok(reach);
    }
    reach_at(paths, fresh_from, v, at, reach)
}

/// The box, made to have the old faces at each of the vertices, if it has those at each vertex that moves.
fn reach_vertices<S: Surface>(
    paths: &MovedVertices<S, &[Move]>,
    fresh_from: u32,
    vertices: &[VertexId],
    at: &mut Vec<FaceId>,
    reach: Option<SmallBox>,
) -> Result<Option<SmallBox>, NoMemory>
    requires { ReachesMoves (S.mesh paths.now.mesh.now) paths.now.moves.now fresh_from reach }
    ensures reaches { let m = S.mesh paths.now.mesh.now in
        let moves = paths.now.moves.now in
        IfOk result (λ wide. All (ReachesAt m moves fresh_from wide) vertices.now) }
    ensures keeps { IfOk result (λ wide. Widens reach wide) }
{
    let mut wide = reach;
    for v in vertices {
        wide = reach_vertex(paths, fresh_from, *v, at, wide)?;
    }
    Ok(wide)
}

/// A list for the faces at a vertex begins with room for so many, which is enough for most vertices. Only speed depends on it.
const AROUND: usize = 16;

/// The box, made to have the old faces at each vertex that moves and at each of the vertices.
fn reach_old<S: Surface>(
    alloc: Global,
    paths: &MovedVertices<S, &[Move]>,
    fresh_from: u32,
    vertices: &[VertexId],
    reach: Option<SmallBox>,
) -> Result<Option<SmallBox>, NoMemory>
    ensures moves { let m = S.mesh paths.now.mesh.now in
        IfOk result (λ wide. ReachesMoves m paths.now.moves.now fresh_from wide) }
    ensures vertices { let m = S.mesh paths.now.mesh.now in
        let moves = paths.now.moves.now in
        IfOk result (λ wide. All (ReachesAt m moves fresh_from wide) vertices.now) }
    ensures keeps { IfOk result (λ wide. Widens reach wide) }
{
    let mut at = Vec::with_capacity(alloc, AROUND)?;
    let moving = reach_moves(paths, fresh_from, &mut at, reach)?;
    reach_vertices(paths, fresh_from, vertices, &mut at, moving)
}

/// The live faces from an id on, by rising id.
fn fresh_faces<S: Surface>(alloc: Global, mesh: &S, fresh_from: u32) -> Result<FaceIds, NoMemory>
    ensures { let m = S.mesh mesh.now in
        IfOk result (λ ids. ids ≡ above (fresh_from - 1) (map.keys m.faces)) }
{
    live_faces_above(alloc, mesh, fresh_from.saturating_sub(1))
}

/// The box as an extent, where there is one.
fn extent_of(reach: Option<SmallBox>) -> Option<Extent>
    ensures { result ≡ reach }
{
    match reach {
        Some(all) => Some(all.extent()),
        None => None,
    }
}

/// A box that has each touched face, where it stands and all its way; None only where no face is touched. A face is touched where
/// its id is `fresh_from` or greater, or a corner of it moves or is one of `together`. Refuses only where there is no memory.
///
/// New faces are taken by their ids, and so old ones alone at the vertices.
pub fn reach_of<S: Surface>(
    alloc: Global,
    paths: &MovedVertices<S, &[Move]>,
    together: &[VertexId],
    fresh_from: u32,
) -> Result<Option<Extent>, NoMemory>
    ensures { let m = S.mesh paths.now.mesh.now in
        IfOk result (ReachesTouched m paths.now.moves.now together.now fresh_from) }
{
    let fresh = fresh_faces(alloc, paths.mesh, fresh_from)?;
    let new = reach_faces(paths, fresh.as_slice(), None);
    let all = reach_old(alloc, paths, fresh_from, together, new)?;
    Ok(extent_of(all))
}
