//! The faces at the joined vertex, and the changes of a collapse.
ghost use Rattle.std.specs.Prelude.{◌≡◌, ◌≤◌, ◌≢◌, ◌==◌, ◌+◌, ◌++◌, not, IsTrue, IfOk, OnOk, length, if◌then◌else◌};
ghost use Rattle.std.specs.List.{filter, fold};
ghost use Rattle.grid_base.specs.declared.TheConstants.{ID_MAX, FACES_MAX};
ghost use Rattle.mesh_base.specs.Mesh.{IsLiveVertex, IsLiveFace};
ghost use Rattle.mesh_base.specs.Sides.{IsClosed, faces_at};
ghost use Rattle.mesh_base.specs.Changes.{corners_of, corner_list, with_face, without_face, IsFresh, IsFullOfFaces};
ghost use Rattle.mesh_base.specs.Kept.{BeginsWith};
ghost use Rattle.edit_base.specs.Edges.{renamed, corners_at, without_faces};
ghost use Rattle.edit_collapse.specs.Collapse.{joined_faces, without_bare, has_solid_end, collapse_mesh, collapse_point, placed, placed_if_left};
ghost use Rattle.edit_base.specs.Reasons.{is_full};
ghost use Rattle.edit_collapse.specs.Tried.{if_apart, only_at, numbered, joined_at, left_at, MayBeTried, has_id_in, with_id_used_up, with_joined_or_gone, corners_if_live, corners_near, others_than, without_if_bare, TellsDoubled, AreRising};
ghost use Rattle.edit_base.specs.Clauses.{OnOkIs};

use crate::cancellation::{LeftFaces, cancel_opposites, has_id, repeats};
use edit_acts::{make_face, renamed};
use grid_base::{ID_MAX, Items, NoMemory, Point};
use mesh_base::{Corners, FaceId, Surface, VertexId};
use std::alloc::Global;

/// A list for the faces at a vertex begins with room for so many, which is enough for most vertices. Only speed depends on it.
const AROUND: usize = 16;

/// Puts a face with its corners at the end of a list, if it is live and does not hold a vertex.
fn put_apart<S: Surface>(
    mesh: &S,
    f: FaceId,
    other: VertexId,
    faces: &mut LeftFaces,
) -> Result<(), NoMemory>
    ensures { OnOk result (faces.new ≡ faces.old ++ if_apart (S.mesh mesh.now) other f) }
{
    if let Some(list) = mesh.corners(f) {
        let c = Corners::of(list);
        if !c.has_corner(other) {
            faces.push((f, c))?;
        }
    }
    Ok(())
}

/// The faces that hold the one vertex and not the other, by rising id.
fn only_at<S: Surface>(
    alloc: Global,
    mesh: &S,
    v: VertexId,
    other: VertexId,
) -> Result<LeftFaces, NoMemory>
    ensures faces { OnOkIs result (only_at (S.mesh mesh.now) v other) }
    ensures few { IfOk result (λ faces. length faces ≤ FACES_MAX) }
{
    let mut ids = Vec::with_capacity(alloc, AROUND)?;
    mesh.faces_at(v, &mut ids)?;
    let mut faces = Items::new(alloc);
    for f in &ids {
        put_apart(mesh, *f, other, &mut faces)?;
    }
    Ok(faces)
}

/// Puts faces at the end of a list, under rising ids from the first on, with `a` in the place of `b`.
fn put_numbered(
    faces: &mut LeftFaces,
    joining: &[(FaceId, Corners)],
    a: VertexId,
    b: VertexId,
    first: u32,
) -> Result<(), NoMemory>
    requires first { first ≤ ID_MAX + 1 }
    requires few { length joining.now ≤ FACES_MAX }
    ensures { OnOk result (faces.new ≡ faces.old ++ numbered b a first joining.now) }
{
    let mut next = first;
    for e in joining {
        faces.push((FaceId(next), renamed(e.1, b, a)))?;
        next += 1;
    }
    Ok(())
}

/// The faces at the joined vertex after the second act: those at `a` that do not hold `b`, and, under the next ids, those
/// at `b` that do not hold `a`, renamed.
fn joined_at<S: Surface>(
    alloc: Global,
    mesh: &S,
    a: VertexId,
    b: VertexId,
) -> Result<LeftFaces, NoMemory>
    requires { a ≢ b }
    ensures { OnOkIs result (joined_at (S.mesh mesh.now) a b) }
{
    let mut faces = only_at(alloc, mesh, a, b)?;
    let joining = only_at(alloc, mesh, b, a)?;
    put_numbered(&mut faces, joining.as_slice(), a, b, mesh.next_face())?;
    Ok(faces)
}

/// The faces at the joined vertex after the third act.
pub(crate) fn left_at<S: Surface>(
    alloc: Global,
    mesh: &S,
    a: VertexId,
    b: VertexId,
) -> Result<LeftFaces, NoMemory>
    requires { a ≢ b }
    ensures { OnOkIs result (left_at (S.mesh mesh.now) a b) }
{
    let faces = joined_at(alloc, mesh, a, b)?;
    cancel_opposites(alloc, faces)
}

/// Whether two faces would be equal up to rotation after the third act. Only those at the joined vertex can be.
pub(crate) fn is_doubled(alloc: Global, left: &LeftFaces) -> Result<bool, NoMemory>
    ensures { IfOk result (TellsDoubled left.now) }
{
    repeats(alloc, left.as_slice())
}

/// Whether a collapse would pass a limit. It makes no count greater, so only the next face id can: it takes one for each
/// face that holds `b` and not `a`.
pub(crate) fn is_over<S: Surface>(
    alloc: Global,
    mesh: &S,
    a: VertexId,
    b: VertexId,
) -> Result<bool, NoMemory>
    requires apart { a ≢ b }
    ensures { let m = S.mesh mesh.now in
        OnOkIs result (is_full m (collapse_mesh m a b (collapse_point m a b))) }
{
    let joining = only_at(alloc, mesh, b, a)?;
    Ok(u64::from(mesh.next_face()) + joining.len() as u64 > u64::from(ID_MAX) + 1)
}

/// Drops a face, if it is there.
fn drop_if_there<S: Surface>(mesh: &mut S, f: FaceId) -> Result<(), NoMemory>
    ensures made { OnOk result (S.mesh mesh.new ≡ without_face (S.mesh mesh.old) f) }
    ensures marks { BeginsWith (S.kept mesh.new) (S.kept mesh.old) }
{
    if mesh.corners(f).is_some() {
        mesh.drop_face(f)?;
    }
    Ok(())
}

/// Drops a face, if it is there, unless it is left.
fn drop_unless_left<S: Surface>(mesh: &mut S, left: &LeftFaces, f: FaceId) -> Result<(), NoMemory>
    requires { AreRising left.now }
    ensures made { let m = S.mesh mesh.old in
        OnOk result (S.mesh mesh.new ≡ (if has_id_in left.now f then m else without_face m f)) }
    ensures marks { BeginsWith (S.kept mesh.new) (S.kept mesh.old) }
{
    if has_id(left.as_slice(), f) {
        Ok(())
    } else {
        drop_if_there(mesh, f)
    }
}

/// Drops the faces at `a` that are not left: those that hold both ends, and those that the third act drops.
fn drop_gone<S: Surface>(
    alloc: Global,
    mesh: &mut S,
    a: VertexId,
    left: &LeftFaces,
) -> Result<(), NoMemory>
    requires { AreRising left.now }
    ensures made { let m = S.mesh mesh.old in
        let gone = filter (λ f. not (has_id_in left.now f)) (faces_at m a) in
        OnOk result (S.mesh mesh.new ≡ without_faces m gone) }
    ensures marks { BeginsWith (S.kept mesh.new) (S.kept mesh.old) }
{
    let mut ids = Vec::with_capacity(alloc, AROUND)?;
    mesh.faces_at(a, &mut ids)?;
    for f in &ids {
        drop_unless_left(mesh, left, *f)?;
    }
    Ok(())
}

/// Drops a face, and makes one of these corners. Where memory is wanting, it may be dropped.
fn make_again<S: Surface>(mesh: &mut S, f: FaceId, list: [VertexId; 3]) -> Result<(), NoMemory>
    requires live { IsLiveFace (S.mesh mesh.old) f }
    requires fresh { IsFresh (without_face (S.mesh mesh.old) f) (corners_of list) }
    requires room { ¬ IsFullOfFaces (without_face (S.mesh mesh.old) f) }
    ensures made { let m = S.mesh mesh.old in
        OnOk result (S.mesh mesh.new ≡ with_face (without_face m f) (corners_of list)) }
    ensures marks { BeginsWith (S.kept mesh.new) (S.kept mesh.old) }
{
    mesh.drop_face(f)?;
    make_face(mesh, list)
}

/// Drops a face, and uses up an id: it is given to these corners, and that face dropped.
fn use_up_id<S: Surface>(mesh: &mut S, f: FaceId, list: [VertexId; 3]) -> Result<(), NoMemory>
    requires live { IsLiveFace (S.mesh mesh.old) f }
    requires fresh { IsFresh (without_face (S.mesh mesh.old) f) (corners_of list) }
    requires room { ¬ IsFullOfFaces (without_face (S.mesh mesh.old) f) }
    ensures made { OnOk result (S.mesh mesh.new ≡ with_id_used_up (S.mesh mesh.old) f) }
    ensures marks { BeginsWith (S.kept mesh.new) (S.kept mesh.old) }
{
    let g = FaceId(mesh.next_face());
    make_again(mesh, f, list)?;
    mesh.drop_face(g)
}

/// Drops a face, and makes it again with `a` in the place of `b`, if that is left, under the next id. Where it is not, the
/// id is given to the same corners and that face dropped, so that ids are used up as the definition says.
fn join_face<S: Surface>(
    mesh: &mut S,
    a: VertexId,
    b: VertexId,
    left: &LeftFaces,
    f: FaceId,
) -> Result<(), NoMemory>
    requires room { (S.mesh mesh.old).next_face ≤ ID_MAX }
    requires ends { a ≢ b }
    requires rising { AreRising left.now }
    requires fresh { let m = S.mesh mesh.old in IsTrue (has_id_in left.now m.next_face) →
        IsFresh (without_face m f) (renamed b a (corners_at m f)) }
    ensures made { OnOk result
        (S.mesh mesh.new ≡ with_joined_or_gone b a left.now (S.mesh mesh.old) f) }
    ensures marks { BeginsWith (S.kept mesh.new) (S.kept mesh.old) }
{
    if let Some(list) = mesh.corners(f) {
        if has_id(left.as_slice(), FaceId(mesh.next_face())) {
            make_again(mesh, f, renamed(Corners::of(list), b, a).list())?;
        } else {
            use_up_id(mesh, f, list)?;
        }
    }
    Ok(())
}

/// The first three acts.
fn put_joined<S: Surface>(
    alloc: Global,
    mesh: &mut S,
    a: VertexId,
    b: VertexId,
    left: &LeftFaces,
) -> Result<(), NoMemory>
    requires closed { IsClosed (S.mesh mesh.old) }
    requires apart { a ≢ b }
    requires tried { MayBeTried (S.mesh mesh.old) a b }
    requires left { left.now ≡ left_at (S.mesh mesh.old) a b }
    ensures made { OnOk result (S.mesh mesh.new ≡ joined_faces (S.mesh mesh.old) a b) }
    ensures marks { BeginsWith (S.kept mesh.new) (S.kept mesh.old) }
{
    let joining = only_at(alloc, mesh, b, a)?;
    let faces = joining.as_slice();
    drop_gone(alloc, mesh, a, left)?;
    for i in 0..faces.len() {
        join_face(mesh, a, b, left, faces[i].0)?;
    }
    Ok(())
}

/// Puts corners at the end of a list.
fn put_corners(near: &mut Items<VertexId>, c: Corners) -> Result<(), NoMemory>
    ensures { OnOk result (near.new ≡ near.old ++ corner_list c) }
{
    near.push(c.first)?;
    near.push(c.second)?;
    near.push(c.third)
}

/// Puts the corners of a face at the end of a list, if it is live.
fn put_corners_of<S: Surface>(
    mesh: &S,
    f: FaceId,
    near: &mut Items<VertexId>,
) -> Result<(), NoMemory>
    ensures { OnOk result (near.new ≡ near.old ++ corners_if_live (S.mesh mesh.now) f) }
{
    match mesh.corners(f) {
        Some(list) => put_corners(near, Corners::of(list)),
        None => Ok(()),
    }
}

/// The corners of the faces at a vertex, each as often as it is one.
fn corners_near<S: Surface>(
    alloc: Global,
    mesh: &S,
    v: VertexId,
) -> Result<Items<VertexId>, NoMemory>
    ensures { OnOkIs result (corners_near (S.mesh mesh.now) v) }
{
    let mut ids = Vec::with_capacity(alloc, AROUND)?;
    mesh.faces_at(v, &mut ids)?;
    let mut near = Items::new(alloc);
    for f in &ids {
        put_corners_of(mesh, *f, &mut near)?;
    }
    Ok(near)
}

/// Drops a vertex, if it is live and has no face. The list is for its faces.
fn drop_if_bare<S: Surface>(
    mesh: &mut S,
    v: VertexId,
    ids: &mut Vec<FaceId>,
) -> Result<(), NoMemory>
    ensures made { OnOk result (S.mesh mesh.new ≡ without_if_bare (S.mesh mesh.old) v) }
    ensures marks { BeginsWith (S.kept mesh.new) (S.kept mesh.old) }
{
    mesh.faces_at(v, ids)?;
    if ids.len() == 0 && mesh.point(v).is_some() {
        mesh.drop_vertex(v)?;
    }
    Ok(())
}

/// Drops a vertex, if it is live and has no face, unless it is the one.
fn drop_if_bare_but<S: Surface>(
    mesh: &mut S,
    v: VertexId,
    but: VertexId,
    ids: &mut Vec<FaceId>,
) -> Result<(), NoMemory>
    ensures made { let m = S.mesh mesh.old in
        OnOk result (S.mesh mesh.new ≡ (if v == but then m else without_if_bare m v)) }
    ensures marks { BeginsWith (S.kept mesh.new) (S.kept mesh.old) }
{
    if v == but {
        Ok(())
    } else {
        drop_if_bare(mesh, v, ids)
    }
}

/// Drops each vertex of the list, but the one, that has no face.
fn drop_bare<S: Surface>(
    alloc: Global,
    mesh: &mut S,
    near: &[VertexId],
    but: VertexId,
) -> Result<(), NoMemory>
    ensures made { OnOk result
        (S.mesh mesh.new ≡ fold without_if_bare (S.mesh mesh.old) (others_than but near.now)) }
    ensures marks { BeginsWith (S.kept mesh.new) (S.kept mesh.old) }
{
    let mut ids = Vec::with_capacity(alloc, AROUND)?;
    for v in near {
        drop_if_bare_but(mesh, *v, but, &mut ids)?;
    }
    Ok(())
}

/// Drops each vertex of two lists that has no face, but the one end of the first list and the other of the second.
fn drop_bare_ends<S: Surface>(
    alloc: Global,
    mesh: &mut S,
    a: VertexId,
    b: VertexId,
    first: &[VertexId],
    second: &[VertexId],
) -> Result<(), NoMemory>
    ensures made { let one = fold without_if_bare (S.mesh mesh.old) (others_than a first.now) in
        OnOk result (S.mesh mesh.new ≡ fold without_if_bare one (others_than b second.now)) }
    ensures marks { BeginsWith (S.kept mesh.new) (S.kept mesh.old) }
{
    drop_bare(alloc, mesh, first, a)?;
    drop_bare(alloc, mesh, second, b)
}

/// Whether an end at least is solid.
fn has_solid_end<S: Surface>(mesh: &S, a: VertexId, b: VertexId) -> bool
    ensures { result ≡ has_solid_end (S.mesh mesh.now) a b }
{
    mesh.solid(a) || mesh.solid(b)
}

/// Puts a live vertex at a point, and makes it solid if it is to be.
fn place<S: Surface>(mesh: &mut S, v: VertexId, at: Point, solid: bool) -> Result<(), NoMemory>
    requires { IsLiveVertex (S.mesh mesh.old) v }
    ensures made { OnOk result (S.mesh mesh.new ≡ placed solid (S.mesh mesh.old) v at) }
    ensures marks { BeginsWith (S.kept mesh.new) (S.kept mesh.old) }
{
    mesh.place(v, at)?;
    if solid {
        mesh.make_solid(v)?;
    }
    Ok(())
}

/// The same, if the vertex is left.
fn place_if_left<S: Surface>(
    mesh: &mut S,
    v: VertexId,
    at: Point,
    solid: bool,
) -> Result<(), NoMemory>
    ensures made { OnOk result (S.mesh mesh.new ≡ placed_if_left solid (S.mesh mesh.old) v at) }
    ensures marks { BeginsWith (S.kept mesh.new) (S.kept mesh.old) }
{
    if mesh.point(v).is_some() {
        place(mesh, v, at, solid)?;
    }
    Ok(())
}

/// The four acts of a collapse. Where memory is wanting, some of it may be done.
fn apply_acts<S: Surface>(
    alloc: Global,
    mesh: &mut S,
    a: VertexId,
    b: VertexId,
    left: &LeftFaces,
) -> Result<(), NoMemory>
    requires closed { IsClosed (S.mesh mesh.old) }
    requires apart { a ≢ b }
    requires tried { MayBeTried (S.mesh mesh.old) a b }
    requires left { left.now ≡ left_at (S.mesh mesh.old) a b }
    ensures made { let m = S.mesh mesh.old in
        OnOk result (S.mesh mesh.new ≡ without_bare m b (joined_faces m a b)) }
    ensures marks { BeginsWith (S.kept mesh.new) (S.kept mesh.old) }
{
    let first = corners_near(alloc, mesh, a)?;
    let second = corners_near(alloc, mesh, b)?;
    put_joined(alloc, mesh, a, b, left)?;
    // The face of their edge has each end among the corners near the other.
    drop_bare_ends(alloc, mesh, a, b, first.as_slice(), second.as_slice())
}

/// All acts of a collapse, and the point. Where memory is wanting, some of it may be done.
pub(crate) fn apply_collapse<S: Surface>(
    alloc: Global,
    mesh: &mut S,
    a: VertexId,
    b: VertexId,
    left: &LeftFaces,
    at: Point,
) -> Result<(), NoMemory>
    requires closed { IsClosed (S.mesh mesh.old) }
    requires apart { a ≢ b }
    requires tried { MayBeTried (S.mesh mesh.old) a b }
    requires left { left.now ≡ left_at (S.mesh mesh.old) a b }
    ensures made { OnOk result (S.mesh mesh.new ≡ collapse_mesh (S.mesh mesh.old) a b at) }
    ensures marks { BeginsWith (S.kept mesh.new) (S.kept mesh.old) }
{
    // An end's mark goes with the end, so it is read before.
    let solid = has_solid_end(mesh, a, b);
    apply_acts(alloc, mesh, a, b, left)?;
    place_if_left(mesh, a, at, solid)
}
