//! The fans of faces at a vertex.
ghost use Rattle.std.specs.Prelude.{ℕ, true, ◌≡◌, ◌≤◌, ◌==◌, ◌&&◌, ◌++◌, ◌∷◌, [], not, length, map, IfOk, OnOk, if◌then◌else◌};
ghost use Rattle.std.specs.List.{filter, list_any};
ghost use Rattle.mesh_base.specs.Sides.{faces_at, has_corner};
ghost use Rattle.edit_base.specs.Classes.{is_one_of, class_of};
ghost use Rattle.edit_pinch.specs.Pinch.{share_second, fans};
ghost use Rattle.edit_pinch.specs.Parting.{share_other, cornered, face_ids};
ghost use Rattle.edit_base.specs.Clauses.{OnOkIs};

use edit_acts::corners_at;
use grid_base::{Items, NoMemory};
use mesh_base::{Corners, FaceId, Surface, VertexId};
use std::alloc::Global;

/// Faces, by rising id.
pub type Fan = Items<FaceId>;

/// Fans of faces, in order of their least faces.
pub type Fans = Items<Fan>;

/// A face with its corners.
type CorneredFace = (FaceId, Corners);

type CorneredFaces = Items<CorneredFace>;

/// Whether a vertex other than `v` is a corner.
fn has_other(c: &Corners, v: VertexId, u: VertexId) -> bool
    ensures { result ≡ (not (u == v) && has_corner c.now u) }
{
    u != v && c.has_corner(u)
}

/// Whether faces of these corners share a vertex other than `v`.
fn share_other(v: VertexId, c: &Corners, d: &Corners) -> bool
    ensures { result ≡ share_other v c.now d.now }
{
    has_other(d, v, c.first) || has_other(d, v, c.second) || has_other(d, v, c.third)
}

/// Whether a face is one of several.
fn is_one_of(faces: &[FaceId], f: FaceId) -> bool
    ensures { result ≡ is_one_of faces.now f }
{
    faces.contains(&f)
}

/// Whether an id is in one of several fans.
fn is_in_one(fans: &[Fan], f: FaceId) -> bool
    ensures { result ≡ list_any (λ fan. is_one_of fan f) fans.now }
{
    for fan in fans {
        if is_one_of(fan.as_slice(), f) {
            return true;
        }
    }
    false
}

/// The faces with their corners.
fn with_corners<S: Surface>(
    alloc: Global,
    mesh: &S,
    faces: &[FaceId],
) -> Result<CorneredFaces, NoMemory>
    ensures { OnOkIs result (map (cornered (S.mesh mesh.now)) faces.now) }
{
    let mut all = Items::from_vec(Vec::with_capacity(alloc, faces.len())?);
    for f in faces {
        all.push((*f, corners_at(mesh, *f)))?;
    }
    Ok(all)
}

/// Puts a face at the end of the one of two lists, with its corners in the second.
fn put_in_one(
    e: CorneredFace,
    in_first: bool,
    first: &mut Fan,
    second: &mut CorneredFaces,
) -> Result<(), NoMemory>
    ensures first { OnOk result
        (first.new ≡ (if in_first then first.old ++ e.0 ∷ [] else first.old)) }
    ensures second { OnOk result
        (second.new ≡ (if in_first then second.old else second.old ++ e ∷ [])) }
{
    if in_first {
        first.push(e.0)
    } else {
        second.push(e)
    }
}

/// Puts the faces of a list that share a vertex other than `v` with these corners at the end of a fan, and answers the others.
fn join_fan(
    alloc: Global,
    v: VertexId,
    c: &Corners,
    left: &[CorneredFace],
    fan: &mut Fan,
) -> Result<CorneredFaces, NoMemory>
    ensures left { OnOkIs result (filter (λ e. not (share_other v c.now e.1)) left.now) }
    ensures fan { OnOk result
        (fan.new ≡ fan.old ++ face_ids (filter (λ e. share_other v c.now e.1) left.now)) }
{
    let mut rest = Items::from_vec(Vec::with_capacity(alloc, left.len())?);
    for e in left {
        put_in_one(*e, share_other(v, c, &e.1), fan, &mut rest)?;
    }
    Ok(rest)
}

/// The face, and those of a list that a chain of shared vertices leads to from it, in the order in which they are found; and those that
/// are left, with their corners.
fn gather<S: Surface>(
    alloc: Global,
    mesh: &S,
    v: VertexId,
    f: FaceId,
    faces: &[FaceId],
) -> Result<(Fan, CorneredFaces), NoMemory>
    requires { is_one_of faces.now f ≡ true }
    ensures found { let members = class_of (share_second (S.mesh mesh.now) v) faces.now f in
        IfOk result (λ it. (g : ℕ) → is_one_of it.0 g ≡ is_one_of members g) }
    ensures all { IfOk result (λ it. it.1 ≡ [] →
        (g : ℕ) → is_one_of faces.now g ≡ true → is_one_of it.0 g ≡ true) }
{
    let mut fan = Items::new(alloc);
    fan.push(f)?;
    let mut left = other_faces(alloc, mesh, faces, f)?;
    let mut i = 0;
    while i < fan.len() {
        let g = fan.as_slice()[i];
        let c = corners_at(mesh, g);
        left = join_fan(alloc, v, &c, left.as_slice(), &mut fan)?;
        i += 1;
    }
    Ok((fan, left))
}

/// The faces of a list but one.
fn others(alloc: Global, faces: &[FaceId], f: FaceId) -> Result<Fan, NoMemory>
    ensures { OnOkIs result (filter (λ g. not (g == f)) faces.now) }
{
    let mut rest = Items::from_vec(Vec::with_capacity(alloc, faces.len())?);
    for g in faces {
        if *g != f {
            rest.push(*g)?;
        }
    }
    Ok(rest)
}

/// The faces of a list but one, with their corners: each is looked up once, however long the list is.
fn other_faces<S: Surface>(
    alloc: Global,
    mesh: &S,
    faces: &[FaceId],
    f: FaceId,
) -> Result<CorneredFaces, NoMemory>
    ensures { let others = filter (λ g. not (g == f)) faces.now in
        OnOkIs result (map (cornered (S.mesh mesh.now)) others) }
{
    let rest = others(alloc, faces, f)?;
    with_corners(alloc, mesh, rest.as_slice())
}

/// Those of a list that are among some members, in the order of the list.
fn in_order(alloc: Global, faces: &[FaceId], members: &[FaceId]) -> Result<Fan, NoMemory>
    ensures { OnOkIs result (filter (is_one_of members.now) faces.now) }
{
    let mut fan = Items::new(alloc);
    for g in faces {
        if is_one_of(members, *g) {
            fan.push(*g)?;
        }
    }
    Ok(fan)
}

/// The fan of a face among those of a list, in the order of the list.
fn fan_of<S: Surface>(
    alloc: Global,
    mesh: &S,
    v: VertexId,
    f: FaceId,
    faces: &[FaceId],
) -> Result<Fan, NoMemory>
    requires { is_one_of faces.now f ≡ true }
    ensures { OnOkIs result (class_of (share_second (S.mesh mesh.now) v) faces.now f) }
{
    let members = gather(alloc, mesh, v, f, faces)?.0;
    in_order(alloc, faces, members.as_slice())
}

/// Puts the fan of a face at the end of the fans, unless the face is in one of them.
fn put_fan<S: Surface>(
    alloc: Global,
    mesh: &S,
    v: VertexId,
    f: FaceId,
    faces: &[FaceId],
    fans: &mut Fans,
) -> Result<(), NoMemory>
    requires { is_one_of faces.now f ≡ true }
    ensures { let fan = class_of (share_second (S.mesh mesh.now) v) faces.now f in
        let is_in_one = list_any (λ fan. is_one_of fan f) fans.old in
        OnOk result (fans.new ≡ (if is_in_one then fans.old else fans.old ++ fan ∷ [])) }
{
    if !is_in_one(fans.as_slice(), f) {
        let fan = fan_of(alloc, mesh, v, f, faces)?;
        fans.push(fan)?;
    }
    Ok(())
}

/// The fans of faces at a vertex, in order of their least faces. A fan is the faces at the vertex that a chain leads to
/// from one of them, in which each face shares another vertex with the next.
pub fn fans<S: Surface>(alloc: Global, mesh: &S, v: VertexId) -> Result<Fans, NoMemory>
    ensures { OnOkIs result (fans (S.mesh mesh.now) v) }
{
    let mut fans = Items::new(alloc);
    let mut faces = Vec::new(alloc);
    mesh.faces_at(v, &mut faces)?;
    for f in &faces {
        put_fan(alloc, mesh, v, *f, faces.as_slice(), &mut fans)?;
    }
    Ok(fans)
}

/// Whether the faces at a vertex are known to be one fan: a chain leads from the first to each.
fn is_one_fan<S: Surface>(
    alloc: Global,
    mesh: &S,
    v: VertexId,
    faces: &[FaceId],
) -> Result<bool, NoMemory>
    requires { faces.now ≡ faces_at (S.mesh mesh.now) v }
    ensures { IfOk result (λ one. one ≡ true → length (fans (S.mesh mesh.now) v) ≡ 1) }
{
    match faces.first() {
        Some(f) => {
            let left = gather(alloc, mesh, v, *f, faces)?.1;
            Ok(left.len() == 0)
        }
        None => Ok(false),
    }
}

/// How many fans of faces meet at a vertex; none where it is not live. A fan is a class of the faces at the vertex under
/// "share another vertex, and so on": a face, and those that a chain leads to from it, in which each face has a second
/// vertex in common with the next. Round a vertex of a manifold there is one. Refuses only where there is no memory.
pub fn fan_count<S: Surface>(alloc: Global, mesh: &S, v: VertexId) -> Result<u32, NoMemory>
    ensures { OnOkIs result (length (fans (S.mesh mesh.now) v)) }
{
    let mut faces = Vec::new(alloc);
    mesh.faces_at(v, &mut faces)?;
    // Mostly one, which takes less time to tell than the fans to list.
    if is_one_fan(alloc, mesh, v, faces.as_slice())? {
        return Ok(1);
    }
    let fans = fans(alloc, mesh, v)?;
    Ok(fans.len() as u32)
}
