//! Lists of faces with their corners: which are equal or opposite, and the third act of a collapse.
ghost use Rattle.std.specs.Prelude.{◌≡◌, map, IfOk, length};
ghost use Rattle.std.specs.List.{list_any};
ghost use Rattle.std.specs.List.Sorted.{IsBinarySearchResult};
ghost use Rattle.std.specs.Ordering.{nat_cmp};
ghost use Rattle.mesh_base.specs.Mesh.{equal_up_to_rotation};
ghost use Rattle.edit_base.specs.Edges.{renamed, has_equal};
ghost use Rattle.edit_collapse.specs.Collapse.{are_opposite};
ghost use Rattle.edit_collapse.specs.Tried.{opposite_in, two_in, without_two, cancelled_in, has_id_in, AreRising};

use crate::alike::may_be_alike;
use edit_acts::are_equal;
use grid_base::{Items, NoMemory};
use mesh_base::{Corners, FaceId, VertexId};
use std::alloc::Global;

/// Faces with their corners, by rising id.
pub(crate) type LeftFaces = Items<(FaceId, Corners)>;

/// Whether the one is the other in reverse cyclic order.
fn are_opposite(c: &Corners, d: &Corners) -> bool
    ensures { result ≡ are_opposite c.now d.now }
{
    let back = Corners {
        first: c.third,
        second: c.second,
        third: c.first,
    };
    are_equal(back, *d)
}

/// Whether some face of the list is equal to the one up to rotation.
fn has_equal_to(faces: &[(FaceId, Corners)], one: &(FaceId, Corners)) -> bool
    ensures { result ≡ list_any (λ e. equal_up_to_rotation one.now.1 e.1) faces.now }
{
    for e in faces {
        if are_equal(one.1, e.1) {
            return true;
        }
    }
    false
}

/// Whether two faces of the list are equal up to rotation, each compared with those behind it.
fn compares_equal(faces: &[(FaceId, Corners)]) -> bool
    ensures { result ≡ has_equal (map (λ e. e.1) faces.now) }
{
    for i in 0..faces.len() {
        if has_equal_to(&faces[i + 1..], &faces[i]) {
            return true;
        }
    }
    false
}

/// Whether two faces of the list are equal up to rotation. They are compared only where they may be.
pub(crate) fn repeats(alloc: Global, faces: &[(FaceId, Corners)]) -> Result<bool, NoMemory>
    ensures { IfOk result (λ found. found ≡ has_equal (map (λ e. e.1) faces.now)) }
{
    let may = may_be_alike(alloc, faces)?;
    if may {
        return Ok(compares_equal(faces));
    }
    Ok(false)
}

/// The first face of the list that is opposite to the corners.
fn opposite_in(faces: &[(FaceId, Corners)], c: Corners) -> Option<FaceId>
    ensures { result ≡ opposite_in faces.now c }
{
    for i in 0..faces.len() {
        let d = faces[i].1;
        if are_opposite(&c, &d) {
            return Some(faces[i].0);
        }
    }
    None
}

/// The first face of the list that has an opposite there, with its first opposite.
fn two_in(faces: &[(FaceId, Corners)]) -> Option<(FaceId, FaceId)>
    ensures { result ≡ two_in faces.now }
{
    for e in faces {
        if let Some(g) = opposite_in(faces, e.1) {
            return Some((e.0, g));
        }
    }
    None
}

/// The same. They are compared only where two of them may be opposite.
fn next_two(
    alloc: Global,
    faces: &[(FaceId, Corners)],
) -> Result<Option<(FaceId, FaceId)>, NoMemory>
    ensures { IfOk result (λ two. two ≡ two_in faces.now) }
{
    let may = may_be_alike(alloc, faces)?;
    if may {
        return Ok(two_in(faces));
    }
    Ok(None)
}

/// The faces of the list but two.
fn without_two(
    alloc: Global,
    faces: &[(FaceId, Corners)],
    f: FaceId,
    g: FaceId,
) -> Result<LeftFaces, NoMemory>
    ensures { IfOk result (λ left. left ≡ without_two f g faces.now) }
{
    let mut left = Items::new(alloc);
    for e in faces {
        if e.0 != f && e.0 != g {
            left.push(*e)?;
        }
    }
    Ok(left)
}

/// The third act on the faces at the joined vertex: the first that has an opposite goes with its first opposite, until
/// none has.
pub(crate) fn cancel_opposites(alloc: Global, faces: LeftFaces) -> Result<LeftFaces, NoMemory>
    ensures { IfOk result (λ left. left ≡ cancelled_in (length faces) faces) }
{
    let mut rest = faces.len();
    let mut left = faces;
    while rest > 0 {
        rest -= 1;
        let two = next_two(alloc, left.as_slice())?;
        match two {
            Some((f, g)) => left = without_two(alloc, left.as_slice(), f, g)?,
            None => return Ok(left),
        }
    }
    Ok(left)
}

/// The place of a face in the list, by its id, or where it would stand.
fn search_id(faces: &[(FaceId, Corners)], f: FaceId) -> Result<usize, usize>
    ensures { IsBinarySearchResult (λ e. nat_cmp e.0 f) faces.now result }
{
    faces.binary_search_by_key(&f.0, |e| (e.0).0)
}

/// Whether the list, by rising id, has the face. It is searched, so that the faces at a vertex of high degree take no time in
/// proportion to their square.
pub(crate) fn has_id(faces: &[(FaceId, Corners)], f: FaceId) -> bool
    requires { AreRising faces.now }
    ensures { result ≡ has_id_in faces.now f }
{
    match search_id(faces, f) {
        Ok(place) => match faces.get(place) {
            Some(_e) => true,
            None => false,
        },
        Err(_) => false,
    }
}
