//! The faces near a box.
ghost use Rattle.std.specs.Prelude.{◌≡◌, [], ◌∷◌, ◌++◌, OnOk, OnErr, slice_get};
ghost use Rattle.std.specs.FinMap as map;
ghost use Rattle.std.specs.Option.{option_map};
ghost use Rattle.std.specs.List.{filter};
ghost use Rattle.grid_base.specs.Triples.{IsWithin};
ghost use Rattle.grid_base.specs.declared.TheConstants.{HALF_MAX};
ghost use Rattle.mesh_base.specs.Near.{one_at_most, one_at_least, reach_along, box_meets, is_near, is_face_near, faces_near};
ghost use Rattle.mesh_base.specs.Changes.{corner_list};
ghost use Rattle.mesh_base.specs.Mesh.{Mesh, IsSound};
ghost use Rattle.mesh_base.specs.Placements.{rest_positions_doubled};
ghost use Rattle.mesh_base.specs.Sides.{above};

use crate::ids::{Corners, FaceId, VertexId};
use grid_base::{Extent, HALF_MAX, NoMemory, Point, Wide};

/// Whether one of three coordinates is at or below the end.
fn one_at_most(high: i128, a: i128, b: i128, c: i128) -> bool
    ensures { result ≡ one_at_most high a b c }
{
    a <= high || b <= high || c <= high
}

/// Whether one of three coordinates is at or above the end.
fn one_at_least(low: i128, a: i128, b: i128, c: i128) -> bool
    ensures { result ≡ one_at_least low a b c }
{
    low <= a || low <= b || low <= c
}

/// Whether along an axis one of three coordinates is at or below the high end, and one at or above the low end.
fn reach_along(low: i128, high: i128, a: i128, b: i128, c: i128) -> bool
    ensures { result ≡ reach_along low high a b c }
{
    one_at_most(high, a, b, c) && one_at_least(low, a, b, c)
}

/// Whether the box of three positions has a common point with the extent.
fn box_meets(at: &Extent, p: Wide, q: Wide, r: Wide) -> bool
    requires p_fits { IsWithin HALF_MAX p }
    requires q_fits { IsWithin HALF_MAX q }
    requires r_fits { IsWithin HALF_MAX r }
    ensures { result ≡ box_meets at.now p q r }
{
    if !reach_along(at.low.x, at.high.x, p.x, q.x, r.x) {
        return false;
    }
    if !reach_along(at.low.y, at.high.y, p.y, q.y, r.y) {
        return false;
    }
    reach_along(at.low.z, at.high.z, p.z, q.z, r.z)
}

/// The faces of a mesh as its tables have them.
pub trait FaceTable {
    /// The mesh.
    ghost mesh: { Self → Mesh };

    /// The least live face above the number.
    fn face_above(&self, f: u32) -> Option<FaceId>
        ensures { result ≡ slice_get (above f (map.keys (mesh self.now).faces)) 0 };

    /// The corners of a face, if it is live.
    fn corners_of(&self, f: FaceId) -> Option<[VertexId; 3]>
        ensures { result ≡ option_map corner_list (map.get (mesh self.now).faces f) };

    /// Where a vertex stands, if it is live.
    fn point_of(&self, v: VertexId) -> Option<Point>
        ensures { result ≡ map.get (mesh self.now).points v };
}

/// Where a vertex stands, in half units; the origin, where it is not live.
fn resting<T: FaceTable>(table: &T, v: VertexId) -> Wide
    ensures value { result ≡ rest_positions_doubled (T.mesh table.now) v }
    ensures within { IsWithin HALF_MAX result }
{
    match table.point_of(v) {
        Some(p) => p.doubled(),
        None => Point { x: 0, y: 0, z: 0 }.doubled(),
    }
}

/// Whether the box of the corners, in half units, has a common point with the extent.
fn are_near<T: FaceTable>(table: &T, at: &Extent, c: Corners) -> bool
    ensures { result ≡ is_near (T.mesh table.now) at.now c }
{
    box_meets(
        at,
        resting(table, c.first),
        resting(table, c.second),
        resting(table, c.third),
    )
}

/// Whether a face is live, and its box, in half units, has a common point with the extent.
pub fn is_face_near<T: FaceTable>(table: &T, at: &Extent, f: FaceId) -> bool
    ensures { result ≡ is_face_near (T.mesh table.now) at.now f }
{
    match table.corners_of(f) {
        Some(c) => are_near(table, at, Corners::of(c)),
        None => false,
    }
}

/// Puts the face at the end, if it is near the extent.
fn put_if_near<T: FaceTable>(
    table: &T,
    at: &Extent,
    f: FaceId,
    into: &mut Vec<FaceId>,
) -> Result<(), NoMemory>
    ensures { let near = filter (λ f. is_face_near (T.mesh table.now) at.now f) (f ∷ []) in
        OnOk result (into.new.items ≡ into.old.items ++ near) }
{
    if is_face_near(table, at, f) {
        into.push(f)?;
    }
    Ok(())
}

/// Puts the faces near the extent at the end, by rising id: each live face is looked at.
fn put_near<T: FaceTable>(table: &T, at: &Extent, into: &mut Vec<FaceId>) -> Result<(), NoMemory>
    requires sound { IsSound (T.mesh table.now) }
    requires empty { into.old.items ≡ [] }
    ensures { OnOk result (into.new.items ≡ faces_near (T.mesh table.now) at.now) }
{
    let mut last = 0;
    while let Some(f) = table.face_above(last) {
        put_if_near(table, at, f, into)?;
        last = f.0;
    }
    Ok(())
}

/// Sets `into` to the faces whose boxes, in half units, have a common point with the extent, by rising id, and looks at
/// each live face for it. Where memory is wanting, `into` is empty.
pub fn faces_near_of_all<T: FaceTable>(
    table: &T,
    at: &Extent,
    into: &mut Vec<FaceId>,
) -> Result<(), NoMemory>
    requires { IsSound (T.mesh table.now) }
    ensures ok { OnOk result (into.new.items ≡ faces_near (T.mesh table.now) at.now) }
    ensures err { OnErr result (into.new.items ≡ []) }
{
    into.clear();
    if let Err(e) = put_near(table, at, into) {
        into.clear();
        return Err(e);
    }
    Ok(())
}
