//! Where the copies for fans go.
ghost use Rattle.std.specs.Prelude.{◌≡◌, ◌≤◌, ◌+◌, ◌*◌, ◌^◌, ◌+ℤ◌, ◌-ℤ◌, int_div, unsigned_abs, pos, length, OnOk};
ghost use Rattle.std.specs.List.{AllByRecursion};
ghost use Rattle.grid_base.specs.declared.TheConstants.{BOX, ID_MAX};
ghost use Rattle.grid_base.specs.Points.{position_of};
ghost use Rattle.grid_base.specs.Triples.{IsWithin, plus, minus};
ghost use Rattle.edit_pinch.specs.Pinch.{fan_point, divided, copies_for};
ghost use Rattle.edit_pinch.specs.Rims.{with_other, with_corners, found_rim, ways, AreLiveFaces};
ghost use Rattle.edit_base.specs.Clauses.{OnOkIs};

use crate::vertex_fans::Fan;
use edit_acts::corners_at;
use edit_base::{Copies, CopyAt};
use grid_base::{BOX, ID_MAX, Items, NoMemory, Point, Wide};
use mesh_base::{FaceId, Surface, VertexId, point_of};
use std::alloc::Global;

/// Puts a vertex at the end of a list, unless it is `v` or is there.
fn put_other(found: &mut Items<VertexId>, v: VertexId, u: VertexId) -> Result<(), NoMemory>
    ensures { OnOk result (found.new ≡ with_other v found.old u) }
{
    if u == v || found.as_slice().contains(&u) {
        Ok(())
    } else {
        found.push(u)
    }
}

/// Puts the corners of a face at the end of a list, but `v` and those that are there.
fn put_corners<S: Surface>(
    mesh: &S,
    found: &mut Items<VertexId>,
    v: VertexId,
    f: FaceId,
) -> Result<(), NoMemory>
    ensures { OnOk result (found.new ≡ with_corners (S.mesh mesh.now) v found.old f) }
{
    let c = corners_at(mesh, f);
    put_other(found, v, c.first)?;
    put_other(found, v, c.second)?;
    put_other(found, v, c.third)
}

/// The vertices of a fan other than `v`, each once.
fn rim<S: Surface>(
    alloc: Global,
    mesh: &S,
    v: VertexId,
    fan: &[FaceId],
) -> Result<Items<VertexId>, NoMemory>
    ensures { OnOkIs result (found_rim (S.mesh mesh.now) v fan.now) }
{
    let mut found = Items::new(alloc);
    for f in fan {
        put_corners(mesh, &mut found, v, *f)?;
    }
    Ok(found)
}

/// A sum with a difference added.
fn sum_with(sum: i128, from: i32, to: i32) -> i128
    requires sum { unsigned_abs sum ≤ 2 ^ 100 }
    requires from { unsigned_abs from ≤ BOX }
    requires to { unsigned_abs to ≤ BOX }
    ensures value { result ≡ sum +ℤ (to -ℤ from) }
    ensures within { unsigned_abs result ≤ unsigned_abs sum + 2 * BOX }
{
    sum + i128::from(to - from)
}

/// A sum of ways with that from one point to another added.
fn with_way(sum: Wide, from: Point, to: Point) -> Wide
    requires { IsWithin (2 ^ 100) sum }
    ensures value { result ≡ plus sum (minus (position_of to) (position_of from)) }
    ensures x_within { unsigned_abs result.x ≤ unsigned_abs sum.x + 2 * BOX }
    ensures y_within { unsigned_abs result.y ≤ unsigned_abs sum.y + 2 * BOX }
    ensures z_within { unsigned_abs result.z ≤ unsigned_abs sum.z + 2 * BOX }
{
    Wide {
        x: sum_with(sum.x, from.x, to.x),
        y: sum_with(sum.y, from.y, to.y),
        z: sum_with(sum.z, from.z, to.z),
    }
}

/// The ways from a vertex to several others, added.
fn ways<S: Surface>(mesh: &S, v: VertexId, us: &[VertexId]) -> Wide
    ensures value { result ≡ ways (S.mesh mesh.now) v us.now }
    ensures within { IsWithin (2 ^ 100) result }
{
    let here = point_of(mesh, v);
    let mut sum = Wide { x: 0, y: 0, z: 0 };
    for u in us {
        sum = with_way(sum, here, point_of(mesh, *u));
    }
    sum
}

/// An eighth of the mean of so many, of which the sum is given, toward zero; 0 where there are none.
fn eighth(sum: i128, count: usize) -> i128
    ensures { result ≡ int_div sum (pos (8 * count)) }
{
    if count == 0 {
        0
    } else {
        sum / (8 * count as i128)
    }
}

/// A coordinate moved by an eighth of a mean, which leaves it in the box.
fn coordinate(here: i32, sum: i128, count: usize) -> i32
    requires { unsigned_abs (here +ℤ int_div sum (pos (8 * count))) ≤ BOX }
    ensures { result ≡ here +ℤ int_div sum (pos (8 * count)) }
{
    (i128::from(here) + eighth(sum, count)) as i32
}

/// A point moved by an eighth of the mean of so many ways, of which the sum is given, each component rounded toward zero.
fn moved_by(here: Point, sum: Wide, count: usize) -> Point
    requires stays { IsWithin BOX (plus (position_of here) (divided sum (8 * count))) }
    requires sum { IsWithin (2 ^ 100) sum }
    ensures { position_of result ≡ plus (position_of here) (divided sum (8 * count)) }
{
    Point {
        x: coordinate(here.x, sum.x, count),
        y: coordinate(here.y, sum.y, count),
        z: coordinate(here.z, sum.z, count),
    }
}

/// Where the copy for a fan goes: an eighth of the way to the mean of the fan's other vertices, each component rounded
/// toward zero.
pub fn fan_point<S: Surface>(
    alloc: Global,
    mesh: &S,
    v: VertexId,
    fan: &[FaceId],
) -> Result<Point, NoMemory>
    requires { AreLiveFaces (S.mesh mesh.now) fan.now }
    ensures { OnOkIs result (fan_point (S.mesh mesh.now) v fan.now) }
{
    let us = rim(alloc, mesh, v, fan)?;
    let sum = ways(mesh, v, us.as_slice());
    Ok(moved_by(point_of(mesh, v), sum, us.len()))
}

/// The copies for fans, with the next vertex ids, and where they go.
pub fn copies_for<S: Surface>(
    alloc: Global,
    mesh: &S,
    v: VertexId,
    fans: &[Fan],
) -> Result<Copies, NoMemory>
    requires live { AllByRecursion (AreLiveFaces (S.mesh mesh.now)) fans.now }
    requires ids { (S.mesh mesh.now).next_vertex + length fans.now ≤ ID_MAX + 1 }
    ensures { OnOkIs result (copies_for (S.mesh mesh.now) v fans.now) }
{
    let mut made = Items::new(alloc);
    let mut w = mesh.next_vertex();
    for fan in fans {
        let at = fan_point(alloc, mesh, v, fan.as_slice())?;
        made.push(CopyAt { w: VertexId(w), at })?;
        w += 1;
    }
    Ok(made)
}
