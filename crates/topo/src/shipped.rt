//! The stored fields of the program: about the z axis, away from the origin, and towards it, each by a 64th of a coordinate.
ghost use Rattle.std.specs.Prelude.{◌≡◌, ◌≤◌, IfSome, IsSome, neg_ℤ, unsigned_abs};
ghost use Rattle.grid_base.specs.declared.TheConstants.{BOX};
ghost use Rattle.grid_base.specs.Components.{FitWithin};
ghost use Rattle.grid_base.specs.Points.{displacement_of};
ghost use Rattle.topo.specs.Shipped.{shipped, part, swirled, swelled, shrunk, shipped_at};

use arrayvec::ArrayVec;
use grid_base::{Point, Shift};
use mesh_field::FIELDS_MAX;
use mesh_plain::FieldName;

/// The greatest size of a component that a field answers, in units of the grid: a 64th of the box.
pub(crate) const REACH: u32 = 4_194_304;

/// The names of the fields, in the order of their numbers: `swirl`, `swell` and `shrink`. They are always there.
pub(crate) fn shipped_names() -> Option<ArrayVec<FieldName, FIELDS_MAX>>
    ensures some { IsSome result }
    ensures names { IfSome result (λ names. names.items ≡ shipped) }
{
    let mut names = ArrayVec::new();
    names.push(FieldName::new(b"swirl")?);
    names.push(FieldName::new(b"swell")?);
    names.push(FieldName::new(b"shrink")?);
    Some(names)
}

// A 64th of a coordinate, toward zero.
fn part(c: i32) -> i32
    requires { unsigned_abs c ≤ BOX }
    ensures value { result ≡ part c }
    ensures within { unsigned_abs result ≤ 4194304 }
{
    c / 64
}

// The same, to the other side.
fn part_back(c: i32) -> i32
    requires { unsigned_abs c ≤ BOX }
    ensures value { result ≡ neg_ℤ (part c) }
    ensures within { unsigned_abs result ≤ 4194304 }
{
    -part(c)
}

// About the z axis.
fn swirled(at: Point) -> Shift
    ensures value { displacement_of result ≡ swirled at }
    ensures within { FitWithin 4194304 result.x result.y result.z }
{
    Shift {
        x: part_back(at.y),
        y: part(at.x),
        z: 0,
    }
}

// Away from the origin.
fn swelled(at: Point) -> Shift
    ensures value { displacement_of result ≡ swelled at }
    ensures within { FitWithin 4194304 result.x result.y result.z }
{
    Shift {
        x: part(at.x),
        y: part(at.y),
        z: part(at.z),
    }
}

// Towards the origin.
fn shrunk(at: Point) -> Shift
    ensures value { displacement_of result ≡ shrunk at }
    ensures within { FitWithin 4194304 result.x result.y result.z }
{
    Shift {
        x: part_back(at.x),
        y: part_back(at.y),
        z: part_back(at.z),
    }
}

/// What the field of a number gives at a point, each component a 64th of a coordinate, toward zero: `swirl` is (-y, x, 0), `swell` is
/// (x, y, z), and `shrink` is (-x, -y, -z).
pub(crate) fn shipped_shift(which: u8, at: Point) -> Shift
    ensures value { displacement_of result ≡ shipped_at which at }
    ensures within { FitWithin 4194304 result.x result.y result.z }
{
    match which {
        0 => swirled(at),
        1 => swelled(at),
        _ => shrunk(at),
    }
}
