//! What is asked of the vertices of a block, all together.
ghost use Rattle.std.specs.Prelude.{◌≡◌, ◌<◌, ◌≤◌, ◌+◌, ◌*◌, ◌+ℤ◌, map, length, pos, unsigned_abs, int_div, IfOk, cond};
ghost use Rattle.std.specs.List.Sorted.{IsStrictlySortedBy};
ghost use Rattle.std.specs.Ordering.{nat_cmp};
ghost use Rattle.grid_base.specs.declared.TheConstants.{SHIFT_MAX, VERTICES_MAX};
ghost use Rattle.grid_base.specs.Triples.{IsWithin, plus};
ghost use Rattle.grid_base.specs.Points.{displacement_of};
ghost use Rattle.mesh_base.specs.Placements.{origin};
ghost use Rattle.step_zones.specs.Zones.{divided};
ghost use Rattle.step_zones.specs.Ranks.{label_by};
ghost use Rattle.step_zones.specs.Totals.{no_total, with_one, total_of, total_by};

use grid_base::{NO_SHIFT, NoMemory, Shift, Wide};
use mesh_base::{ShiftOf, Surface, VertexId};
use pair_scan::place_of;
use std::alloc::Global;

/// How many vertices there are, the sum of what is asked of them, and whether one is solid.
#[derive(Clone, Copy)]
pub(crate) struct Total {
    pub(crate) count: u32,
    pub(crate) sum: Wide,
    pub(crate) solid: bool,
}

const NO_TOTAL: Total = Total {
    count: 0,
    sum: Wide { x: 0, y: 0, z: 0 },
    solid: false,
};

// The sum of so many components and one more.
fn component_sum(a: i128, b: i32) -> i128
    requires a_fits { unsigned_abs a ≤ VERTICES_MAX * SHIFT_MAX }
    requires b_fits { unsigned_abs b ≤ SHIFT_MAX }
    ensures { result ≡ a +ℤ b }
{
    a + i128::from(b)
}

// The sum of so many shifts and one more.
fn sum(a: Wide, by: Shift) -> Wide
    requires { IsWithin (VERTICES_MAX * SHIFT_MAX) a }
    ensures { result ≡ plus a (displacement_of by) }
{
    Wide {
        x: component_sum(a.x, by.x),
        y: component_sum(a.y, by.y),
        z: component_sum(a.z, by.z),
    }
}

// The total with one vertex more.
fn with_one(t: Total, by: Shift, solid: bool) -> Total
    requires few { t.count < VERTICES_MAX }
    requires small { IsWithin (VERTICES_MAX * SHIFT_MAX) t.sum }
    ensures { result ≡ with_one t by solid }
{
    Total {
        count: t.count + 1,
        sum: sum(t.sum, by),
        solid: t.solid || solid,
    }
}

// Nothing yet, for each vertex.
fn none_yet(alloc: Global, asked: &[ShiftOf]) -> Result<Vec<Total>, NoMemory>
    ensures { IfOk result (λ totals. totals.items ≡ map (λ s. no_total) asked.now) }
{
    Ok(asked.iter().map(|_s| NO_TOTAL).collect(alloc)?)
}

/// For each vertex the total of those that have it as label.
pub(crate) fn totals_of<S: Surface>(
    alloc: Global,
    mesh: &S,
    asked: &[ShiftOf],
    labels: &[VertexId],
) -> Result<Vec<Total>, NoMemory>
    requires rising { IsStrictlySortedBy nat_cmp (map (λ s. s.v) asked.now) }
    requires each { length labels.now ≡ length asked.now }
    requires few { length asked.now ≤ VERTICES_MAX }
    ensures { IfOk result
        (λ totals. totals.items ≡ map
        (λ s. total_of (S.mesh mesh.now)
        (label_by asked.now labels.now) s.v asked.now) asked.now) }
{
    let mut totals = none_yet(alloc, asked)?;
    for (i, s) in asked.iter().enumerate() {
        if let Some(place) = place_of(asked, labels[i]) {
            totals[place] = with_one(totals[place], s.by, mesh.solid(s.v));
        }
    }
    Ok(totals)
}

// A component of the mean, rounded toward zero.
fn quotient(sum: i128, count: u32) -> i32
    requires some { 0 < count }
    requires fits { unsigned_abs sum ≤ count * SHIFT_MAX }
    ensures value { result ≡ int_div sum (pos count) }
    ensures within { unsigned_abs result ≤ SHIFT_MAX }
{
    (sum / i128::from(count)) as i32
}

// The mean of shifts, each component rounded toward zero.
fn mean(sum: Wide, count: u32) -> Shift
    requires some { 0 < count }
    requires fits { IsWithin (count * SHIFT_MAX) sum }
    ensures { displacement_of result ≡ divided sum count }
{
    Shift {
        x: quotient(sum.x, count),
        y: quotient(sum.y, count),
        z: quotient(sum.z, count),
    }
}

/// What a vertex moves by, where its block has this total and this is asked of it: the mean of a block of two or more, and
/// nothing where it has a solid vertex.
pub(crate) fn shift_by(t: Total, by: Shift) -> Shift
    requires { IsWithin (t.count * SHIFT_MAX) t.sum }
    ensures { result ≡ total_by t by }
{
    if t.count < 2 {
        by
    } else if t.solid {
        NO_SHIFT
    } else {
        mean(t.sum, t.count)
    }
}
