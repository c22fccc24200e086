//! The pairs of edges that are near one another, found by the cells of their midpoints.
ghost use Rattle.std.specs.Prelude.{◌≡◌, ◌+◌, ◌++◌, ◌*◌, ◌<◌, ◌≤◌, ◌≤ℤ◌, ◌-ℤ◌, ℕ, ℤ, min, drop, nat_le, unsigned_abs, Some, IfOk, OnOk};
ghost use Rattle.grid_base.specs.Points.{is_within};
ghost use Rattle.grid_base.specs.Triples.{Triple, IsWithin, minus};
ghost use Rattle.grid_base.specs.declared.TheConstants.{HALF_MAX, EXTENT_MAX};
ghost use Rattle.grid_base.specs.Ordered.{IsUnder};
ghost use Rattle.edit_base.specs.Edges.{exact_mid};
ghost use Rattle.pass_run.specs.MidpointCells.{AreCells, AreWithin, HasEachNear};
ghost use Rattle.pass_run.specs.Near.{near_zip, later_zip, later_zips, near_zips, AreMidpoints};

use crate::midpoint_cells::{
    EdgeTurn, MidpointCells, cells_of, is_near_along, places_wanted, share_an_end,
};
use edit_acts::exact_mid;
use edit_base::Asked;
use grid_base::{EXTENT_MAX, Extent, HALF_MAX, Items, NoMemory, Wide};
use mesh_base::{Surface, VertexId};
use std::alloc::Global;

/// Edges that are asked to be zipped, in order.
pub(crate) type Zips = Items<Asked>;

/// The zip of two edges, where they are near and share no end.
fn near_zip<S: Surface>(
    mesh: &S,
    within: u32,
    e: (VertexId, VertexId),
    f: (VertexId, VertexId),
) -> Option<Asked>
    ensures { result ≡ near_zip (S.mesh mesh.now) within e (Some f) }
{
    let (a, b) = e;
    let (c, d) = f;
    if share_an_end((a, b), (c, d)) {
        return None;
    }
    if is_near_along(exact_mid(mesh, a, b), exact_mid(mesh, c, d), within) {
        Some(Asked::Zip { a, b, e: c, f: d })
    } else {
        None
    }
}

/// The zip of an edge with the one at a place, where that is later and near.
fn later_zip<S: Surface>(mesh: &S, turn: &EdgeTurn<'_>, k: u64) -> Option<Asked>
    ensures { let t = turn.now in
        result ≡ later_zip (S.mesh mesh.now) t.within t.edges.now t.place t.edge k }
{
    if k <= turn.place as u64 {
        return None;
    }
    match turn.edges.get(k as usize) {
        Some(other) => near_zip(mesh, turn.within, turn.edge, *other),
        None => None,
    }
}

/// Puts the zips of an edge with those of the edges at these places that are later and near at the end.
fn put_later<S: Surface>(
    mesh: &S,
    turn: &EdgeTurn<'_>,
    places: &[u64],
    asked: &mut Zips,
) -> Result<(), NoMemory>
    ensures { let t = turn.now in
        let zips = later_zips (S.mesh mesh.now) t.within t.edges.now t.place t.edge places.now in
        OnOk result (asked.new ≡ asked.old ++ zips) }
{
    for k in places {
        if let Some(zip) = later_zip(mesh, turn, *k) {
            asked.push(zip)?;
        }
    }
    Ok(())
}

/// Twice a length, or the greatest coordinate of a box where that is less.
fn reach_of(within: u32) -> u32
    ensures { result ≡ min (2 * within) EXTENT_MAX }
{
    (2 * u64::from(within)).min(u64::from(EXTENT_MAX)) as u32
}

/// The least coordinate that is no further off, of those that a box may have.
fn below(a: i128, reach: u32) -> i128
    requires within { unsigned_abs a ≤ HALF_MAX }
    requires short { reach ≤ EXTENT_MAX }
    ensures ends { (b : ℤ) → unsigned_abs b ≤ HALF_MAX → unsigned_abs (a -ℤ b) ≤ reach →
        result ≤ℤ b }
    ensures size { unsigned_abs result ≤ EXTENT_MAX }
    ensures order { result ≤ℤ a }
{
    let end = a - i128::from(reach);
    let least = -i128::from(EXTENT_MAX);
    if end < least { least } else { end }
}

/// The greatest coordinate that is no further off, of those that a box may have.
fn above(a: i128, reach: u32) -> i128
    requires within { unsigned_abs a ≤ HALF_MAX }
    requires short { reach ≤ EXTENT_MAX }
    ensures ends { (b : ℤ) → unsigned_abs b ≤ HALF_MAX → unsigned_abs (a -ℤ b) ≤ reach →
        b ≤ℤ result }
    ensures size { unsigned_abs result ≤ EXTENT_MAX }
    ensures order { a ≤ℤ result }
{
    let end = a + i128::from(reach);
    let most = i128::from(EXTENT_MAX);
    if end < most { end } else { most }
}

/// The least corner of a box round a midpoint.
fn corner_below(p: Wide, reach: u32) -> Wide
    requires within { IsWithin HALF_MAX p }
    requires short { reach ≤ EXTENT_MAX }
    ensures ends { (q : Triple) → IsWithin HALF_MAX q → IsWithin reach (minus p q) →
        IsUnder result q }
    ensures size { IsWithin EXTENT_MAX result }
    ensures order { IsUnder result p }
{
    Wide {
        x: below(p.x, reach),
        y: below(p.y, reach),
        z: below(p.z, reach),
    }
}

/// The greatest corner of a box round a midpoint.
fn corner_above(p: Wide, reach: u32) -> Wide
    requires within { IsWithin HALF_MAX p }
    requires short { reach ≤ EXTENT_MAX }
    ensures ends { (q : Triple) → IsWithin HALF_MAX q → IsWithin reach (minus p q) →
        IsUnder q result }
    ensures size { IsWithin EXTENT_MAX result }
    ensures order { IsUnder p result }
{
    Wide {
        x: above(p.x, reach),
        y: above(p.y, reach),
        z: above(p.z, reach),
    }
}

/// A box that has each midpoint that is near this one.
fn box_round(p: Wide, within: u32) -> Extent
    requires { IsWithin HALF_MAX p }
    ensures { HasEachNear p within result }
{
    let reach = reach_of(within);
    let low = corner_below(p, reach);
    let high = corner_above(p, reach);
    Extent { low, high }
}

/// How long the cells of midpoints are: four times as long as midpoints may be apart, so that those near one are in eight cells at
/// most, and mostly in three or four.
fn cell_for(within: u32) -> u32
    ensures { 0 < result }
{
    reach_of(within).saturating_mul(4).max(1)
}

/// The midpoints of edges, in half units.
pub(crate) fn middles_of<S: Surface>(
    alloc: Global,
    mesh: &S,
    edges: &[(VertexId, VertexId)],
) -> Result<Vec<Wide>, NoMemory>
    ensures { IfOk result (λ middles. AreMidpoints (S.mesh mesh.now) edges.now middles.items) }
{
    let middles = edges
        .iter()
        .map(|e| exact_mid(mesh, e.0, e.1))
        .collect(alloc)?;
    Ok(middles)
}

/// Midpoints by their cells.
pub(crate) fn cells_for(
    alloc: Global,
    middles: &[Wide],
    within: u32,
) -> Result<MidpointCells, NoMemory>
    requires { AreWithin middles.now }
    ensures { IfOk result (AreCells middles.now) }
{
    cells_of(alloc, middles, cell_for(within))
}

/// The zips of an edge with the later edges that are near it and share no end, in order. The list of places is one to write in.
pub(crate) fn near_pairs<S: Surface>(
    alloc: Global,
    mesh: &S,
    turn: &EdgeTurn<'_>,
    cells: &MidpointCells,
    places: &mut Vec<u64>,
) -> Result<Zips, NoMemory>
    requires midpoints { AreMidpoints (S.mesh mesh.now) turn.now.edges.now turn.now.middles.now }
    requires own { let e = turn.now.edge in
        turn.now.middle ≡ exact_mid (S.mesh mesh.now) e.0 e.1 }
    requires cells { AreCells turn.now.middles.now cells.now }
    requires within { AreWithin turn.now.middles.now }
    ensures { let t = turn.now in
        let zips = near_zips (S.mesh mesh.now) t.within t.edge (drop (t.place + 1) t.edges.now) in
        IfOk result (λ asked. asked ≡ zips) }
{
    places_wanted(cells, box_round(turn.middle, turn.within), turn, places)?;
    let mut asked = Zips::new(alloc);
    put_later(mesh, turn, places.as_slice(), &mut asked)?;
    Ok(asked)
}
