//! Midpoints of edges in buckets by the cells where they are, so that those near one are found without a look at most others.
ghost use Rattle.std.specs.Prelude.{◌≡◌, ℕ, ◌<◌, ◌≤◌, ◌+◌, ◌*◌, not, [], ◌++◌, ◌-ℤ◌, unsigned_abs, IsTrue, nat_le, length, slice_get, slice_index_or, IfOk, OnOk};
ghost use Rattle.std.specs.List.Sorted.{IsStrictlySortedBy};
ghost use Rattle.std.specs.Ordering.{nat_cmp};
ghost use Rattle.grid_base.specs.declared.TheConstants.{HALF_MAX, EXTENT_MAX};
ghost use Rattle.grid_base.specs.Triples.{IsWithin, minus};
ghost use Rattle.grid_base.specs.Points.{is_within};
ghost use Rattle.cell_grid.specs.Cells.{place_along};
ghost use Rattle.cell_grid.specs.Filed.{has};
ghost use Rattle.pass_run.specs.MidpointCells.{cell_of, bucket_of, AreCells, AreWithin, nowhere, share_an_end, is_apart, is_wanted, KeepsPlaces, HasWanted, IsInRow, IsInLayer, IsInBlock, cell_at, last_below, AreChains, HasEachNear};

use grid_base::{EXTENT_MAX, Extent, HALF_MAX, NoMemory, Wide};
use mesh_base::VertexId;
use std::alloc::Global;

/// A cell, by its place along each axis.
#[derive(Clone, Copy)]
pub(crate) struct Cell {
    x: u32,
    y: u32,
    z: u32,
}

/// Midpoints in buckets by their cells. The places of a bucket are a chain, from the last to the first.
#[derive(Drop)]
pub(crate) struct MidpointCells {
    /// How long a cell is along each axis, in half units.
    size: u32,
    /// How many buckets there are.
    buckets: u32,
    /// The last place of each bucket, plus one; 0 where it has none.
    last: Vec<usize>,
    /// Of each place the one before it in its bucket, plus one; 0 where there is none.
    before: Vec<usize>,
}

/// An edge of a list at its turn, which is asked to be zipped with the later ones that are near it.
#[derive(Clone, Copy)]
pub(crate) struct EdgeTurn<'e> {
    /// How far apart midpoints may be, in grid units.
    pub(crate) within: u32,
    pub(crate) edges: &'e [(VertexId, VertexId)],
    /// The midpoints of the edges, in half units.
    pub(crate) middles: &'e [Wide],
    /// Where the edge stands in the list.
    pub(crate) place: usize,
    pub(crate) edge: (VertexId, VertexId),
    pub(crate) middle: Wide,
}

/// The place of a coordinate among the cells along its axis, from 0.
fn place_along(a: i128, size: u32) -> u32
    requires a_fits { unsigned_abs a ≤ EXTENT_MAX }
    requires some_size { 0 < size }
    ensures value { result ≡ place_along size a }
    ensures within { result ≤ 2 * EXTENT_MAX }
{
    ((a + EXTENT_MAX as i128) as u32) / size
}

/// The cell of a position.
fn cell_of(p: Wide, size: u32) -> Cell
    requires within { IsWithin EXTENT_MAX p }
    requires some_size { 0 < size }
    ensures value { result ≡ cell_of size p }
    ensures x_fits { result.x ≤ 2 * EXTENT_MAX }
    ensures y_fits { result.y ≤ 2 * EXTENT_MAX }
    ensures z_fits { result.z ≤ 2 * EXTENT_MAX }
{
    Cell {
        x: place_along(p.x, size),
        y: place_along(p.y, size),
        z: place_along(p.z, size),
    }
}

/// The bucket of a cell, of so many.
fn bucket_of(c: Cell, buckets: u32) -> usize
    requires { 0 < buckets }
    ensures value { result ≡ bucket_of buckets c }
    ensures below { result < buckets }
{
    let places = u64::from(c.x) * 663_608_941
        + u64::from(c.y) * 561_705_629
        + u64::from(c.z) * 816_622_479;
    (places % (1 << 32) * u64::from(buckets) / (1 << 32)) as usize
}

/// What a list has at a place; 0 beyond its end.
fn link(list: &[usize], k: usize) -> usize
    ensures { result ≡ slice_index_or list.now k 0 }
{
    match list.get(k) {
        Some(place) => *place,
        None => 0,
    }
}

/// How many buckets are made for so many midpoints.
fn bucket_count(count: usize) -> u32
    ensures { 0 < result }
{
    (count.min(1 << 26) + 1) as u32
}

/// The midpoint at a place; the origin beyond the end.
pub(crate) fn middle_at(middles: &[Wide], k: usize) -> Wide
    ensures { result ≡ slice_index_or middles.now k nowhere }
{
    match middles.get(k) {
        Some(p) => *p,
        None => Wide { x: 0, y: 0, z: 0 },
    }
}

/// The bucket of the midpoint at a place.
fn bucket_at(middles: &[Wide], k: usize, size: u32, buckets: u32) -> usize
    requires within { AreWithin middles.now }
    requires some_size { 0 < size }
    requires some { 0 < buckets }
    ensures value { result ≡ bucket_of buckets (cell_at size middles.now k) }
    ensures below { result < buckets }
{
    bucket_of(cell_of(middle_at(middles, k), size), buckets)
}

/// Puts midpoints in buckets by their cells, which have this length along each axis.
pub(crate) fn cells_of(
    alloc: Global,
    middles: &[Wide],
    size: u32,
) -> Result<MidpointCells, NoMemory>
    requires within { AreWithin middles.now }
    requires some_size { 0 < size }
    ensures { IfOk result (AreCells middles.now) }
{
    let buckets = bucket_count(middles.len());
    let mut last: Vec<usize> = vec![in alloc; 0; buckets as usize]?;
    let mut before: Vec<usize> = Vec::with_capacity(alloc, middles.len())?;
    for k in 0..middles.len() {
        let bucket = bucket_at(middles, k, size, buckets);
        before.push(last[bucket])?;
        last[bucket] = k + 1;
    }
    Ok(MidpointCells {
        size,
        buckets,
        last,
        before,
    })
}

/// Whether two coordinates are no further apart than so much.
fn is_close(a: i128, b: i128, most: u64) -> bool
    requires first { unsigned_abs a ≤ HALF_MAX }
    requires second { unsigned_abs b ≤ HALF_MAX }
    ensures { result ≡ nat_le (unsigned_abs (a -ℤ b)) most }
{
    (a as i64 - b as i64).unsigned_abs() <= most
}

/// Whether two midpoints, in half units, are no further apart than a length along each axis.
pub(crate) fn is_near_along(p: Wide, q: Wide, within: u32) -> bool
    requires first { IsWithin HALF_MAX p }
    requires second { IsWithin HALF_MAX q }
    ensures { result ≡ is_within (2 * within) (minus p q) }
{
    let most = 2 * u64::from(within);
    if !is_close(p.x, q.x, most) {
        return false;
    }
    if !is_close(p.y, q.y, most) {
        return false;
    }
    is_close(p.z, q.z, most)
}

/// Whether an end of the one edge is an end of the other.
pub(crate) fn share_an_end(e: (VertexId, VertexId), f: (VertexId, VertexId)) -> bool
    ensures { result ≡ share_an_end e f }
{
    f.0 == e.0 || f.0 == e.1 || f.1 == e.0 || f.1 == e.1
}

/// Whether there is an edge at a place, and shares no end with that of the turn.
fn is_apart(turn: &EdgeTurn<'_>, k: usize) -> bool
    ensures { let t = turn.now in result ≡ is_apart t.edge (slice_get t.edges.now k) }
{
    match turn.edges.get(k) {
        Some(other) => !share_an_end(turn.edge, *other),
        None => false,
    }
}

/// Whether the edge at a place is later, its midpoint is near, and it shares no end with that of the turn.
fn is_wanted(turn: &EdgeTurn<'_>, k: usize) -> bool
    requires within { AreWithin turn.now.middles.now }
    requires own { IsWithin HALF_MAX turn.now.middle }
    ensures { result ≡ is_wanted turn.now k }
{
    turn.place < k
        && is_near_along(turn.middle, middle_at(turn.middles, k), turn.within)
        && is_apart(turn, k)
}

/// Puts the places of a bucket that are wanted at the end of a list: from its last place to the first that is later than the edge's.
fn look_in(
    cells: &MidpointCells,
    bucket: usize,
    turn: &EdgeTurn<'_>,
    found: &mut Vec<u64>,
) -> Result<(), NoMemory>
    requires cells { AreCells turn.now.middles.now cells.now }
    requires within { AreWithin turn.now.middles.now }
    requires own { IsWithin HALF_MAX turn.now.middle }
    requires bucket { bucket < cells.now.buckets }
    ensures wanted { OnOk result (HasWanted turn.now cells.now.size
        (λ c. bucket_of cells.now.buckets c ≡ bucket) found.new.items) }
    ensures keeps { OnOk result (KeepsPlaces found.old.items found.new.items) }
{
    let mut next = link(cells.last.as_slice(), bucket);
    while turn.place < next {
        let k = next - 1;
        if is_wanted(turn, k) {
            found.push(k as u64)?;
        }
        next = link(cells.before.as_slice(), k);
    }
    Ok(())
}

/// Puts the places that are wanted, of cells in a row along z, at the end of a list.
fn look_along(
    cells: &MidpointCells,
    x: u32,
    y: u32,
    low: u32,
    high: u32,
    turn: &EdgeTurn<'_>,
    found: &mut Vec<u64>,
) -> Result<(), NoMemory>
    requires cells { AreCells turn.now.middles.now cells.now }
    requires within { AreWithin turn.now.middles.now }
    requires own { IsWithin HALF_MAX turn.now.middle }
    requires end { high ≤ 2 * EXTENT_MAX }
    ensures wanted { OnOk result (HasWanted turn.now cells.now.size
        (IsInRow x y low (high + 1)) found.new.items) }
    ensures keeps { OnOk result (KeepsPlaces found.old.items found.new.items) }
{
    for z in low..high + 1 {
        let bucket = bucket_of(Cell { x, y, z }, cells.buckets);
        look_in(cells, bucket, turn, found)?;
    }
    Ok(())
}

/// Puts the places that are wanted, of cells in a layer across x, at the end of a list.
fn look_across(
    cells: &MidpointCells,
    x: u32,
    low: Cell,
    high: Cell,
    turn: &EdgeTurn<'_>,
    found: &mut Vec<u64>,
) -> Result<(), NoMemory>
    requires cells { AreCells turn.now.middles.now cells.now }
    requires within { AreWithin turn.now.middles.now }
    requires own { IsWithin HALF_MAX turn.now.middle }
    requires y_end { high.y ≤ 2 * EXTENT_MAX }
    requires z_end { high.z ≤ 2 * EXTENT_MAX }
    ensures wanted { OnOk result (HasWanted turn.now cells.now.size
        (IsInLayer x low.y (high.y + 1) low.z (high.z + 1)) found.new.items) }
    ensures keeps { OnOk result (KeepsPlaces found.old.items found.new.items) }
{
    for y in low.y..high.y + 1 {
        look_along(cells, x, y, low.z, high.z, turn, found)?;
    }
    Ok(())
}

/// Puts the places that are wanted, of cells between two, at the end of a list.
fn look_between(
    cells: &MidpointCells,
    low: Cell,
    high: Cell,
    turn: &EdgeTurn<'_>,
    found: &mut Vec<u64>,
) -> Result<(), NoMemory>
    requires cells { AreCells turn.now.middles.now cells.now }
    requires within { AreWithin turn.now.middles.now }
    requires own { IsWithin HALF_MAX turn.now.middle }
    requires x_end { high.x ≤ 2 * EXTENT_MAX }
    requires y_end { high.y ≤ 2 * EXTENT_MAX }
    requires z_end { high.z ≤ 2 * EXTENT_MAX }
    ensures wanted { OnOk result (HasWanted turn.now cells.now.size
        (IsInBlock low.x (high.x + 1) low high) found.new.items) }
    ensures keeps { OnOk result (KeepsPlaces found.old.items found.new.items) }
{
    for x in low.x..high.x + 1 {
        look_across(cells, x, low, high, turn, found)?;
    }
    Ok(())
}

/// Puts numbers in order, each of them once.
fn put_in_order(list: &mut Vec<u64>)
    ensures order { IsStrictlySortedBy nat_cmp list.new.items }
    ensures same { (k : ℕ) → has k list.new.items ≡ has k list.old.items }
{
    list.sort_unstable();
    list.dedup();
}

/// Sets a list to the places that are wanted at the turn of an edge, and maybe others, rising. Where there is no memory, nothing is
/// said of it.
pub(crate) fn places_wanted(
    cells: &MidpointCells,
    round: Extent,
    turn: &EdgeTurn<'_>,
    found: &mut Vec<u64>,
) -> Result<(), NoMemory>
    requires cells { AreCells turn.now.middles.now cells.now }
    requires within { AreWithin turn.now.middles.now }
    requires own { IsWithin HALF_MAX turn.now.middle }
    requires round { HasEachNear turn.now.middle turn.now.within round }
    ensures order { OnOk result (IsStrictlySortedBy nat_cmp found.new.items) }
    ensures wanted { OnOk result ((k : ℕ) → k < length turn.now.middles.now →
        IsTrue (is_wanted turn.now k) → IsTrue (has k found.new.items)) }
{
    found.clear();
    let low = cell_of(round.low, cells.size);
    let high = cell_of(round.high, cells.size);
    look_between(cells, low, high, turn, found)?;
    put_in_order(found);
    Ok(())
}
