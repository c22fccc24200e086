ghost use Rattle.std.specs.Prelude.{◌≡◌, ◌<◌, ◌≤◌, ◌+◌, ◌↔◌, ◌*◌, IsTrue, IfSome, unsigned_abs};
ghost use Rattle.cell_grid.specs.Cells.{place_along, cell_of, nth_cell, Touches, Covers};

use super::{Cell, Span};
use crate::{CELLS_MAX, Extent};
use grid_base::EXTENT_MAX;

// The place of a coordinate among the cells along its axis, from 0.
fn place_along(a: i128, cell: u32) -> u32
    requires a_fits { unsigned_abs a ≤ EXTENT_MAX }
    requires some_size { 0 < cell }
    ensures value { result ≡ place_along cell a }
    ensures within { result ≤ 2 * EXTENT_MAX }
{
    ((a + EXTENT_MAX as i128) as u32) / cell
}

// The cell of an extent's lower corner.
fn lowest(at: &Extent, cell: u32) -> Cell
    requires { 0 < cell }
    ensures { result ≡ cell_of cell at.now.low }
{
    Cell {
        x: place_along(at.low.x, cell),
        y: place_along(at.low.y, cell),
        z: place_along(at.low.z, cell),
    }
}

// The cell of an extent's upper corner.
fn highest(at: &Extent, cell: u32) -> Cell
    requires { 0 < cell }
    ensures { result ≡ cell_of cell at.now.high }
{
    Cell {
        x: place_along(at.high.x, cell),
        y: place_along(at.high.y, cell),
        z: place_along(at.high.z, cell),
    }
}

/// The cells that the extent touches, if they are few.
pub(crate) fn span_of(at: &Extent, cell: u32) -> Option<Span>
    requires { 0 < cell }
    ensures { IfSome result (Covers cell at.now) }
{
    let first = lowest(at, cell);
    let last = highest(at, cell);
    span_between(first, last)
}

/// Whether the extent touches the cell.
pub(crate) fn touches(at: &Extent, cell: u32, c: Cell) -> bool
    requires { 0 < cell }
    ensures { IsTrue result ↔ Touches cell at.now c }
{
    let first = lowest(at, cell);
    let last = highest(at, cell);
    first.x <= c.x
        && c.x <= last.x
        && first.y <= c.y
        && c.y <= last.y
        && first.z <= c.z
        && c.z <= last.z
}

/// The nth cell of a span.
pub(crate) fn nth_cell(s: &Span, n: u32) -> Cell
    requires { n < s.now.count }
    ensures { result ≡ nth_cell s.now n }
{
    let row = n / s.nx;
    Cell {
        x: s.first.x + n % s.nx,
        y: s.first.y + row % s.ny,
        z: s.first.z + row / s.ny,
    }
}

// The cells from the first to the last, if they are few.
fn span_between(first: Cell, last: Cell) -> Option<Span>
    requires x_order { first.x ≤ last.x }
    requires y_order { first.y ≤ last.y }
    requires z_order { first.z ≤ last.z }
    requires x_fits { last.x ≤ 2 * EXTENT_MAX }
    requires y_fits { last.y ≤ 2 * EXTENT_MAX }
    requires z_fits { last.z ≤ 2 * EXTENT_MAX }
    ensures first { IfSome result (λ s. s.first ≡ first) }
    ensures x { IfSome result (λ s. last.x < first.x + s.nx) }
    ensures y { IfSome result (λ s. last.y < first.y + s.ny) }
    ensures z { IfSome result (λ s. last.z < first.z + s.nz) }
{
    let nx = last.x - first.x + 1;
    let ny = last.y - first.y + 1;
    let nz = last.z - first.z + 1;
    if nx > CELLS_MAX || ny > CELLS_MAX || nz > CELLS_MAX {
        return None;
    }
    let count = product(nx, ny, nz);
    if count > CELLS_MAX {
        return None;
    }
    Some(Span {
        first,
        nx,
        ny,
        nz,
        count,
    })
}

// How many cells there are.
fn product(a: u32, b: u32, c: u32) -> u32
    requires a_fits { a ≤ CELLS_MAX }
    requires b_fits { b ≤ CELLS_MAX }
    requires c_fits { c ≤ CELLS_MAX }
    ensures { result ≡ a * (b * c) }
{
    a * (b * c)
}
