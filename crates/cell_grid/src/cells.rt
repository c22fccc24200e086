// The cells that an extent touches, and what stands at them.
ghost use Rattle.std.specs.Prelude.{◌≡◌, ◌<◌, ◌≤◌, IfSome, unsigned_abs};
ghost use Rattle.cell_grid.specs.Usable.{IsUsable};

use crate::bounds::Bounds;
use crate::{CELLS_MAX, Extent};
use grid_base::EXTENT_MAX;

/// A cell, by its place along each axis.
#[derive(Clone, Copy, PartialEq, Eq, Hash)]
pub(crate) struct Cell {
    pub x: u32,
    pub y: u32,
    pub z: u32,
}

/// An item that stands at a cell, with bounds that have its extent.
#[derive(Clone, Copy)]
pub(crate) struct Entry {
    pub item: u64,
    pub around: Bounds,
}

/// A few cells: so many along each axis, from the first one on.
#[derive(Clone, Copy)]
pub(crate) struct Span {
    pub first: Cell,
    pub nx: u32,
    pub ny: u32,
    pub nz: u32,
    pub count: u32,
    ghost usable: { IsUsable first.x first.y first.z nx ny nz count },
}

mod places;

pub(crate) use places::{nth_cell, span_of, touches};
