//! How long edges may be, by the cells of a box: a sizing that is sampled on a grid.
ghost use Rattle.std.specs.Prelude.{◌≡◌, ◌<◌, ◌*◌, length, position, None, Some, MatchResult};
ghost use Rattle.mesh_sizing.specs.Sizes.{IsBand};
ghost use Rattle.track_held.specs.Tables.{band_in, is_no_band, is_miscounted, cell_count, table_fault, cell_along, place_of, by_cells, CellsHaveTheirBands, EndsAreNearest};

use grid_base::{LENGTH_MAX, Point};
use mesh_sizing::Band;

/// Cubes of one side, so many along each axis, from the point with the least coordinates on, in grid units.
#[repr(C)]
#[derive(Clone, Copy, Debug, PartialEq, Eq)]
pub struct Cells {
    pub x: i32,
    pub y: i32,
    pub z: i32,
    pub side: u32,
    pub nx: u32,
    pub ny: u32,
    pub nz: u32,
}

/// From which length to which an edge may be, in grid units.
#[repr(C)]
#[derive(Clone, Copy, Debug, PartialEq, Eq)]
pub struct GivenBand {
    pub low: u32,
    pub high: u32,
}

/// What is wrong with cells and their bands.
#[derive(Clone, Copy, Debug, PartialEq, Eq)]
pub enum TableFault {
    /// The cells have no side.
    NoSide,
    /// There is no cell, or there are not as many bands as cells.
    Miscounted,
    /// A band whose `low` is not below its `high`, or whose `high` is above `LENGTH_MAX`: the first, by its place, from 0.
    NoBand { place: usize },
}

/// A band for each cell: that of the cell at `i`, `j`, `k`, from 0, has the place `i + nx * (j + ny * k)`.
#[derive(Clone, Copy, Debug)]
pub struct BandTable<'a> {
    pub cells: Cells,
    pub bands: &'a [GivenBand],
    ghost faultless: { table_fault cells bands.now ≡ None },
}

// Whether the band is none.
fn is_no_band(row: &GivenBand) -> bool
    ensures { result ≡ is_no_band row.now }
{
    row.low >= row.high || row.high > LENGTH_MAX
}

// The first band that is none, by its place.
fn first_fault(rows: &[GivenBand]) -> Option<usize>
    ensures { result ≡ position is_no_band rows.now }
{
    rows.iter().position(|row| is_no_band(row))
}

// How many cells there are.
fn cell_count(cells: &Cells) -> u128
    ensures { result ≡ cell_count cells.now }
{
    u128::from(cells.nx) * (u128::from(cells.ny) * u128::from(cells.nz))
}

// Whether there is no cell, or not a band for each.
fn is_miscounted(cells: &Cells, count: usize) -> bool
    ensures { result ≡ is_miscounted cells.now count }
{
    count == 0 || cell_count(cells) != count as u128
}

// Along one axis the cell in which a coordinate lies, or the nearest.
fn cell_along(from: i32, side: u32, many: u32, at: i32) -> u32
    requires side { 0 < side }
    requires many { 0 < many }
    ensures value { result ≡ cell_along from side many at }
    ensures within { result < many }
{
    if at < from {
        return 0;
    }
    let past = at.abs_diff(from) / side;
    past.min(many - 1)
}

impl<'a> BandTable<'a> {
    ghost use Rattle.track_held.specs.TablesMade.{IsTableOf, IsTableFault};

    /// These bands for these cells, or the first thing that is wrong with them.
    pub fn new(cells: Cells, bands: &'a [GivenBand]) -> Result<BandTable<'a>, TableFault>
        ensures { MatchResult result (IsTableOf cells bands.now) (IsTableFault cells bands.now) }
    {
        if cells.side == 0 {
            return Err(TableFault::NoSide);
        }
        if is_miscounted(&cells, bands.len()) {
            return Err(TableFault::Miscounted);
        }
        match first_fault(bands) {
            Some(place) => Err(TableFault::NoBand { place }),
            None => Ok(BandTable { cells, bands }),
        }
    }

    // The place of the cell of a point, or of the nearest.
    fn place_of(&self, p: Point) -> usize
        ensures value { result ≡ place_of self.now.cells p }
        ensures within { result < length self.now.bands.now }
    {
        let c = &self.cells;
        let i = cell_along(c.x, c.side, c.nx, p.x) as usize;
        let j = cell_along(c.y, c.side, c.ny, p.y) as usize;
        let k = cell_along(c.z, c.side, c.nz, p.z) as usize;
        i + c.nx as usize * (j + c.ny as usize * k)
    }

    /// The band of the cell in which a point lies, or of the nearest cell.
    pub fn band_at(&self, p: Point) -> Band
        ensures value { by_cells self.now.cells self.now.bands.now p result }
        ensures band { IsBand result }
    {
        let row = self.bands[self.place_of(p)];
        Band {
            low: row.low,
            high: row.high,
        }
    }
}

/// A point that lies in a cell has the band of that cell.
pub fn cells_have_their_bands()
    ensures { CellsHaveTheirBands }
{}

/// Along each axis the cell that is nearest to a coordinate in no cell is the first or the last.
pub fn ends_are_nearest()
    ensures { EndsAreNearest }
{}
