use crate::places::extent;
use crate::same::assert_same;
use cell_grid::{Extent, Grid};
use grid_base::{BOX, NoMemory};
use std::alloc::Global;
use std::process::Abort;
use std::test::Fail;

// An extent, from one corner to another.
type At = [[i64; 3]; 2];

// What is done with a grid.
#[derive(Clone, Copy)]
enum Act<'a> {
    // The item gets its extent.
    Put(u64, At),
    // The item's extent, where it has one.
    Get(u64, Option<At>),
    // The like, which is then no more.
    Take(u64, Option<At>),
    // The items that touch an extent, rising.
    Find(At, &'a [u64]),
}

fn extent_where(rt: &impl Abort, at: Option<At>) -> Option<Extent> {
    match at {
        Some(at) => Some(extent(rt, at[0], at[1])),
        None => None,
    }
}

fn find(
    rt: &impl Abort,
    grid: &Grid,
    into: &mut Vec<u64>,
    at: At,
    wanted: &[u64],
) -> Result<(), NoMemory> {
    grid.overlapping(extent(rt, at[0], at[1]), into)?;
    assert!(rt; into.as_slice() == wanted, "{at:?}");
    Ok(())
}

fn perform(
    rt: &impl Abort,
    grid: &mut Grid,
    into: &mut Vec<u64>,
    act: Act,
) -> Result<(), NoMemory> {
    match act {
        Act::Put(item, at) => grid.insert(item, extent(rt, at[0], at[1])),
        Act::Get(item, at) => {
            assert_same(rt, &grid.get(item), &extent_where(rt, at));
            Ok(())
        }
        Act::Take(item, at) => {
            assert_same(rt, &grid.remove(item), &extent_where(rt, at));
            Ok(())
        }
        Act::Find(at, wanted) => find(rt, grid, into, at, wanted),
    }
}

// All of these, one after another, with a grid of cells of this size.
fn perform_all(rt: &impl Abort, alloc: Global, cell: u32, acts: &[Act]) -> Result<(), NoMemory> {
    assert!(rt; 0 < cell);
    let mut grid = Grid::new(alloc, cell)?;
    let mut into = Vec::new(alloc);
    for act in acts {
        perform(rt, &mut grid, &mut into, *act)?;
    }
    Ok(())
}

const TOUCH: [Act; 4] = [
    Act::Put(1, [[0, 0, 0], [5, 5, 5]]),
    Act::Put(2, [[20, 0, 0], [25, 5, 5]]),
    Act::Find([[5, 0, 0], [20, 9, 9]], &[1, 2]),
    Act::Find([[5, 0, 0], [19, 9, 9]], &[1]),
];

// Cells below zero are cells of their own.
const BELOW_ZERO: [Act; 3] = [
    Act::Put(1, [[-5, -5, -5], [-1, -1, -1]]),
    Act::Find([[0, 0, 0], [4, 4, 4]], &[]),
    Act::Find([[-1, -1, -1], [4, 4, 4]], &[1]),
];

const HERE: At = [[0, 0, 0], [12, 5, 5]];

const THERE: At = [[30, 0, 0], [41, 5, 5]];

const MOVED: [Act; 8] = [
    Act::Put(8, HERE),
    Act::Put(8, THERE),
    Act::Find(HERE, &[]),
    Act::Find(THERE, &[8]),
    Act::Get(8, Some(THERE)),
    Act::Take(8, Some(THERE)),
    Act::Take(8, None),
    Act::Find(THERE, &[]),
];

// The greatest coordinate of a point.
const M: i64 = BOX as i64;

const MOST: At = [[M, M, M], [M, M, M]];

const LEAST: At = [[-M, -M, -M], [-M, -M, -M]];

const ALL: At = [[-M, -M, -M], [M, M, M]];

const CORNERS: [Act; 7] = [
    Act::Put(2, MOST),
    Act::Put(1, LEAST),
    Act::Find(MOST, &[2]),
    Act::Find(LEAST, &[1]),
    Act::Find(ALL, &[1, 2]),
    Act::Put(0, ALL),
    Act::Find(LEAST, &[0, 1]),
];

const BLOCK: At = [[0, 0, 0], [9, 9, 9]];

const MIDDLE: At = [[5, 5, 5], [6, 6, 6]];

const MANY: [Act; 7] = [
    Act::Put(7, BLOCK),
    Act::Put(3, MIDDLE),
    // the item touches 1000 cells
    Act::Find(MIDDLE, &[3, 7]),
    // the question touches 1000 cells
    Act::Find(BLOCK, &[3, 7]),
    Act::Put(7, [[7, 7, 7], [8, 8, 8]]),
    // the item touches few cells now
    Act::Find(MIDDLE, &[3]),
    Act::Find(BLOCK, &[3, 7]),
];

// How wide a cell is, and what is done with a grid of such cells.
const GRIDS: [(u32, &[Act]); 7] = [
    (10, &TOUCH),
    (10, &BELOW_ZERO),
    (10, &MOVED),
    (1, &CORNERS),
    (7, &CORNERS),
    (u32::MAX, &CORNERS),
    (1, &MANY),
];

#[test]
fn extents_that_touch_overlap_in_each_grid(rt: HostRuntime) -> Result<(), Fail> {
    for (cell, acts) in &GRIDS {
        perform_all(&rt, rt.alloc(), *cell, acts)?;
    }
    Ok(())
}
