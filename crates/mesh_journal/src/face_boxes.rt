//! The boxes of all faces of a mesh.
ghost use Rattle.std.specs.Prelude.{◌≡◌, ◌≢◌, ◌<◌, ℕ, Some, IfOk, OnOk};
ghost use Rattle.grid_base.specs.Triples.{Triple};
ghost use Rattle.mesh_base.specs.Mesh.{HasCorners};
ghost use Rattle.mesh_base.specs.declared.ids.Corners.{Corners};
ghost use Rattle.mesh_journal.specs.Boxed.{Holds, HoldsCorners, AreBoxed};

use crate::boxes::box_of;
use cell_grid::Grid;
use grid_base::{EXTENT_MAX, Extent, NoMemory};
use mesh_base::{FaceId, Surface};
use std::alloc::Global;

/// The length of a box's longest side, or a greater number where that is not below 2^32.
pub(crate) fn longest_side(e: &Extent) -> u32 {
    let x = e.high.x.wrapping_sub(e.low.x);
    let y = e.high.y.wrapping_sub(e.low.y);
    let z = e.high.z.wrapping_sub(e.low.z);
    u32::try_from(x.max(y).max(z)).unwrap_or(u32::MAX)
}

/// The longest side of the box of a face, and 0 where it is not live.
fn side_of<B: Surface>(mesh: &B, f: FaceId) -> u32 {
    match mesh.corners(f) {
        Some(c) => longest_side(&box_of(mesh, c)),
        None => 0,
    }
}

/// The longest sides of the boxes of all faces, added.
fn sides_added<B: Surface>(mesh: &B) -> u64 {
    let mut total: u64 = 0;
    let mut last = 0;
    while let Some(f) = mesh.face_after(last) {
        total = total.saturating_add(u64::from(side_of(mesh, f)));
        last = f.0;
    }
    total
}

/// A size of cells that suits the faces: about twice the mean of their boxes' longest sides.
pub(crate) fn cell_for<B: Surface>(mesh: &B) -> u32
    ensures { 0 < result }
{
    let count = u64::from(mesh.faces()).max(1);
    let twice = (sides_added(mesh) / count).saturating_mul(2);
    twice.clamp(1, u64::from(EXTENT_MAX)) as u32
}

/// Puts the box of a face into the grid.
fn put_face<B: Surface>(mesh: &B, f: FaceId, grid: &mut Grid) -> Result<(), NoMemory>
    ensures at { let m = B.mesh mesh.now in
        OnOk result ((c : Corners) → HasCorners m f c → HoldsCorners (Some grid.new) m f c) }
    ensures others { OnOk result ((q : ℕ) (p : Triple) → q ≢ f
        → Holds (Some grid.old) q p → Holds (Some grid.new) q p) }
{
    if let Some(c) = mesh.corners(f) {
        grid.insert(u64::from(f.0), box_of(mesh, c))?;
    }
    Ok(())
}

/// Puts the boxes of all faces into the grid.
fn put_all<B: Surface>(mesh: &B, grid: &mut Grid) -> Result<(), NoMemory>
    ensures { OnOk result (AreBoxed (Some grid.new) (B.mesh mesh.now)) }
{
    let mut last = 0;
    while let Some(f) = mesh.face_after(last) {
        put_face(mesh, f, grid)?;
        last = f.0;
    }
    Ok(())
}

/// A grid of the boxes of all faces, over cells of this size. Refuses only where there is no memory.
fn grid_of<B: Surface>(alloc: Global, mesh: &B, cell: u32) -> Result<Grid, NoMemory>
    requires { 0 < cell }
    ensures { IfOk result (λ grid. AreBoxed (Some grid) (B.mesh mesh.now)) }
{
    let mut grid = Grid::new(alloc, cell)?;
    put_all(mesh, &mut grid)?;
    Ok(grid)
}

/// The boxes of all faces, over cells of this size; None where memory is wanting.
pub(crate) fn boxes_of<B: Surface>(alloc: Global, mesh: &B, cell: u32) -> Option<Grid>
    requires { 0 < cell }
    ensures { AreBoxed result (B.mesh mesh.now) }
{
    match grid_of(alloc, mesh, cell) {
        Ok(grid) => Some(grid),
        Err(_) => None,
    }
}
