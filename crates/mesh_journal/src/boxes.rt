//! Boxes of faces, wide enough for several meshes.
ghost use Rattle.std.specs.Prelude.{◌≡◌, ◌≢◌, ◌<◌, ℕ, Some, All, IfOk, OnOk};
ghost use Rattle.std.specs.FinMap as map;
ghost use Rattle.grid_base.specs.Triples.{Triple, IsWithin};
ghost use Rattle.grid_base.specs.declared.Extent.{Extent as Box};
ghost use Rattle.grid_base.specs.declared.TheConstants.{HALF_MAX, EXTENT_MAX};
ghost use Rattle.grid_base.specs.Extents.{IsIn};
ghost use Rattle.mesh_base.specs.Mesh.{HasCorners};
ghost use Rattle.mesh_base.specs.declared.ids.Corners.{Corners};
ghost use Rattle.mesh_base.specs.Changes.{corners_of};
ghost use Rattle.mesh_base.specs.Placements.{rest_positions_doubled};
ghost use Rattle.mesh_journal.specs.Boxed.{IsBoxedAt, Holds, IsAround, HoldsCorners, AreBoxed};

use cell_grid::Grid;
use grid_base::{EXTENT_MAX, Extent, NoMemory, Point, Wide};
use mesh_base::{FaceId, Surface, VertexId};
use std::alloc::Global;

/// Where a vertex stands, in half units; the origin, where it is not live.
fn resting<B: Surface>(mesh: &B, v: VertexId) -> Wide
    ensures value { result ≡ rest_positions_doubled (B.mesh mesh.now) v }
    ensures within { IsWithin HALF_MAX result }
{
    match mesh.point(v) {
        Some(p) => p.doubled(),
        None => Point { x: 0, y: 0, z: 0 }.doubled(),
    }
}

/// A box of three positions.
fn around_three(p: Wide, q: Wide, r: Wide) -> Extent
    requires p_fits { IsWithin HALF_MAX p }
    requires q_fits { IsWithin HALF_MAX q }
    requires r_fits { IsWithin HALF_MAX r }
    ensures first { IsIn result p }
    ensures second { IsIn result q }
    ensures third { IsIn result r }
{
    Extent::around(p, q).united(&Extent::around(q, r))
}

/// A box of the corners of a face, in half units.
pub(crate) fn box_of<B: Surface>(mesh: &B, c: [VertexId; 3]) -> Extent
    ensures { IsAround result (B.mesh mesh.now) (corners_of c) }
{
    around_three(
        resting(mesh, c[0]),
        resting(mesh, c[1]),
        resting(mesh, c[2]),
    )
}

/// Sets the box of a face, where there are boxes. Where memory is wanting, the boxes are given up.
pub(crate) fn set_box(boxes: &mut Option<Grid>, f: FaceId, around: Extent)
    ensures at { (p : Triple) → IsIn around p → Holds boxes.new f p }
    ensures others { (q : ℕ) (p : Triple) → q ≢ f → Holds boxes.old q p → Holds boxes.new q p }
{
    if let Some(grid) = boxes {
        if let Ok(()) = grid.insert(u64::from(f.0), around) {
            return;
        }
        *boxes = None;
    }
}

/// The box of a face, made wide enough for a position.
pub(crate) fn wider_box(grid: &Grid, f: FaceId, p: Wide) -> Extent
    requires { IsWithin HALF_MAX p }
    ensures old { (e : Box) (q : Triple) → map.get grid.now f ≡ Some e → IsIn e q → IsIn result q }
    ensures new { IsIn result p }
{
    let at = Extent::around(p, p);
    match grid.get(u64::from(f.0)) {
        Some(e) => e.united(&at),
        None => at,
    }
}

/// Takes out the box of a face, where there are boxes.
pub(crate) fn unset_box(boxes: &mut Option<Grid>, f: FaceId)
    ensures { (q : ℕ) (p : Triple) → q ≢ f → Holds boxes.old q p → Holds boxes.new q p }
{
    if let Some(grid) = boxes {
        let _ = grid.remove(u64::from(f.0));
    }
}
