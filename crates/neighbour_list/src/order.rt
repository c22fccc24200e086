//! The corners of faces, in an order in which neighbours mostly stand near one another. Only speed depends on the order.
ghost use Rattle.std.specs.Prelude.{◌≡◌, ◌≤◌, map, unsigned_abs, IfOk};
ghost use Rattle.std.specs.List.Sorted.{IsPermutation};
ghost use Rattle.grid_base.specs.declared.TheConstants.{HALF_MAX};
ghost use Rattle.grid_base.specs.Triples.{IsWithin};

use grid_base::{HALF_MAX, NoMemory, Wide};
use mesh_base::Corners;
use pair_paths::MovingFace;
use std::alloc::Global;

/// The corners of a face, and where the first of them begins on a curve that fills space.
#[derive(Clone, Copy)]
pub(crate) struct OnCurve {
    pub(crate) place: u128,
    pub(crate) corners: Corners,
}

// A coordinate, counted from the least.
fn from_least(x: i128) -> u128
    requires { unsigned_abs x ≤ HALF_MAX }
{
    (x + i128::from(HALF_MAX)).unsigned_abs()
}

// The bits of a number below 2^32, each three places from the next.
fn spread(n: u128) -> u128 {
    let n = (n | n << 32) & 0xffff_0000_0000_ffff;
    let n = (n | n << 16) & 0xff00_00ff_0000_ff00_00ff;
    let n = (n | n << 8) & 0x00f0_0f00_f00f_00f0_0f00_f00f;
    let n = (n | n << 4) & 0x0c30_c30c_30c3_0c30_c30c_30c3;
    (n | n << 2) & 0x2492_4924_9249_2492_4924_9249
}

// Where a point stands on the curve: the bits of its coordinates by turns (Morton 1966).
fn along_curve(p: Wide) -> u128
    requires { IsWithin HALF_MAX p }
{
    spread(from_least(p.x)) | spread(from_least(p.y)) << 1 | spread(from_least(p.z)) << 2
}

// The corners of faces, in the order of these.
fn with_places(alloc: Global, faces: &[MovingFace]) -> Result<Vec<OnCurve>, NoMemory>
    ensures { IfOk result
        (λ placed. map (λ k. k.corners) placed.items ≡ map (λ f. f.corners) faces.now) }
{
    let mut placed = Vec::new(alloc);
    for f in faces {
        placed.push(OnCurve {
            place: along_curve(f.c.start.wide()),
            corners: f.corners,
        })?;
    }
    Ok(placed)
}

/// The corners of these faces, in the order of their first corners' starts along the curve.
pub(crate) fn corners_along_curve(
    alloc: Global,
    faces: &[MovingFace],
) -> Result<Vec<OnCurve>, NoMemory>
    ensures { IfOk result
        (λ placed. IsPermutation (map (λ f. f.corners) faces.now) (map (λ k. k.corners) placed.items)) }
{
    let mut placed = with_places(alloc, faces)?;
    placed.sort_unstable_by_key(|k| k.place);
    Ok(placed)
}
