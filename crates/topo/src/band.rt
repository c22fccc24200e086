//! The sizing of the program: edges may be longer further away from the origin.
ghost use Rattle.std.specs.Prelude.{◌≡◌, ◌≤◌};
ghost use Rattle.grid_base.specs.declared.TheConstants.{BOX};
ghost use Rattle.mesh_sizing.specs.Sizes.{IsBand};
ghost use Rattle.topo.specs.ShippedBand.{size_of, shipped_band};

use grid_base::Point;
use mesh_sizing::Band;

// The greatest size of a coordinate.
fn size_of(at: Point) -> u32
    ensures value { result ≡ size_of at }
    ensures within { result ≤ BOX }
{
    at.x.unsigned_abs()
        .max(at.y.unsigned_abs())
        .max(at.z.unsigned_abs())
}

/// How long an edge may be at a point, in units of the grid, by the greatest size of a coordinate there: 20 and a 64th of it at least,
/// and 60 and a 16th of it at most, divided toward zero.
pub(crate) fn shipped_band(at: Point) -> Band
    ensures value { result ≡ shipped_band at }
    ensures band { IsBand result }
{
    let size = size_of(at);
    Band {
        low: 20 + size / 64,
        high: 60 + size / 16,
    }
}
