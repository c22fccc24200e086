//! The frame that goes as most vertices of a motion do.
ghost use Rattle.std.specs.Prelude.{◌≤◌, unsigned_abs};
ghost use Rattle.grid_base.specs.declared.TheConstants.{HALF_MAX};

use grid_base::{HALF_MAX, NoMemory, Wide};
use mesh_base::{Surface, live_vertices};
use pair_paths::{Frame, Paths, Position};
use std::alloc::Global;

// The position nearest to these three whole numbers, along each axis.
fn position_near(p: Wide) -> Position {
    Position::of(Wide {
        x: clamp(p.x),
        y: clamp(p.y),
        z: clamp(p.z),
    })
}

// The number, or the nearest that a coordinate may be.
fn clamp(x: i128) -> i128
    ensures { unsigned_abs result ≤ HALF_MAX }
{
    let most = i128::from(HALF_MAX);
    if x > most {
        return most;
    }
    if x < -most {
        return -most;
    }
    x
}

// The way in the middle of the list; none, where the list is empty.
fn middle(ways: &[Wide]) -> Wide {
    match ways.get(ways.len() / 2) {
        Some(w) => *w,
        None => Wide { x: 0, y: 0, z: 0 },
    }
}

/// The frame that goes, along each axis, by the median of how far the vertices go. A scan is right in any frame; where most
/// vertices go as a whole, it is fast in this one.
pub(crate) fn frame_of<S: Surface, P: Paths>(
    alloc: Global,
    mesh: &S,
    paths: &P,
) -> Result<Frame, NoMemory> {
    let ids = live_vertices(alloc, mesh)?;
    let mut ways = Vec::new(alloc);
    for v in ids.as_slice() {
        let path = paths.path_of(*v);
        ways.push(path.end.seen_from(path.start))?;
    }
    ways.sort_unstable_by_key(|w| w.x);
    let x = middle(&ways).x;
    ways.sort_unstable_by_key(|w| w.y);
    let y = middle(&ways).y;
    ways.sort_unstable_by_key(|w| w.z);
    let z = middle(&ways).z;
    Ok(Frame {
        end: position_near(Wide { x, y, z }),
    })
}
