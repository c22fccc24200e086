// What may be amiss in a job that is done.
ghost use Rattle.std.specs.Prelude.{◌<◌, ◌≤◌};

use mesh_base::MeshLists;
use std::alloc::{AllocError, Global};

// Ten to the power of a number of digits, up to six.
fn ten_to(digits: u8) -> u32
    ensures { 0 < result }
{
    match digits {
        0 => 1,
        1 => 10,
        2 => 100,
        3 => 1_000,
        4 => 10_000,
        5 => 100_000,
        _ => 1_000_000,
    }
}

// How far a coordinate is from the nearest multiple of a step.
fn way_to_multiple(coordinate: i32, step: u32) -> u32
    requires { 0 < step }
{
    let above = coordinate.unsigned_abs() % step;
    above.min(step - above)
}

// How many coordinates are no multiple of a step, and how far the farthest is from one.
fn off_multiples(lists: &MeshLists, step: u32) -> (u64, u32)
    requires { 0 < step }
{
    let mut count: u64 = 0;
    let mut most: u32 = 0;
    for point in lists.points.as_slice() {
        for coordinate in [point.x, point.y, point.z] {
            let way = way_to_multiple(coordinate, step);
            if way > 0 {
                count = count.saturating_add(1);
            }
            most = most.max(way);
        }
    }
    (count, most)
}

// The fewest decimals on whose grid all coordinates lie; those of the lists where none fewer serve.
fn decimals_that_keep(fine: &MeshLists, fine_decimals: u8, decimals: u8) -> u8 {
    for kept in decimals..fine_decimals {
        let (count, _) = off_multiples(fine, ten_to(fine_decimals - kept));
        if count == 0 {
            return kept;
        }
    }
    fine_decimals
}

/// Says how many coordinates of a mesh were rounded on a grid of so many decimals, from its lists on the finest grid that holds it, and
/// whether its text has digits that not even that one keeps; `None` where none was rounded.
pub fn rounding_warning(
    alloc: Global,
    fine: &MeshLists,
    fine_decimals: u8,
    decimals: u8,
    is_finer: bool,
) -> Result<Option<String>, AllocError> {
    let (count, most) = off_multiples(fine, ten_to(fine_decimals.saturating_sub(decimals)));
    if count == 0 {
        if !is_finer {
            return Ok(None);
        }
        let said = format!(in alloc;
            "digits after decimal {fine_decimals} of the coordinates were rounded; no grid that holds the mesh keeps them"
        )?;
        return Ok(Some(said));
    }
    let all = (fine.points.len() as u64).saturating_mul(3);
    let most = f64::from(most) / f64::from(ten_to(fine_decimals));
    let keeps = decimals_that_keep(fine, fine_decimals, decimals);
    if is_finer {
        let said = format!(in alloc;
            "{count} of {all} coordinates were rounded by up to {most}; --decimals {fine_decimals} keeps them to that decimal, and what is after it no grid that holds the mesh keeps"
        )?;
        return Ok(Some(said));
    }
    let said = format!(in alloc;
        "{count} of {all} coordinates were rounded by up to {most}; --decimals {keeps} keeps them"
    )?;
    Ok(Some(said))
}

// A corner's place as seen from another point.
fn seen_from(lists: &MeshLists, corner: u32, from: [f64; 3]) -> [f64; 3] {
    let place = corner.saturating_sub(1) as usize;
    match lists.points.get(place) {
        None => [0.0, 0.0, 0.0],
        Some(point) => [
            f64::from(point.x) - from[0],
            f64::from(point.y) - from[1],
            f64::from(point.z) - from[2],
        ],
    }
}

// Six times the volume of the tetrahedron of three points and the origin, with its sign.
fn six_volumes(p: [f64; 3], q: [f64; 3], r: [f64; 3]) -> f64 {
    p[0] * (q[1] * r[2] - q[2] * r[1])
        + p[1] * (q[2] * r[0] - q[0] * r[2])
        + p[2] * (q[0] * r[1] - q[1] * r[0])
}

/// Whether a closed mesh is turned inside out: its volume, as far as it is told in floating point, is below zero.
pub fn is_inside_out(lists: &MeshLists) -> bool {
    let from = seen_from(lists, 1, [0.0, 0.0, 0.0]);
    let mut volume = 0.0;
    for face in lists.faces.as_slice() {
        let [a, b, c] = *face;
        volume += six_volumes(
            seen_from(lists, a, from),
            seen_from(lists, b, from),
            seen_from(lists, c, from),
        );
    }
    volume < 0.0
}
