// An order of boxes in which those at a crowded label stand together, and neighbours mostly stand near one another. Only
// speed depends on it.
ghost use Rattle.std.specs.Prelude.{◌≡◌, map, IfOk};
ghost use Rattle.box_tree.specs.Order.{HaveEachPlace, HasEachPlace};

use crate::crowds::{counts, crowded_of};
use crate::{LabelledBox, SmallBox};
use grid_base::NoMemory;
use std::alloc::Global;

// The last 21 bits of a number, each three places from the next.
fn spread(n: u64) -> u64 {
    let n = n & 0x001f_ffff;
    let n = (n | n << 32) & 0x001f_0000_0000_ffff;
    let n = (n | n << 16) & 0x001f_0000_ff00_00ff;
    let n = (n | n << 8) & 0x100f_00f0_0f00_f00f;
    let n = (n | n << 4) & 0x10c3_0c30_c30c_30c3;
    (n | n << 2) & 0x1249_2492_4924_9249
}

// The least middle of boxes along each axis, and by how many places the others are moved to take 21 bits from there on.
#[derive(Clone, Copy)]
struct Scale {
    x: u64,
    y: u64,
    z: u64,
    moved: u32,
}

// Where a box's middle stands on a curve that fills space: the bits of its coordinates by turns (Morton 1966).
fn along_curve(scale: &Scale, b: &SmallBox) -> u64 {
    let (x, y, z) = b.middle();
    let x = spread(x.saturating_sub(scale.x).wrapping_shr(scale.moved));
    let y = spread(y.saturating_sub(scale.y).wrapping_shr(scale.moved));
    let z = spread(z.saturating_sub(scale.z).wrapping_shr(scale.moved));
    x | y << 1 | z << 2
}

// The scale on which the middles of these boxes take 21 bits.
fn scale_of(boxes: &[LabelledBox]) -> Scale {
    let mut least = (u64::MAX, u64::MAX, u64::MAX);
    let mut most: (u64, u64, u64) = (0, 0, 0);
    for b in boxes {
        let (x, y, z) = b.at.middle();
        least = (least.0.min(x), least.1.min(y), least.2.min(z));
        most = (most.0.max(x), most.1.max(y), most.2.max(z));
    }
    let x = most.0.saturating_sub(least.0);
    let y = most.1.saturating_sub(least.1);
    let z = most.2.saturating_sub(least.2);
    Scale {
        x: least.0,
        y: least.1,
        z: least.2,
        moved: 43_u32.saturating_sub((x | y | z).leading_zeros()),
    }
}

// What a box is sorted by: first the crowded label that it has, and then where its middle stands.
fn sort_key(counts: &[u32], scale: &Scale, b: &LabelledBox) -> u64 {
    let here = along_curve(scale, &b.at);
    let label = crowded_of(counts, &b.labels);
    if label == 0 {
        here
    } else {
        1 << 63 | u64::from(label) << 31 | here >> 32
    }
}

// The places of boxes, each with what its box is sorted by.
fn with_places(
    alloc: Global,
    boxes: &[LabelledBox],
    counts: &[u32],
) -> Result<Vec<(u64, u64)>, NoMemory>
    ensures { IfOk result (λ keyed. HaveEachPlace boxes.now keyed.items) }
{
    let scale = scale_of(boxes);
    let mut keyed = Vec::with_capacity(alloc, boxes.len())?;
    for (i, b) in boxes.iter().enumerate() {
        keyed.push((sort_key(counts, &scale, b), i as u64))?;
    }
    Ok(keyed)
}

// The places alone.
fn places_of(alloc: Global, keyed: &[(u64, u64)]) -> Result<Vec<u64>, NoMemory>
    ensures { IfOk result (λ order. order.items ≡ map (λ k. k.1) keyed.now) }
{
    let mut order = Vec::with_capacity(alloc, keyed.len())?;
    for k in keyed {
        order.push(k.1)?;
    }
    Ok(order)
}

/// The places of boxes, those at one crowded label together, in the order of their middles along a curve that fills space.
pub fn places_along_curve(alloc: Global, boxes: &[LabelledBox]) -> Result<Vec<u64>, NoMemory>
    ensures { IfOk result (λ order. HasEachPlace boxes.now order.items) }
{
    let slots = counts(alloc, boxes)?;
    let mut keyed = with_places(alloc, boxes, &slots)?;
    keyed.sort_unstable_by_key(|k| k.0);
    places_of(alloc, &keyed)
}
