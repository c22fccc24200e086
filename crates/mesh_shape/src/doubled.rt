//! The faces that a later one equals up to rotation.
ghost use Rattle.std.specs.Prelude.{◌≡◌, ◌++◌, [], true, nat_eq, min, take, OnOk, IfOk};
ghost use Rattle.std.specs.HashMap.{get};
ghost use Rattle.mesh_base.specs.Changes.{corners_of};
ghost use Rattle.mesh_shape.specs.ShapeFaults.{all_doubled_from, doubled_by};
ghost use Rattle.mesh_shape.specs.Listing.{Adds};
ghost use Rattle.mesh_shape.specs.Doubled.{rank_of, turn_key, HasSmallCorners, IsSeen};

use crate::fault_list::face_number;
use grid_base::NoMemory;
use mesh_base::ShapeFault;
use std::alloc::Global;
use std::collections::{HashMap, VecDeque};

fn least(a: u128, b: u128) -> u128
    ensures { result ≡ min a b }
{
    if a < b { a } else { b }
}

/// Three numbers as one.
fn rank(a: u32, b: u32, c: u32) -> u128
    ensures { result ≡ rank_of a b c }
{
    ((a as u128) * (1 << 32) + b as u128) * (1 << 32) + c as u128
}

/// A number that is the same for two faces exactly where they are equal up to rotation.
fn turn_key(f: &[u32; 3]) -> u128
    ensures key { result ≡ turn_key (corners_of f.now) }
    ensures small { HasSmallCorners (corners_of f.now) }
{
    let (a, b, c) = (f[0], f[1], f[2]);
    least(least(rank(a, b, c), rank(b, c, a)), rank(c, a, b))
}

/// Sees a face: it is now the first with its key. If there was one before, the two are put before the others; the first `most` are kept.
fn put_face(
    face: u32,
    f: &[u32; 3],
    most: usize,
    seen: &mut HashMap<u128, u32>,
    faults: &mut VecDeque<ShapeFault>,
) -> Result<(), NoMemory>
    ensures seen { OnOk result (IsSeen (turn_key (corners_of f.now)) face seen.old seen.new) }
    ensures faults { OnOk result (faults.new.items ≡ take most
        (doubled_by face (get nat_eq seen.old (turn_key (corners_of f.now))) ++ faults.old.items)) }
    ensures small { HasSmallCorners (corners_of f.now) }
{
    if let Some(second) = seen.insert(turn_key(f), face)? {
        let first = face;
        faults.push_front(ShapeFault::Doubled { first, second })?;
    }
    faults.truncate(most);
    Ok(())
}

/// The first `most` of the faces that a later one equals up to rotation, each with the first such, found from the last face on.
fn doubled_backward(
    alloc: Global,
    faces: &[[u32; 3]],
    most: usize,
) -> Result<VecDeque<ShapeFault>, NoMemory>
    ensures { IfOk result (λ list. list.items ≡ take most (all_doubled_from 1 faces.now)) }
{
    let mut seen = HashMap::new(alloc);
    let mut list = VecDeque::new(alloc);
    let mut i = faces.len();
    while i > 0 {
        i -= 1;
        put_face(face_number(i)?, &faces[i], most, &mut seen, &mut list)?;
    }
    Ok(list)
}

/// Puts the faces that a later one equals up to rotation, each with the first such, at the end of the list. Where `once` says that no side
/// runs up twice, and nothing stands in the list yet, there are none.
pub(crate) fn put_doubled(
    alloc: Global,
    faces: &[[u32; 3]],
    once: bool,
    most: usize,
    faults: &mut Vec<ShapeFault>,
) -> Result<(), NoMemory>
    requires { once ≡ true → faults.old.items ≡ [] → all_doubled_from 1 faces.now ≡ [] }
    ensures { Adds most result faults.old faults.new (all_doubled_from 1 faces.now) }
{
    if most <= faults.len() {
        return Ok(());
    }
    if once && faults.is_empty() {
        return Ok(());
    }
    let mut list = doubled_backward(alloc, faces, most)?;
    faults.extend_from_slice(list.make_contiguous())?;
    Ok(())
}
