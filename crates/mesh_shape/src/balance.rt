//! The sides of faces in order, and the two vertices between which faces do not run as often one way as the other.
ghost use Rattle.std.specs.Prelude.{ℕ, ◌≡◌, ◌≤◌, ◌<◌, ◌+◌, ◌==◌, ◌&&◌, ◌||◌, true, [], None, length, map, IsOk, OnOk, IfOk};
ghost use Rattle.std.specs.List.{filter};
ghost use Rattle.std.specs.List.Sorted.{IsNonDecreasingBy, IsStrictlySortedBy};
ghost use Rattle.mesh_base.specs.Sides.{follows};
ghost use Rattle.mesh_base.specs.SideList.{edge_cmp, side_rank, has_side, HasSmallEnds};
ghost use Rattle.mesh_base.specs.Changes.{corners_of};
ghost use Rattle.mesh_shape.specs.Shape.{runs_in, repeated_from};
ghost use Rattle.mesh_shape.specs.ShapeFaults.{all_doubled_from, unbalanced_fault, unbalanced_pairs};
ghost use Rattle.mesh_shape.specs.Listing.{Adds};
ghost use Rattle.mesh_shape.specs.Balance.{same_ends, times, HasRuns, AddsRuns, AreSmall, IsInOrder, AreSidesOf, rises_from};
ghost use Rattle.mesh_shape.specs.Balance.{differs, Walks, are_vertices, HasUnbalanced};

use crate::fault_list::{is_vertex, put_if};
use crate::rows::put_in_rows;
use grid_base::NoMemory;
use mesh_base::ShapeFault;
use std::alloc::Global;

/// A side of a face by the numbers of its ends, the smaller first.
pub(crate) type Side = (u32, u32);

/// Sides by how they run: from the smaller end to the larger, or back.
#[derive(Drop)]
struct Sides {
    up: Vec<Side>,
    down: Vec<Side>,
}

/// Puts a side at the end of the list that it belongs to, unless its ends are one.
fn put_side(sides: &mut Sides, from: u32, to: u32) -> Result<(), NoMemory>
    ensures up { IsOk result → AddsRuns sides.old.up.items sides.new.up.items
        (λ u v. from == u && to == v) }
    ensures down { IsOk result → AddsRuns sides.old.down.items sides.new.down.items
        (λ u v. from == v && to == u) }
    ensures small_up { IsOk result → AreSmall sides.old.up.items → AreSmall sides.new.up.items }
    ensures small_down { IsOk result →
        AreSmall sides.old.down.items → AreSmall sides.new.down.items }
{
    if from < to {
        sides.up.push((from, to))?;
    } else if to < from {
        sides.down.push((to, from))?;
    }
    Ok(())
}

/// Puts the three sides of a face at the ends of the lists.
fn put_sides(sides: &mut Sides, f: &[u32; 3]) -> Result<(), NoMemory>
    ensures up { IsOk result → AddsRuns sides.old.up.items sides.new.up.items
        (λ u v. follows (corners_of f.now) u v) }
    ensures down { IsOk result → AddsRuns sides.old.down.items sides.new.down.items
        (λ u v. follows (corners_of f.now) v u) }
    ensures small_up { IsOk result → AreSmall sides.old.up.items → AreSmall sides.new.up.items }
    ensures small_down { IsOk result →
        AreSmall sides.old.down.items → AreSmall sides.new.down.items }
{
    put_side(sides, f[0], f[1])?;
    put_side(sides, f[1], f[2])?;
    put_side(sides, f[2], f[0])
}

/// The sides of the faces.
fn sides_of(alloc: Global, faces: &[[u32; 3]]) -> Result<Sides, NoMemory>
    ensures up { IfOk result (λ sides. HasRuns sides.up.items (λ u v. runs_in faces.now u v)) }
    ensures down { IfOk result (λ sides.
        HasRuns sides.down.items (λ u v. runs_in faces.now v u)) }
    ensures small_up { IfOk result (λ sides. AreSmall sides.up.items) }
    ensures small_down { IfOk result (λ sides. AreSmall sides.down.items) }
{
    // Room for all of them where as many run up as down, as they do in a closed mesh: 24 bytes a face.
    let room = faces.len().saturating_add(faces.len() / 2);
    let mut sides = Sides {
        up: Vec::with_capacity(alloc, room)?,
        down: Vec::with_capacity(alloc, room)?,
    };
    for f in faces {
        put_sides(&mut sides, f)?;
    }
    Ok(sides)
}

/// A number that is smaller for the earlier of two sides. A sort by it takes two thirds of the time of one by the pairs.
pub(crate) fn rank(side: Side) -> u64
    ensures { result ≡ side_rank side }
{
    let (u, v) = side;
    (u as u64) * (1 << 32) + v as u64
}

/// Puts sides in order.
fn put_in_order(sides: &mut Vec<Side>)
    ensures order { IsNonDecreasingBy side_rank sides.new.items }
    ensures same { (u v : ℕ) → times sides.new.items u v ≡ times sides.old.items u v }
{
    sides.sort_unstable_by_key(|side| rank(*side));
}

/// The sides of the faces, in order. They are put in rows first: faces of a mesh have some three sides from each smaller end, so that this costs
/// a fifth of a sort of all, which then finds them in order.
fn sides_in_order(alloc: Global, faces: &[[u32; 3]]) -> Result<Sides, NoMemory>
    ensures { IfOk result (AreSidesOf faces.now) }
{
    let mut sides = sides_of(alloc, faces)?;
    put_in_rows(alloc, &mut sides.up)?;
    put_in_rows(alloc, &mut sides.down)?;
    put_in_order(&mut sides.up);
    put_in_order(&mut sides.down);
    Ok(sides)
}

/// Whether each side comes after the one before it.
fn rise(sides: &[Side]) -> bool
    ensures { result ≡ rises_from 0 sides.now }
{
    let mut last = 0;
    for side in sides {
        let here = rank(*side);
        if here <= last {
            return false;
        }
        last = here;
    }
    true
}

/// Whether no side runs up twice.
fn run_up_once(sides: &Sides) -> bool
    ensures { result ≡ rises_from 0 sides.now.up.items }
{
    rise(&sides.up)
}

/// Puts a side at the end of the list, unless it is the last there.
fn put_new(side: Side, list: &mut Vec<Side>) -> Result<(), NoMemory>
    ensures { OnOk result ((u v : ℕ) →
        has_side list.new.items u v ≡ (has_side list.old.items u v || same_ends side (u, v))) }
{
    if list.last() != Some(&side) {
        list.push(side)?;
    }
    Ok(())
}

/// Puts each of the sides at the end of the list that is not the one before it.
fn put_each(sides: &[Side], list: &mut Vec<Side>) -> Result<(), NoMemory>
    ensures { OnOk result ((u v : ℕ) →
        has_side list.new.items u v ≡ (has_side list.old.items u v || has_side sides.now u v)) }
{
    for side in sides {
        put_new(*side, list)?;
    }
    Ok(())
}

/// Walks two lists in order one step: past the earlier of their next sides, which is put at the end of the list, or past both where they
/// are the same.
fn walk(
    one: &[Side],
    other: &[Side],
    i: usize,
    j: usize,
    list: &mut Vec<Side>,
) -> Result<(usize, usize), NoMemory>
    requires i_within { i < length one.now }
    requires j_within { j < length other.now }
    requires one_order { IsInOrder one.now }
    requires other_order { IsInOrder other.now }
    ensures { IfOk result (Walks one.now other.now i j list.old.items list.new.items) }
{
    let (s, t) = (one[i], other[j]);
    if rank(s) < rank(t) {
        put_new(s, list)?;
        return Ok((i + 1, j));
    }
    if rank(t) < rank(s) {
        put_new(t, list)?;
        return Ok((i, j + 1));
    }
    Ok((i + 1, j + 1))
}

/// The sides that two lists in order do not have equally often, in any order, and perhaps some of them more than once.
fn differences(alloc: Global, one: &[Side], other: &[Side]) -> Result<Vec<Side>, NoMemory>
    requires one_order { IsInOrder one.now }
    requires other_order { IsInOrder other.now }
    ensures { IfOk result
        (λ list. (u v : ℕ) → has_side list.items u v ≡ differs one.now other.now u v) }
{
    let mut list = Vec::new(alloc);
    let mut i = 0;
    let mut j = 0;
    while i < one.len() && j < other.len() {
        let (next_i, next_j) = walk(one, other, i, j, &mut list)?;
        i = next_i;
        j = next_j;
    }
    put_each(&one[i..], &mut list)?;
    put_each(&other[j..], &mut list)?;
    Ok(list)
}

/// Puts sides in order, each of them once.
fn put_once(sides: &mut Vec<Side>)
    requires { HasSmallEnds sides.old.items }
    ensures order { IsStrictlySortedBy edge_cmp sides.new.items }
    ensures same { (u v : ℕ) → has_side sides.new.items u v ≡ has_side sides.old.items u v }
{
    sides.sort_unstable_by_key(|side| rank(*side));
    sides.dedup();
}

/// Each two numbers between which the faces do not run as often one way as the other, the smaller first, in order.
fn unbalanced_sides(alloc: Global, faces: &[[u32; 3]], sides: &Sides) -> Result<Vec<Side>, NoMemory>
    requires { AreSidesOf faces.now sides.now }
    ensures order { IfOk result (λ list. IsStrictlySortedBy edge_cmp list.items) }
    ensures sides { IfOk result (λ list. HasUnbalanced list.items faces.now) }
{
    let mut list = differences(alloc, &sides.up, &sides.down)?;
    put_once(&mut list);
    Ok(list)
}

/// Whether both ends are vertices, of `n`.
fn are_vertices(n: usize, side: Side) -> bool
    ensures { result ≡ are_vertices n side }
{
    let (from, to) = side;
    is_vertex(n, from) && is_vertex(n, to)
}

/// The fault of the ends of a side.
fn unbalanced_fault(side: Side) -> ShapeFault
    ensures { result ≡ unbalanced_fault side }
{
    let (from, to) = side;
    ShapeFault::Unbalanced { from, to }
}

/// Puts those of the sides whose ends are vertices, of `n`, at the end of the list.
fn put_between(
    n: usize,
    sides: &[Side],
    most: usize,
    faults: &mut Vec<ShapeFault>,
) -> Result<(), NoMemory>
    ensures { Adds most result faults.old faults.new
        (map unbalanced_fault (filter (are_vertices n) sides.now)) }
{
    for side in sides {
        put_if(
            are_vertices(n, *side),
            unbalanced_fault(*side),
            most,
            faults,
        )?;
    }
    Ok(())
}

/// What the sides of the faces in order tell: whether none runs up twice, so that no two faces with three corners each are equal up to
/// rotation, as in a mesh whose edges have two faces each; and each two numbers between which the faces do not run as often one way as the
/// other, the smaller first, in order.
pub(crate) fn told_by_sides(
    alloc: Global,
    faces: &[[u32; 3]],
) -> Result<(bool, Vec<Side>), NoMemory>
    ensures once { IfOk result (λ told.
        told.0 ≡ true → repeated_from 1 faces.now ≡ None → all_doubled_from 1 faces.now ≡ []) }
    ensures order { IfOk result (λ told. IsStrictlySortedBy edge_cmp told.1.items) }
    ensures sides { IfOk result (λ told. HasUnbalanced told.1.items faces.now) }
{
    let sides = sides_in_order(alloc, faces)?;
    let once = run_up_once(&sides);
    let list = unbalanced_sides(alloc, faces, &sides)?;
    Ok((once, list))
}

/// Puts each two vertices, of `n`, between which the faces do not run as often one way as the other, at the end of the list, in order: those
/// of the two numbers that are vertices.
pub(crate) fn put_unbalanced(
    n: usize,
    faces: &[[u32; 3]],
    sides: &[Side],
    most: usize,
    faults: &mut Vec<ShapeFault>,
) -> Result<(), NoMemory>
    requires order { IsStrictlySortedBy edge_cmp sides.now }
    requires sides { HasUnbalanced sides.now faces.now }
    ensures { Adds most result faults.old faults.new
        (map unbalanced_fault (unbalanced_pairs n faces.now)) }
{
    put_between(n, sides, most, faults)
}
