//! What the vertices of a round move by, and its blocks.
ghost use Rattle.std.specs.Prelude.{◌≡◌, ℕ, ◌==◌, ◌&&◌, ◌<◌, ◌≤◌, ◌++◌, [], ◌∷◌, nat_lt, map, length, IfOk, OnOk, IsTrue};
ghost use Rattle.std.specs.List.{filter};
ghost use Rattle.std.specs.List.Sorted.{IsStrictlySortedBy};
ghost use Rattle.std.specs.Ordering.{nat_cmp};
ghost use Rattle.grid_base.specs.declared.TheConstants.{VERTICES_MAX};
ghost use Rattle.step_zones.specs.declared.totals.Total.{Total};
ghost use Rattle.step_zones.specs.Chains.{is_one_of};
ghost use Rattle.step_zones.specs.Ranks.{label_by, AreNamed};
ghost use Rattle.step_zones.specs.Totals.{labelled_shifts, labelled_blocks};

use crate::totals::{Total, shift_by, totals_of};
use grid_base::{Items, NoMemory};
use mesh_base::{Ids, ShiftOf, Shifts, Surface, VertexId};
use pair_scan::place_of;
use std::alloc::Global;

/// Blocks of two or more vertices, each by rising id, in order of their least vertices.
pub type Blocks = Items<Ids>;

// What stands beside a vertex that is named.
fn total_at(asked: &[ShiftOf], totals: &[Total], v: VertexId) -> Total
    requires rising { IsStrictlySortedBy nat_cmp (map (λ s. s.v) asked.now) }
    requires each { length totals.now ≡ length asked.now }
    requires named { IsTrue (is_one_of (map (λ s. s.v) asked.now) v) }
    ensures { (f : ℕ → Total) → totals.now ≡ map (λ s. f s.v) asked.now → result ≡ f v }
{
    match place_of(asked, v) {
        Some(place) => totals[place],
        None => unreachable!(),
    }
}

/// What each vertex moves by in a round with these labels.
pub(crate) fn zone_shifts<S: Surface>(
    alloc: Global,
    mesh: &S,
    asked: &[ShiftOf],
    labels: &[VertexId],
) -> Result<Shifts, NoMemory>
    requires rising { IsStrictlySortedBy nat_cmp (map (λ s. s.v) asked.now) }
    requires each { length labels.now ≡ length asked.now }
    requires few { length asked.now ≤ VERTICES_MAX }
    requires named { AreNamed asked.now labels.now }
    ensures { IfOk result
        (λ shifts. shifts ≡ labelled_shifts (S.mesh mesh.now) asked.now labels.now) }
{
    let totals = totals_of(alloc, mesh, asked, labels)?;
    let mut shifts = Shifts::new(alloc);
    for (i, s) in asked.iter().enumerate() {
        let total = total_at(asked, &totals, labels[i]);
        shifts.push(ShiftOf {
            v: s.v,
            by: shift_by(total, s.by),
        })?;
    }
    Ok(shifts)
}

// The vertices with a label.
fn members(
    alloc: Global,
    asked: &[ShiftOf],
    labels: &[VertexId],
    l: VertexId,
) -> Result<Ids, NoMemory>
    requires rising { IsStrictlySortedBy nat_cmp (map (λ s. s.v) asked.now) }
    requires each { length labels.now ≡ length asked.now }
    ensures { IfOk result
        (λ ids. ids ≡ filter
        (λ v. label_by asked.now labels.now v == l) (map (λ s. s.v) asked.now)) }
{
    let mut ids = Ids::new(alloc);
    for (i, s) in asked.iter().enumerate() {
        if labels[i] == l {
            ids.push(s.v)?;
        }
    }
    Ok(ids)
}

// Puts the vertices with a label at the end.
fn push_members(
    alloc: Global,
    asked: &[ShiftOf],
    labels: &[VertexId],
    l: VertexId,
    blocks: &mut Blocks,
) -> Result<(), NoMemory>
    requires rising { IsStrictlySortedBy nat_cmp (map (λ s. s.v) asked.now) }
    requires each { length labels.now ≡ length asked.now }
    ensures { OnOk result (blocks.new ≡ blocks.old ++ filter
        (λ v. label_by asked.now labels.now v == l) (map (λ s. s.v) asked.now) ∷ []) }
{
    let ids = members(alloc, asked, labels, l)?;
    blocks.push(ids)
}

// Whether a vertex is the least of a block of two or more.
fn is_head(l: VertexId, v: VertexId, t: Total) -> bool
    ensures { result ≡ ((l == v) && nat_lt 1 t.count) }
{
    l == v && 1 < t.count
}

/// The blocks of two or more of a round with these labels. Takes time in proportion to the number of vertices for each of them.
pub(crate) fn blocks_of<S: Surface>(
    alloc: Global,
    mesh: &S,
    asked: &[ShiftOf],
    labels: &[VertexId],
) -> Result<Blocks, NoMemory>
    requires rising { IsStrictlySortedBy nat_cmp (map (λ s. s.v) asked.now) }
    requires each { length labels.now ≡ length asked.now }
    requires few { length asked.now ≤ VERTICES_MAX }
    ensures { IfOk result
        (λ blocks. blocks ≡ labelled_blocks (S.mesh mesh.now) asked.now labels.now) }
{
    let totals = totals_of(alloc, mesh, asked, labels)?;
    let mut blocks = Blocks::new(alloc);
    for (i, s) in asked.iter().enumerate() {
        if is_head(labels[i], s.v, totals[i]) {
            push_members(alloc, asked, labels, s.v, &mut blocks)?;
        }
    }
    Ok(blocks)
}
