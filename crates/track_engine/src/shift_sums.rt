ghost use Rattle.std.specs.Prelude.{◌≡◌, ◌↔◌, ◌≤◌, ◌+ℤ◌, unsigned_abs, false, IsSome, IfSome, IfOk, OnOk};
ghost use Rattle.grid_base.specs.declared.TheConstants.{SHIFT_MAX};
ghost use Rattle.grid_base.specs.Triples.{IsWithin, plus};
ghost use Rattle.grid_base.specs.Points.{displacement_of};
ghost use Rattle.mesh_base.specs.Mesh.{IsLiveVertex, is_solid};
ghost use Rattle.track_engine.specs.State.{still_asked, asked_in};
ghost use Rattle.track_engine.specs.Effects.{moves, sum_of_one};
ghost use Rattle.track_engine.specs.Shifting.{SumsOne, Sums, AsksNow, IsPutIn, AsksOfGiven, stirs, asks};

use crate::asked_shifts::AskedShifts;
use grid_base::{NO_SHIFT, NoMemory, SHIFT_MAX, Shift};
use mesh_base::{ShiftOf, Shifts, Surface, UseWhy, VertexId, live_vertices};
use std::alloc::Global;

// The sum of two components.
fn component_sum(a: i32, b: i32) -> i32
    requires a_fits { unsigned_abs a ≤ SHIFT_MAX }
    requires b_fits { unsigned_abs b ≤ SHIFT_MAX }
    ensures { result ≡ a +ℤ b }
{
    a + b
}

// The sum of two shifts, where it is one.
fn sum(a: Shift, b: Shift) -> Option<Shift>
    ensures made { IfSome result
        (λ s. displacement_of s ≡ plus (displacement_of a) (displacement_of b)) }
    ensures some { IsSome result ↔ IsWithin SHIFT_MAX
        (plus (displacement_of a) (displacement_of b)) }
{
    Shift::new(
        component_sum(a.x, b.x),
        component_sum(a.y, b.y),
        component_sum(a.z, b.z),
    )
}

/// The same of a vertex with a shift added, unless it is solid; None where the sum is above the limit.
pub(crate) fn summed_unless_solid<S: Surface>(mesh: &S, s: ShiftOf, by: Shift) -> Option<ShiftOf>
    ensures { SumsOne (S.mesh mesh.now) (λ v. by) s result }
{
    if mesh.solid(s.v) {
        return Some(s);
    }
    match sum(s.by, by) {
        Some(by) => Some(ShiftOf { v: s.v, by }),
        None => None,
    }
}

/// The shifts with one added to each but those of solid vertices, or the first vertex for which the sum is above the limit.
pub(crate) fn all_summed<S: Surface>(
    alloc: Global,
    mesh: &S,
    asked: &[ShiftOf],
    by: Shift,
) -> Result<Result<Shifts, VertexId>, NoMemory>
    ensures { IfOk result (Sums (S.mesh mesh.now) (λ v. by) asked.now) }
{
    let mut shifts = Shifts::new(alloc);
    for s in asked {
        match summed_unless_solid(mesh, *s, by) {
            Some(summed) => shifts.push(summed)?,
            None => return Ok(Err(s.v)),
        }
    }
    Ok(Ok(shifts))
}

// What is asked of a vertex, and nothing of one that is solid.
fn still_asked<S: Surface>(mesh: &S, asked: &AskedShifts, v: VertexId) -> ShiftOf
    ensures { result ≡ still_asked (S.mesh mesh.now) asked.now v }
{
    if mesh.solid(v) {
        return ShiftOf { v, by: NO_SHIFT };
    }
    asked.asked_of(v)
}

/// What is asked of each live vertex of a mesh, by rising id, and nothing of one that is solid.
pub fn asked_in<S: Surface>(
    alloc: Global,
    mesh: &S,
    asked: &AskedShifts,
) -> Result<Shifts, NoMemory>
    ensures { IfOk result (λ shifts. shifts ≡ asked_in (S.mesh mesh.now) asked.now) }
{
    let ids = live_vertices(alloc, mesh)?;
    let mut shifts = Shifts::new(alloc);
    for v in ids.as_slice() {
        shifts.push(still_asked(mesh, asked, *v))?;
    }
    Ok(shifts)
}

/// The same is asked, and of a vertex that is to come nothing, as it is already: so it takes one look at the last that is named.
pub(crate) fn keep_asked<S: Surface>(
    alloc: Global,
    mesh: &S,
    asked: &mut AskedShifts,
) -> Result<(), NoMemory>
    ensures given { OnOk result (AsksOfGiven (S.mesh mesh.now) asked.new) }
    ensures same { let m = S.mesh mesh.now in
        OnOk result (asked_in m asked.new ≡ asked_in m asked.old) }
{
    if asked.are_below(VertexId(mesh.next_vertex())) {
        return Ok(());
    }
    let all = asked_in(alloc, mesh, asked)?;
    *asked = AskedShifts::of_all(all);
    Ok(())
}

// Asks a shift of a vertex. Where it would stand between others, each live vertex is named first.
fn put_in<S: Surface>(
    alloc: Global,
    mesh: &S,
    asked: &mut AskedShifts,
    s: &ShiftOf,
) -> Result<(), NoMemory>
    requires live { IsLiveVertex (S.mesh mesh.now) s.now.v }
    requires free { is_solid (S.mesh mesh.now) s.now.v ≡ false }
    ensures { OnOk result (IsPutIn (S.mesh mesh.now) s.now asked.old asked.new) }
{
    if asked.put(s)? {
        return Ok(());
    }
    let all = asked_in(alloc, mesh, asked)?;
    *asked = AskedShifts::of_all(all);
    let _there = asked.put(s)?;
    Ok(())
}

/// Adds a shift to what is asked of one vertex, or answers why it can't be added.
pub(crate) fn sum_one<S: Surface>(
    alloc: Global,
    mesh: &S,
    asked: &mut AskedShifts,
    v: u32,
    by: Shift,
) -> Result<Option<UseWhy>, NoMemory>
    ensures sum { let m = S.mesh mesh.now in
        IfOk result (AsksNow (sum_of_one m v by (asked_in m asked.old)) (asked_in m asked.new)) }
    ensures left { IfOk result (λ refused. IsSome refused → asked.new ≡ asked.old) }
{
    let id = VertexId(v);
    if mesh.point(id).is_none() {
        return Ok(Some(UseWhy::NoVertex { v }));
    }
    if mesh.solid(id) {
        return Ok(Some(UseWhy::Solid { v }));
    }
    let was = asked.asked_of(id);
    let Some(by) = sum(was.by, by) else {
        return Ok(Some(UseWhy::ShiftRange { v }));
    };
    let now = ShiftOf { v: id, by };
    put_in(alloc, mesh, asked, &now)?;
    Ok(None)
}

/// Whether the shift moves its vertex.
pub(crate) fn moves(s: &ShiftOf) -> bool
    ensures { result ≡ moves s.now }
{
    s.by.x != 0 || s.by.y != 0 || s.by.z != 0
}

// Whether the shift moves its vertex, which lives and is not solid.
fn stirs<S: Surface>(mesh: &S, s: &ShiftOf) -> bool
    ensures { result ≡ stirs (S.mesh mesh.now) s.now }
{
    moves(s) && mesh.point(s.v).is_some() && !mesh.solid(s.v)
}

/// Whether a live vertex that is not solid is asked to move. Takes no memory.
pub(crate) fn asks<S: Surface>(mesh: &S, asked: &AskedShifts) -> bool
    ensures { result ≡ asks (asked_in (S.mesh mesh.now) asked.now) }
{
    for s in asked.as_slice() {
        if stirs(mesh, s) {
            return true;
        }
    }
    false
}
