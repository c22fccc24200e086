ghost use Rattle.std.specs.Prelude.{◌≡◌, map};
ghost use Rattle.std.specs.List.Sorted.{IsStrictlySortedBy};
ghost use Rattle.std.specs.Ordering.{nat_cmp};
ghost use Rattle.grid_base.specs.Points.{position_of, displacement_of};
ghost use Rattle.mesh_base.specs.Mesh.{is_solid};
ghost use Rattle.mesh_base.specs.Placements.{rest_positions};
ghost use Rattle.mesh_base.specs.Shifts.{NameLive, shift_at};
ghost use Rattle.pair_scan.specs.Solids.{SolidsStay};
ghost use Rattle.pair_scan.specs.Named.{pair_named};
ghost use Rattle.step_impulse.specs.Passes.{with_shift_of, with_shifts_of, after_pair, IsAfterPass};

use crate::impulse::axis_impulse;
use grid_base::{NO_SHIFT, Point, Shift};
use mesh_base::{PairName, ShiftOf, Shifts, Surface, VertexId, point_of};
use pair_scan::{Pairs, five_of, place_of};

// The shift of a vertex; none, where none is named.
fn shift_at(shifts: &[ShiftOf], v: VertexId) -> Shift
    requires { IsStrictlySortedBy nat_cmp (map (λ s. s.v) shifts.now) }
    ensures { displacement_of result ≡ shift_at shifts.now v }
{
    match place_of(shifts, v) {
        Some(place) => match shifts.get(place) {
            Some(s) => s.by,
            None => NO_SHIFT,
        },
        None => NO_SHIFT,
    }
}

// Gives a vertex another shift, where one is named.
fn put(shifts: &mut Shifts, v: VertexId, by: Shift)
    requires { IsStrictlySortedBy nat_cmp (map (λ s. s.v) shifts.old) }
    ensures { shifts.new ≡ with_shift_of v (displacement_of by) shifts.old }
{
    if let Some(place) = place_of(shifts.as_slice(), v) {
        shifts.set(place, ShiftOf { v, by });
    }
}

// Where the five stand.
fn five_points<S: Surface>(mesh: &S, ids: &[VertexId; 5]) -> [Point; 5]
    ensures { map position_of result ≡ map (rest_positions (S.mesh mesh.now)) ids.now }
{
    [
        point_of(mesh, ids[0]),
        point_of(mesh, ids[1]),
        point_of(mesh, ids[2]),
        point_of(mesh, ids[3]),
        point_of(mesh, ids[4]),
    ]
}

// Which of the five are solid.
fn five_marks<S: Surface>(mesh: &S, ids: &[VertexId; 5]) -> [bool; 5]
    ensures { result ≡ map (is_solid (S.mesh mesh.now)) ids.now }
{
    [
        mesh.solid(ids[0]),
        mesh.solid(ids[1]),
        mesh.solid(ids[2]),
        mesh.solid(ids[3]),
        mesh.solid(ids[4]),
    ]
}

// The shifts of the five.
fn five_shifts(shifts: &[ShiftOf], ids: &[VertexId; 5]) -> [Shift; 5]
    requires { IsStrictlySortedBy nat_cmp (map (λ s. s.v) shifts.now) }
    ensures { map displacement_of result ≡ map (shift_at shifts.now) ids.now }
{
    [
        shift_at(shifts, ids[0]),
        shift_at(shifts, ids[1]),
        shift_at(shifts, ids[2]),
        shift_at(shifts, ids[3]),
        shift_at(shifts, ids[4]),
    ]
}

// Gives the five other shifts.
fn put_five(shifts: &mut Shifts, ids: &[VertexId; 5], by: &[Shift; 5])
    requires { IsStrictlySortedBy nat_cmp (map (λ s. s.v) shifts.old) }
    ensures { shifts.new ≡ with_shifts_of ids.now (map displacement_of by.now) shifts.old }
{
    for k in 0..5 {
        put(shifts, ids[k], by[k]);
    }
}

// One impulse on a pair of the mesh.
fn impulse_on<S: Surface>(mesh: &S, name: &PairName, shifts: &mut Shifts)
    requires { IsStrictlySortedBy nat_cmp (map (λ s. s.v) shifts.old) }
    ensures { shifts.new ≡ after_pair (S.mesh mesh.now) shifts.old
        (pair_named (S.mesh mesh.now) name.now) }
{
    let ids = five_of(mesh, name);
    let start = five_points(mesh, &ids);
    let fixed = five_marks(mesh, &ids);
    let mut by = five_shifts(shifts.as_slice(), &ids);
    axis_impulse(&start, &ids, &fixed, &mut by);
    put_five(shifts, &ids, &by);
}

/// One impulse pass: an impulse on each of the pairs in order, where the vertices of the mesh stand, each on the shifts as they
/// are by then. The solid vertices of the mesh are the fixed ones. The shifts name the live vertices, by rising id. Takes no
/// memory.
///
/// That collisions of a step are met by impulses first is after Bridson, Fedkiw and Anderson (2002) and El Topo (Brochu and
/// Bridson 2009).
pub fn impulse_pass<S: Surface>(mesh: &S, hits: &Pairs, shifts: &mut Shifts)
    requires { NameLive (S.mesh mesh.now) shifts.old }
    ensures after { IsAfterPass (S.mesh mesh.now) hits.now shifts.old shifts.new }
    ensures names { NameLive (S.mesh mesh.now) shifts.new }
    // A solid vertex that had no shift has none.
    ensures solid { SolidsStay (S.mesh mesh.now) shifts.old shifts.new }
{
    for name in hits.as_slice() {
        impulse_on(mesh, name, shifts);
    }
}
