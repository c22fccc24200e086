//! Lists that are kept from step to step: when they serve. What they find is what a scan of all pairs does, by contract.
ghost use Rattle.std.specs.Prelude.{◌≡◌, true, IsTrue, IfOk};
ghost use Rattle.grid_base.specs.declared.TheConstants.{BOX};
ghost use Rattle.grid_base.specs.Points.{displacement_of, is_within};
ghost use Rattle.grid_base.specs.Triples.{plus};
ghost use Rattle.mesh_base.specs.Mesh.{is_solid};
ghost use Rattle.mesh_base.specs.Placements.{origin, rest_positions};
ghost use Rattle.mesh_base.specs.Shifts.{NameLive, end_in_box};
ghost use Rattle.pair_scan.specs.Solids.{SolidsRest};

use crate::meshes::{beside, many};
use crate::same::assert_same;
use grid_base::{NoMemory, Shift, moved};
use mesh_base::{FaceId, ShiftOf, Shifts, Surface, VertexId, live_vertices};
use pair_scan::{RestingVertices, first_meeting};
use std::alloc::Global;
use std::process::Abort;
use std::test::Fail;
use step_lists::{KeptList, StepLists};

// A shift of a vertex along x and up, and none of a solid one.
fn shift_of<S: Surface>(mesh: &S, v: VertexId, x: i32, y: i32, rt: &impl Abort) -> ShiftOf
    ensures named { result.v ≡ v }
    ensures in_box { is_within BOX
        (plus (rest_positions (S.mesh mesh.now) v) (displacement_of result.by)) ≡ true }
    ensures solid { is_solid (S.mesh mesh.now) v ≡ true → displacement_of result.by ≡ origin }
{
    let from = mesh.point(v).expect(rt, "a live vertex");
    let (x, y) = if mesh.solid(v) { (0, 0) } else { (x, y) };
    let by = Shift::new(x, y, 0).expect(rt, "a shift within the limit");
    assert!(rt; moved(from, by).is_some());
    ShiftOf { v, by }
}

// What is asked of a vertex; the ninth is asked what the first is.
fn along(xs: &[i32; 8], v: VertexId) -> i32 {
    xs[(v.0 % 8) as usize]
}

pub(crate) fn shifts_of<S: Surface>(
    alloc: Global,
    mesh: &S,
    xs: &[i32; 8],
    ys: &[i32; 8],
    rt: &impl Abort,
) -> Result<Shifts, NoMemory>
    ensures named { IfOk result (NameLive (S.mesh mesh.now)) }
    ensures in_box { IfOk result (λ by. IsTrue (end_in_box (S.mesh mesh.now) by)) }
    ensures solid { IfOk result (SolidsRest (S.mesh mesh.now)) }
{
    let ids = live_vertices(alloc, mesh)?;
    let mut by = Shifts::new(alloc);
    for v in ids.as_slice() {
        by.push(shift_of(mesh, *v, along(xs, *v), along(ys, *v), rt))?;
    }
    Ok(by)
}

// Of two tetrahedra beside each other a list is made where they stand, with a skin of 8. What is asked along x of the vertex 8
// and then of each from 1 to 7, and how many pairs fail; None, where the list does not serve.
type Row = ([i32; 8], Option<usize>);

const FIRST: [Row; 5] = [
    ([0, 0, 0, 0, 0, -7, 0, 0], Some(0)),
    // the vertex 5 ends in a face
    ([0, 0, 0, 0, 0, -8, 0, 0], Some(3)),
    // at the end the vertices have drifted apart by more than the skin, though not at the start
    ([0, 0, 0, 0, 0, -9, 0, 0], None),
    ([-40, 0, 0, 0, 0, -40, -40, -40], None),
    // a shift that all have in common
    ([-40; 8], Some(0)),
];

// The shift of the vertex 5 that follows.
const SINCE: [i32; 8] = [0, 0, 0, 0, 0, -7, 0, 0];

// The same as in the first rows, where the vertex 5 has moved so since.
const THEN: [Row; 4] = [
    ([0; 8], Some(0)),
    ([0, 0, 0, 0, 0, -1, 0, 0], Some(3)),
    ([0, 0, 0, 0, 0, -2, 0, 0], None),
    ([1, 1, 1, 1, 1, -1, 1, 1], None),
];

// How many pairs fail by the list, where it serves.
fn listed<S: Surface>(
    alloc: Global,
    kept: &KeptList,
    mesh: &S,
    xs: &[i32; 8],
    rt: &impl Abort,
) -> Result<Option<usize>, NoMemory> {
    let met = first_meeting(alloc, mesh)?;
    assert!(rt; met.is_none());
    let by = shifts_of(alloc, mesh, xs, &[0; 8], rt)?;
    let found = kept.failing_by(alloc, mesh, &by, 6)?;
    Ok(found.map(|pairs| pairs.len()))
}

fn assert_rows<S: Surface>(
    alloc: Global,
    kept: &KeptList,
    mesh: &S,
    rows: &[Row],
    rt: &impl Abort,
) -> Result<(), NoMemory> {
    for (i, (xs, wanted)) in rows.iter().enumerate() {
        let found = listed(alloc, kept, mesh, xs, rt)?;
        assert_same(rt, &(i, found), &(i, *wanted));
    }
    Ok(())
}

fn move_all<S: Surface>(mesh: &mut S, by: &[ShiftOf], rt: &impl Abort) -> Result<(), NoMemory> {
    for s in by {
        let from = mesh.point(s.v).expect(rt, "a live vertex");
        let to = moved(from, s.by).expect(rt, "an end in the box");
        mesh.place(s.v, to)?;
    }
    Ok(())
}

fn move_since<S: Surface>(alloc: Global, mesh: &mut S, rt: &impl Abort) -> Result<(), NoMemory> {
    let by = shifts_of(alloc, mesh, &SINCE, &[0; 8], rt)?;
    move_all(mesh, by.as_slice(), rt)
}

fn assert_drift<S: Surface>(
    alloc: Global,
    kept: &KeptList,
    mesh: &mut S,
    rt: &impl Abort,
) -> Result<(), NoMemory> {
    assert_rows(alloc, kept, mesh, &FIRST, rt)?;
    move_since(alloc, mesh, rt)?;
    assert_rows(alloc, kept, mesh, &THEN, rt)
}

#[test]
fn a_list_serves_while_vertices_drift_alike(rt: HostRuntime) -> Result<(), Fail> {
    let mut mesh = beside(rt.alloc(), 0, &rt)?;
    let kept = KeptList::of(rt.alloc(), &mesh, &RestingVertices { mesh: &mesh }, 8)?;
    assert_drift(rt.alloc(), &kept, &mut mesh, &rt)?;
    Ok(())
}

// What is asked in each step.
const STEP: [i32; 8] = [2, 0, 1, -2, 0, 2, -1, 0];

// Whether there is a list after the step: from the second look at the same faces on. After the third step a face is dropped; the
// list served two steps at most, so the next waits for two.
const HAS_LIST: [bool; 6] = [false, true, true, false, false, true];

// Whether there is a list after the next step.
fn stepped<S: Surface>(
    alloc: Global,
    lists: &mut StepLists,
    mesh: &mut S,
    rt: &impl Abort,
) -> Result<bool, NoMemory> {
    let met = first_meeting(alloc, mesh)?;
    assert!(rt; met.is_none());
    let by = shifts_of(alloc, mesh, &STEP, &[0; 8], rt)?;
    let hits = lists.asked_hits(alloc, mesh, &by, 4)?;
    assert_same(rt, &hits.len(), &0);
    let has_list = lists.of_mesh(alloc, mesh)?.kept.is_some();
    move_all(mesh, by.as_slice(), rt)?;
    Ok(has_list)
}

fn drop_face<S: Surface>(mesh: &mut S, f: FaceId, rt: &impl Abort) -> Result<(), NoMemory> {
    let _corners = mesh.corners(f).expect(rt, "a live face");
    mesh.drop_face(f)
}

fn assert_steps<S: Surface>(alloc: Global, mesh: &mut S, rt: &impl Abort) -> Result<(), NoMemory> {
    let mut lists = StepLists::none();
    for (k, has_list) in HAS_LIST.iter().enumerate() {
        let found = stepped(alloc, &mut lists, mesh, rt)?;
        assert_same(rt, &(k, found), &(k, *has_list));
        if k == 2 {
            drop_face(mesh, FaceId(1), rt)?;
        }
    }
    Ok(())
}

#[test]
fn a_list_is_kept_from_step_to_step(rt: HostRuntime) -> Result<(), Fail> {
    let mut mesh = many(rt.alloc(), &rt)?;
    assert_steps(rt.alloc(), &mut mesh, &rt)?;
    Ok(())
}
