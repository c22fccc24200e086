//! What may be amiss in the surface of a mesh, told from the mesh itself.
ghost use Rattle.std.specs.Prelude.{◌≡◌, ◌&&◌, ◌||◌, ◌==◌, ◌<◌, ◌≤◌, ◌^◌, ℕ, false, nat_lt, map, slice_get, IfOk};
ghost use Rattle.std.specs.Option.{option_map_or};
ghost use Rattle.std.specs.List.{count_by, list_any};
ghost use Rattle.mesh_base.specs.Sides.{runs, faces_running};
ghost use Rattle.edit_base.specs.Edges.{corners_at};
ghost use Rattle.track_run.specs.Surface.{each_corners, crowded_edges, opposite_faces, backward, has_opposite, surface_facts};
ghost use Rattle.track_run.specs.Surface.{runs_up_twice, rises, is_there_at, stands};
ghost use Rattle.track_run.specs.Marks.{is_marked, HasMark, end_number, corner_number, side_place, IsMet, AreMet, face_place, AreOppositesMarked};

use crate::listed_volume::is_inside_out;
use edit_acts::{are_equal, corners_at};
use grid_base::NoMemory;
use mesh_base::{Corners, FaceId, Surface, VertexId, edges_in_order, live_faces};
use outside_io::SurfaceFacts;
use std::alloc::Global;

// A table of marks has so many places for each face: a mark that two sides or faces share costs a question to the mesh.
const PLACES_FOR_EACH: usize = 32;
// A prime number.
const CORNER_NUMBERS: u64 = 1_048_573;

// The corners of some faces.
fn corners_of_each<S: Surface>(
    alloc: Global,
    mesh: &S,
    faces: &[FaceId],
) -> Result<Vec<Corners>, NoMemory>
    ensures { IfOk result (λ all. all.items ≡ map (λ f. corners_at (S.mesh mesh.now) f) faces.now) }
{
    let mut all = Vec::with_capacity(alloc, faces.len())?;
    for f in faces {
        all.push(corners_at(mesh, *f))?;
    }
    Ok(all)
}

// The corners of all faces, by rising id.
#[tactic(auto, using(crate::proofs::SurfaceSteps::corners_of_all))]
fn each_corners<S: Surface>(alloc: Global, mesh: &S) -> Result<Vec<Corners>, NoMemory>
    ensures { IfOk result (λ all. all.items ≡ each_corners (S.mesh mesh.now)) }
{
    let faces = live_faces(alloc, mesh)?;
    corners_of_each(alloc, mesh, faces.as_slice())
}

// Whether a vertex is above another, and more than one face runs from that one to it.
fn runs_up_twice<S: Surface>(mesh: &S, u: VertexId, v: VertexId) -> bool
    ensures { result ≡ runs_up_twice (S.mesh mesh.now) u v }
{
    u.0 < v.0 && mesh.runs(u, v) > 1
}

// Whether a place of a table has a mark; one outside has.
#[inline(always)]
fn is_marked(marks: &Vec<bool>, place: usize) -> bool
    ensures { result ≡ is_marked marks.now.items place }
{
    match marks.get(place) {
        Some(mark) => *mark,
        None => true,
    }
}

// Puts a mark at a place of a table.
#[inline(always)]
fn put_mark(marks: &mut Vec<bool>, place: usize)
    ensures { HasMark marks.old.items place marks.new.items }
{
    if place < marks.len() {
        marks[place] = true;
    }
}

// How many places a table of marks has.
fn places_for(faces: &[Corners]) -> usize
    ensures { 0 < result }
{
    faces.len().saturating_mul(PLACES_FOR_EACH).max(1)
}

// A number for the lower end of a side.
#[inline(always)]
fn end_number(v: VertexId) -> u64
    ensures value { result ≡ end_number v }
    ensures size { result ≤ 2 ^ 62 }
{
    u64::from(v.0) * u64::from(v.0) / 4
}

// Where a side has its mark, of so many places.
#[inline(always)]
fn side_place(places: usize, u: VertexId, v: VertexId) -> usize
    requires { 0 < places }
    ensures { result ≡ side_place places u v }
{
    ((end_number(u) + u64::from(v.0)) % places as u64) as usize
}

// Marks a side, if it runs up; whether more than one face runs along it then. The mesh is asked only where there was a mark.
#[inline(always)]
#[tactic(auto, using(crate::proofs::FirstSides::met_down, crate::proofs::FirstSides::met_again, crate::proofs::FirstSides::met_first))]
fn is_met_twice<S: Surface>(
    mesh: &S,
    marks: &mut Vec<bool>,
    places: usize,
    u: VertexId,
    v: VertexId,
) -> bool
    requires { 0 < places }
    ensures { result ≡ false →
        IsMet (S.mesh mesh.now) places marks.old.items u v marks.new.items }
{
    if u.0 >= v.0 {
        return false;
    }
    let place = side_place(places, u, v);
    if is_marked(marks, place) {
        return runs_up_twice(mesh, u, v);
    }
    put_mark(marks, place);
    false
}

// Marks the sides of a face that run up; whether more than one face runs along one of them.
#[inline(always)]
fn is_side_met_twice<S: Surface>(
    mesh: &S,
    marks: &mut Vec<bool>,
    places: usize,
    c: &Corners,
) -> bool
    requires { 0 < places }
    ensures { result ≡ false →
        AreMet (S.mesh mesh.now) places marks.old.items c.now marks.new.items }
{
    if is_met_twice(mesh, marks, places, c.first, c.second) {
        return true;
    }
    if is_met_twice(mesh, marks, places, c.second, c.third) {
        return true;
    }
    is_met_twice(mesh, marks, places, c.third, c.first)
}

// Whether an edge is crowded: of two faces that run up along it the second finds the mark of the first.
fn is_one_crowded<S: Surface>(
    mesh: &S,
    marks: &mut Vec<bool>,
    places: usize,
    faces: &[Corners],
) -> bool
    requires some { 0 < places }
    requires faces { faces.now ≡ each_corners (S.mesh mesh.now) }
    ensures { result ≡ false → crowded_edges (S.mesh mesh.now) ≡ 0 }
{
    for c in faces {
        if is_side_met_twice(mesh, marks, places, c) {
            return true;
        }
    }
    false
}

// Along how many of some edges more than one face runs up.
fn crowded_among<S: Surface>(mesh: &S, edges: &[(VertexId, VertexId)]) -> usize
    ensures { result ≡ count_by (λ e. nat_lt 1 (runs (S.mesh mesh.now) e.0 e.1)) edges.now }
{
    edges.iter().filter(|e| mesh.runs(e.0, e.1) > 1).count()
}

// How many edges are crowded.
fn crowded_edges<S: Surface>(alloc: Global, mesh: &S, faces: &[Corners]) -> Result<usize, NoMemory>
    requires { faces.now ≡ each_corners (S.mesh mesh.now) }
    ensures { IfOk result (λ n. n ≡ crowded_edges (S.mesh mesh.now)) }
{
    let places = places_for(faces);
    let mut marks = Vec::new(alloc);
    marks.resize(places, false)?;
    if !is_one_crowded(mesh, &mut marks, places, faces) {
        return Ok(0);
    }
    let edges = edges_in_order(alloc, mesh)?;
    Ok(crowded_among(mesh, edges.as_slice()))
}

// Whether the nth of the faces that run from the first corner to the second has the corners.
fn is_nth<S: Surface>(mesh: &S, c: &Corners, nth: u32) -> bool
    ensures { let m = S.mesh mesh.now in
        let nth_face = slice_get (faces_running m c.now.first c.now.second) nth in
        result ≡ option_map_or (λ f. is_there_at m c.now f) nth_face false }
{
    match mesh.run_face(c.first, c.second, nth) {
        Some(f) => are_equal(corners_at(mesh, f), *c),
        None => false,
    }
}

// Whether a face that runs from the first corner to the second has the corners.
fn stands<S: Surface>(mesh: &S, c: &Corners) -> bool
    ensures { result ≡ stands (S.mesh mesh.now) c.now }
{
    let count = mesh.runs(c.first, c.second);
    for nth in 0..count {
        if is_nth(mesh, c, nth) {
            return true;
        }
    }
    false
}

// Whether some face has the corners the other way round.
#[tactic(auto, using(crate::proofs::SurfaceSteps::opposite_stands))]
fn has_opposite<S: Surface>(mesh: &S, c: &Corners) -> bool
    ensures { result ≡ has_opposite (S.mesh mesh.now) c.now }
{
    let back = Corners {
        first: c.third,
        second: c.second,
        third: c.first,
    };
    stands(mesh, &back)
}

// Whether the corners rise from the least of them on: of two opposite faces one does.
fn rises(c: &Corners) -> bool
    ensures { result ≡ rises c.now }
{
    let up = c.first.0 < c.second.0;
    let on = c.second.0 < c.third.0;
    let back = c.third.0 < c.first.0;
    up && on || on && back || back && up
}

// A number for a corner. Sums of squares would be alike in the two kinds of faces of a regular mesh.
#[inline(always)]
fn corner_number(v: VertexId) -> u64
    ensures value { result ≡ corner_number v }
    ensures size { result ≤ 2 ^ 62 }
{
    let rest = u64::from(v.0) % CORNER_NUMBERS;
    rest * rest * rest
}

// Where the corners have their mark, of so many places: where those the other way round have it.
#[inline(always)]
fn face_place(places: usize, c: &Corners) -> usize
    requires { 0 < places }
    ensures { result ≡ face_place places c.now }
{
    let sum = corner_number(c.first) + corner_number(c.second) + corner_number(c.third);
    (sum % places as u64) as usize
}

// Marks the faces that do not rise: the opposites of all that do are among them.
fn mark_faces(marks: &mut Vec<bool>, places: usize, faces: &[Corners])
    requires { 0 < places }
    ensures { AreOppositesMarked places faces.now marks.new.items }
{
    for c in faces {
        if !rises(c) {
            put_mark(marks, face_place(places, c));
        }
    }
}

// Whether the corners rise and have an opposite. The mesh is asked only where there is a mark.
#[inline(always)]
fn rises_opposed<S: Surface>(mesh: &S, marks: &Vec<bool>, places: usize, c: &Corners) -> bool
    requires some { 0 < places }
    requires marked { AreOppositesMarked places (each_corners (S.mesh mesh.now)) marks.now.items }
    ensures { result ≡ rises c.now && has_opposite (S.mesh mesh.now) c.now }
{
    rises(c) && is_marked(marks, face_place(places, c)) && has_opposite(mesh, c)
}

// Whether one of some faces rises and has an opposite.
fn have_opposite<S: Surface>(mesh: &S, marks: &Vec<bool>, places: usize, faces: &[Corners]) -> bool
    requires some { 0 < places }
    requires marked { AreOppositesMarked places (each_corners (S.mesh mesh.now)) marks.now.items }
    ensures { let m = S.mesh mesh.now in
        result ≡ list_any (λ c. rises c && has_opposite m c) faces.now }
{
    for c in faces {
        if rises_opposed(mesh, marks, places, c) {
            return true;
        }
    }
    false
}

// How many of some faces have an opposite.
fn opposed_among<S: Surface>(mesh: &S, faces: &[Corners]) -> usize
    ensures { result ≡ count_by (λ c. has_opposite (S.mesh mesh.now) c) faces.now }
{
    faces.iter().filter(|c| has_opposite(mesh, *c)).count()
}

// How many faces have an opposite. Where no face that rises has one, none has.
fn opposite_faces<S: Surface>(alloc: Global, mesh: &S, faces: &[Corners]) -> Result<usize, NoMemory>
    requires { faces.now ≡ each_corners (S.mesh mesh.now) }
    ensures { IfOk result (λ n. n ≡ opposite_faces (S.mesh mesh.now)) }
{
    let places = places_for(faces);
    let mut marks = Vec::new(alloc);
    marks.resize(places, false)?;
    mark_faces(&mut marks, places, faces);
    if !have_opposite(mesh, &marks, places, faces) {
        return Ok(0);
    }
    Ok(opposed_among(mesh, faces))
}

/// What may be amiss in the surface of a mesh. Where nothing is, time is taken in proportion to the faces and to those at a vertex, as far as
/// the calls of the mesh do; else in proportion to the square of the most faces at an edge too.
pub(crate) fn surface_facts<S: Surface>(alloc: Global, mesh: &S) -> Result<SurfaceFacts, NoMemory>
    ensures { IfOk result (λ facts. facts ≡ surface_facts (S.mesh mesh.now)) }
{
    let faces = each_corners(alloc, mesh)?;
    let crowded = crowded_edges(alloc, mesh, faces.as_slice())?;
    let opposite = opposite_faces(alloc, mesh, faces.as_slice())?;
    let is_inside_out = is_inside_out(alloc, mesh, faces.as_slice())?;
    Ok(SurfaceFacts {
        is_empty: mesh.vertices() == 0,
        is_inside_out,
        crowded: crowded as u64,
        opposite: opposite as u64,
    })
}
