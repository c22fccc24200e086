//! The tracker of a handle is read.
ghost use Rattle.std.specs.Prelude.{◌≡◌, ◌≢◌};
ghost use Rattle.track_held.specs.Events.{log_events};
ghost use Rattle.track_held.specs.Reading.{named_points, named_faces, solid_vertices, star_of, beside_edge};
ghost use Rattle.topo_library.specs.Components.{told_components};
ghost use Rattle.topo_library.specs.Codes.{tracker_state, lines_told, HasPut, HolderHasPut, HasForgotten, HolderHasForgotten, HasKept, HolderHasKeptBy, HasTakenLog, HolderHasTakenLog, counts_of, HolderHasCounted};

use crate::codes::{DONE, EMPTY, NO_MEMORY, RANGE};
use crate::components::{TopoComponent, told_components};
use crate::handle::Topo;
use crate::results::TopoCounted;
use crate::tracker::Tracker;
use mesh_base::{Surface, VertexId};
use std::alloc::Global;
use track_held::{
    Event, NamedFace, NamedPoint, beside_edge, events_of, named_faces, named_points, put_rows,
    solid_vertices, star_of,
};

// Puts rows into a buffer, where all of them fit, and tells their number.
fn put<T: Copy + Drop>(rows: &[T], into: &mut [T], size: &mut usize) -> u32
    ensures puts { HasPut rows.now into.old into.new size.old size.new result }
    ensures needs_none { result ≢ 1 }
{
    *size = rows.len();
    if put_rows(rows, into) { DONE } else { RANGE }
}

// Puts the live vertices of a tracker into a buffer.
fn put_points(alloc: Global, tracker: &Tracker, into: &mut [NamedPoint], size: &mut usize) -> u32
    ensures { HasPut (named_points (tracker_state tracker.now).mesh)
        into.old into.new size.old size.new result }
{
    match named_points(alloc, tracker.held.mesh()) {
        Ok(rows) => put(rows.as_slice(), into, size),
        Err(_) => NO_MEMORY,
    }
}

// Puts the live faces of a tracker into a buffer.
fn put_faces(alloc: Global, tracker: &Tracker, into: &mut [NamedFace], size: &mut usize) -> u32
    ensures { HasPut (named_faces (tracker_state tracker.now).mesh)
        into.old into.new size.old size.new result }
{
    match named_faces(alloc, tracker.held.mesh()) {
        Ok(rows) => put(rows.as_slice(), into, size),
        Err(_) => NO_MEMORY,
    }
}

/// Puts the live vertices, by rising id, into a buffer.
pub(crate) fn read_points(
    alloc: Global,
    topo: &mut Topo,
    into: &mut [NamedPoint],
    size: &mut usize,
) -> u32
    ensures { HolderHasPut (λ t. named_points (tracker_state t).mesh)
        topo.old.owned.value topo.new.owned.value into.old into.new size.old size.new result }
{
    let Some(b) = topo.take(alloc) else {
        return EMPTY;
    };
    let code = put_points(alloc, b.as_ref(), into, size);
    topo.give(b);
    code
}

/// Puts the live faces, by rising id, into a buffer.
pub(crate) fn read_faces(
    alloc: Global,
    topo: &mut Topo,
    into: &mut [NamedFace],
    size: &mut usize,
) -> u32
    ensures { HolderHasPut (λ t. named_faces (tracker_state t).mesh)
        topo.old.owned.value topo.new.owned.value into.old into.new size.old size.new result }
{
    let Some(b) = topo.take(alloc) else {
        return EMPTY;
    };
    let code = put_faces(alloc, b.as_ref(), into, size);
    topo.give(b);
    code
}

// Puts the faces at a vertex of a tracker into a buffer.
fn put_star(
    alloc: Global,
    tracker: &Tracker,
    v: u32,
    into: &mut [NamedFace],
    size: &mut usize,
) -> u32
    ensures { HasPut (star_of (tracker_state tracker.now).mesh v)
        into.old into.new size.old size.new result }
{
    match star_of(alloc, tracker.held.mesh(), VertexId(v)) {
        Ok(rows) => put(rows.as_slice(), into, size),
        Err(_) => NO_MEMORY,
    }
}

// Puts the faces beside an edge of a tracker into a buffer.
fn put_beside(
    alloc: Global,
    tracker: &Tracker,
    a: u32,
    b: u32,
    into: &mut [NamedFace],
    size: &mut usize,
) -> u32
    ensures { HasPut (beside_edge (tracker_state tracker.now).mesh a b)
        into.old into.new size.old size.new result }
{
    match beside_edge(alloc, tracker.held.mesh(), VertexId(a), VertexId(b)) {
        Ok(rows) => put(rows.as_slice(), into, size),
        Err(_) => NO_MEMORY,
    }
}

/// Puts the faces at a vertex, by rising id, into a buffer.
pub(crate) fn read_star(
    alloc: Global,
    topo: &mut Topo,
    v: u32,
    into: &mut [NamedFace],
    size: &mut usize,
) -> u32
    ensures { HolderHasPut (λ t. star_of (tracker_state t).mesh v)
        topo.old.owned.value topo.new.owned.value into.old into.new size.old size.new result }
{
    let Some(b) = topo.take(alloc) else {
        return EMPTY;
    };
    let code = put_star(alloc, b.as_ref(), v, into, size);
    topo.give(b);
    code
}

/// Puts the faces beside an edge into a buffer.
pub(crate) fn read_beside(
    alloc: Global,
    topo: &mut Topo,
    ends: (u32, u32),
    into: &mut [NamedFace],
    size: &mut usize,
) -> u32
    ensures { HolderHasPut (λ t. beside_edge (tracker_state t).mesh ends.0 ends.1)
        topo.old.owned.value topo.new.owned.value into.old into.new size.old size.new result }
{
    let Some(b) = topo.take(alloc) else {
        return EMPTY;
    };
    let code = put_beside(alloc, b.as_ref(), ends.0, ends.1, into, size);
    topo.give(b);
    code
}

// Puts the solid vertices of a tracker into a buffer.
fn put_solids(alloc: Global, tracker: &Tracker, into: &mut [u32], size: &mut usize) -> u32
    ensures { HasPut (solid_vertices (tracker_state tracker.now).mesh)
        into.old into.new size.old size.new result }
{
    match solid_vertices(alloc, tracker.held.mesh()) {
        Ok(rows) => put(rows.as_slice(), into, size),
        Err(_) => NO_MEMORY,
    }
}

/// Puts the solid vertices, by rising id, into a buffer.
pub(crate) fn read_solids(alloc: Global, topo: &mut Topo, into: &mut [u32], size: &mut usize) -> u32
    ensures { HolderHasPut (λ t. solid_vertices (tracker_state t).mesh)
        topo.old.owned.value topo.new.owned.value into.old into.new size.old size.new result }
{
    let Some(b) = topo.take(alloc) else {
        return EMPTY;
    };
    let code = put_solids(alloc, b.as_ref(), into, size);
    topo.give(b);
    code
}

// Puts the components of a tracker's mesh into a buffer.
fn put_components(
    alloc: Global,
    tracker: &Tracker,
    into: &mut [TopoComponent],
    size: &mut usize,
) -> u32
    ensures { HasPut (told_components (tracker_state tracker.now).mesh)
        into.old into.new size.old size.new result }
{
    match told_components(alloc, tracker.held.mesh()) {
        Ok(rows) => put(rows.as_slice(), into, size),
        Err(_) => NO_MEMORY,
    }
}

/// Puts the components, in order of their least faces, into a buffer.
pub(crate) fn read_components(
    alloc: Global,
    topo: &mut Topo,
    into: &mut [TopoComponent],
    size: &mut usize,
) -> u32
    ensures { HolderHasPut (λ t. told_components (tracker_state t).mesh)
        topo.old.owned.value topo.new.owned.value into.old into.new size.old size.new result }
{
    let Some(b) = topo.take(alloc) else {
        return EMPTY;
    };
    let code = put_components(alloc, b.as_ref(), into, size);
    topo.give(b);
    code
}

// Puts what a tracker has told into a buffer, as numbers.
fn put_events(alloc: Global, tracker: &Tracker, into: &mut [Event], size: &mut usize) -> u32
    ensures { HasPut (log_events (lines_told tracker.now)) into.old into.new size.old size.new result }
{
    match events_of(alloc, tracker.held.lines()) {
        Ok(events) => put(events.as_slice(), into, size),
        Err(_) => NO_MEMORY,
    }
}

/// Puts what was told into a buffer, as numbers. It stays told.
pub(crate) fn read_events(
    alloc: Global,
    topo: &mut Topo,
    into: &mut [Event],
    size: &mut usize,
) -> u32
    ensures { HolderHasPut (λ t. log_events (lines_told t))
        topo.old.owned.value topo.new.owned.value into.old into.new size.old size.new result }
{
    let Some(b) = topo.take(alloc) else {
        return EMPTY;
    };
    let code = put_events(alloc, b.as_ref(), into, size);
    topo.give(b);
    code
}

// Keeps the lines that a tracker tells, or none.
fn keep(tracker: &mut Tracker, on: bool)
    ensures { HasKept on tracker.old tracker.new }
{
    tracker.held.keep_lines(on);
}

/// Keeps the lines that are told from here on, or none.
pub(crate) fn keep_lines(alloc: Global, topo: &mut Topo, on: bool) -> u32
    ensures { HolderHasKeptBy on topo.old.owned.value topo.new.owned.value result }
{
    let Some(mut b) = topo.take(alloc) else {
        return EMPTY;
    };
    keep(b.as_mut(), on);
    topo.give(b);
    DONE
}

// Forgets what a tracker has told.
fn clear(tracker: &mut Tracker)
    ensures { HasForgotten tracker.old tracker.new }
{
    tracker.held.clear_log();
}

/// Forgets what was told.
pub(crate) fn forget_log(alloc: Global, topo: &mut Topo) -> u32
    ensures { HolderHasForgotten topo.old.owned.value topo.new.owned.value result }
{
    let Some(mut b) = topo.take(alloc) else {
        return EMPTY;
    };
    clear(b.as_mut());
    topo.give(b);
    DONE
}

// Puts the log of a tracker into a buffer, where it fits, and then forgets it.
fn take_log(tracker: &mut Tracker, into: &mut [u8], size: &mut usize) -> u32
    ensures { HasTakenLog tracker.old tracker.new into.old into.new size.old size.new result }
{
    if tracker.held.print_log().is_err() {
        return NO_MEMORY;
    }
    let code = put(tracker.held.log(), into, size);
    if code == DONE {
        tracker.held.clear_log();
    }
    code
}

/// Puts the log into a buffer, where it fits, and then forgets it.
pub(crate) fn read_log(alloc: Global, topo: &mut Topo, into: &mut [u8], size: &mut usize) -> u32
    ensures { HolderHasTakenLog topo.old.owned.value topo.new.owned.value
        into.old into.new size.old size.new result }
{
    let Some(mut b) = topo.take(alloc) else {
        return EMPTY;
    };
    let code = take_log(b.as_mut(), into, size);
    topo.give(b);
    code
}

// How much there is of a tracker.
fn counts_of(tracker: &Tracker) -> TopoCounted
    ensures { result ≡ counts_of tracker.now }
{
    let mesh = tracker.held.mesh();
    TopoCounted {
        lines: tracker.held.lines().len(),
        vertices: mesh.vertices(),
        faces: mesh.faces(),
        next_vertex: mesh.next_vertex(),
        next_face: mesh.next_face(),
        steps: tracker.held.steps(),
    }
}

/// How many vertices and faces live, which ids come next, how many steps were taken, and how many lines were told.
pub(crate) fn count(alloc: Global, topo: &mut Topo, counts: &mut TopoCounted) -> u32
    ensures { HolderHasCounted topo.old.owned.value topo.new.owned.value
        counts.old counts.new result }
{
    let Some(b) = topo.take(alloc) else {
        return EMPTY;
    };
    *counts = counts_of(b.as_ref());
    topo.give(b);
    DONE
}
