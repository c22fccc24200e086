//! The scan: the edges one by one, each with the faces near it.
ghost use Rattle.std.specs.Prelude.{◌≡◌, ◌++◌, Some, IfOk, OnOk, IsTrue, slice_get};
ghost use Rattle.pair_candidates.specs.Told.{is_told, told_with, told_at, told_among, told_along, up_to, IsFull};
ghost use Rattle.pair_candidates.specs.Views.{IsView, AreViews};

use crate::frames::Frames;
use crate::neighbours::{Scan, near_edge};
use crate::pair_test::PairTest;
use crate::views::{View, Views, goes_with, views_of};
use grid_base::{Items, NoMemory};
use mesh_base::VertexId;
use pair_paths::{MovingEdge, MovingFace, Paths, moving_edge, share_a_vertex};
use std::alloc::Global;

// Whether the edge and the face have no vertex in common, and the test is true of them.
fn is_told<A: PairTest>(test: &A, e: &MovingEdge, f: &MovingFace) -> bool
    ensures { result ≡ is_told (A.test test.now) e.now f.now }
{
    if share_a_vertex(e, f) {
        return false;
    }
    test.is_true(e, f)
}

// What is told of the edge with the face.
fn told_with<A: PairTest>(test: &A, e: &MovingEdge, f: &MovingFace) -> Option<A::Told>
    ensures { result ≡ told_with (A.test test.now) A.what e.now (Some f.now) }
{
    if is_told(test, e, f) {
        Some(test.told(e, f))
    } else {
        None
    }
}

// The same of the face at this place.
fn told_at<A: PairTest>(test: &A, e: &MovingEdge, faces: &[MovingFace], k: u64) -> Option<A::Told>
    ensures { result ≡ told_with (A.test test.now) A.what e.now (slice_get faces.now k) }
{
    match faces.get(k as usize) {
        Some(f) => told_with(test, e, f),
        None => None,
    }
}

// Puts what is told of the edge with the faces at these places at the end.
fn put_told<A: PairTest>(
    test: &A,
    e: &MovingEdge,
    faces: &[MovingFace],
    near: &[u64],
    found: &mut Items<A::Told>,
) -> Result<(), NoMemory>
    ensures { OnOk result
        (found.new ≡ found.old ++ told_at (A.test test.now) A.what e.now faces.now near.now) }
{
    for k in near {
        if let Some(what) = told_at(test, e, faces, *k) {
            found.push(what)?;
        }
    }
    Ok(())
}

// Puts what is told of an edge with all faces at the end. Sets `near` to the places of faces of which something may be told.
fn put_told_seen<P: Paths, A: PairTest>(
    e: &MovingEdge,
    view: &mut View,
    scan: &Scan<P, A>,
    past: usize,
    near: &mut Vec<u64>,
    found: &mut Items<A::Told>,
) -> Result<(), NoMemory>
    requires { IsView scan.now.faces.now view.old }
    ensures view { IsView scan.now.faces.now view.new }
    ensures found { OnOk result (found.new ≡ found.old
        ++ told_among (A.test scan.now.test.now) A.what e.now scan.now.faces.now) }
{
    near_edge(e, view, scan, past, near)?;
    put_told(scan.test, e, scan.faces, near, found)
}

// The same, by the view whose frame goes more as the edge does.
fn put_told_of_edge<P: Paths, A: PairTest>(
    e: &MovingEdge,
    views: &mut Views,
    scan: &Scan<P, A>,
    past: usize,
    near: &mut Vec<u64>,
    found: &mut Items<A::Told>,
) -> Result<(), NoMemory>
    requires views { AreViews scan.now.faces.now views.old }
    ensures views { AreViews scan.now.faces.now views.new }
    ensures found { OnOk result (found.new ≡ found.old
        ++ told_among (A.test scan.now.test.now) A.what e.now scan.now.faces.now) }
{
    if let Some(other) = &mut views.other {
        if goes_with(e, &other.frame, &views.first.frame) {
            return put_told_seen(e, other, scan, past, near, found);
        }
    }
    put_told_seen(e, &mut views.first, scan, past, near, found)
}

// Whether so many are found.
fn is_full(count: usize, most: Option<usize>) -> bool
    ensures { IsTrue result → IsFull count most }
{
    match most {
        Some(n) => count >= n,
        None => false,
    }
}

// What is told of the edges, edge by edge, up to the edge with which there is so much.
fn told_of_edges<P: Paths, A: PairTest>(
    alloc: Global,
    scan: &Scan<P, A>,
    views: &mut Views,
    most: Option<usize>,
) -> Result<Items<A::Told>, NoMemory>
    requires views { AreViews scan.now.faces.now views.old }
    ensures { let s = scan.now in let w = P.motion s.paths.now in
        let all = told_along (A.test s.test.now) A.what w s.faces.now s.edges.now in
        IfOk result (λ found. up_to most found ≡ up_to most all) }
{
    let mut near = Vec::new(alloc);
    let mut found = Items::new(alloc);
    let mut past: usize = 0;
    for (a, b) in scan.edges {
        if is_full(found.len(), most) {
            return Ok(found);
        }
        past = past.saturating_add(1);
        let e = moving_edge(scan.paths, *a, *b);
        put_told_of_edge(&e, views, scan, past, &mut near, &mut found)?;
    }
    Ok(found)
}

/// What the test tells of these edges with these faces, in order of the edge and then of the face: of each edge and face that have
/// no vertex in common and of which it is true. Where a number is given, it ends after the edge with which there is so much. Trees of
/// boxes in the frames leave out the faces that are far apart from an edge (a broad phase, as in El Topo, Brochu and Bridson 2009);
/// only speed depends on the frames. Refuses only where there is no memory.
pub fn told_along<P: Paths, A: PairTest>(
    alloc: Global,
    test: &A,
    paths: &P,
    edges: &[(VertexId, VertexId)],
    faces: &[MovingFace],
    frames: Frames,
    most: Option<usize>,
) -> Result<Items<A::Told>, NoMemory>
    ensures { IfOk result (λ found. up_to most found ≡ up_to most
        (told_along (A.test test.now) A.what (P.motion paths.now) faces.now edges.now)) }
{
    let mut views = views_of(alloc, faces, frames)?;
    let scan = Scan {
        alloc,
        test,
        paths,
        edges,
        faces,
    };
    told_of_edges(alloc, &scan, &mut views, most)
}
