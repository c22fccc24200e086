//! The faces near edges that follow one another: one question serves many of them.
ghost use Rattle.std.specs.Prelude.{◌≡◌, IsTrue, OnOk};
ghost use Rattle.grid_base.specs.declared.narrow.TheConstants.{SPAN_MAX};
ghost use Rattle.grid_base.specs.Triples.{IsWithin};
ghost use Rattle.pair_candidates.specs.Told.{told_at, told_among};
ghost use Rattle.pair_candidates.specs.Slabs.{IsFalseOfParted, EdgeGoesWith};
ghost use Rattle.pair_candidates.specs.Views.{IsView};

use crate::pair_test::PairTest;
use crate::still_faces::{StillFaces, all_go_with, edge_goes_with};
use crate::views::View;
use box_tree::SmallBox;
use grid_base::narrow::{SPAN_MAX, span};
use grid_base::{NoMemory, Wide};
use mesh_base::VertexId;
use pair_paths::{Frame, MovingEdge, MovingFace, Paths, moving_edge};
use std::alloc::Global;

// A question looks ahead at most this many edges, and while its box gets at most this many times as long.
const AHEAD: usize = 16;

const LONGER: u64 = 4;

// Where more faces than these are found near edges, and more than so many an edge, boxes overlap though faces are far from edges.
const CROWDED: usize = 100_000;

const CROWDED_EACH: usize = 48;

/// What a scan goes over, and where it gets memory: the test that it asks, the edges in order, the faces, and the paths of both.
#[derive(Drop)]
pub(crate) struct Scan<'a, P: Paths, A: PairTest> {
    pub(crate) alloc: Global,
    pub(crate) test: &'a A,
    pub(crate) paths: &'a P,
    pub(crate) edges: &'a [(VertexId, VertexId)],
    pub(crate) faces: &'a [MovingFace],
}

// The length of a box, along the axis where it is longest.
fn length(e: &SmallBox) -> u64 {
    let e = e.extent();
    let x = (e.low.x as i64).abs_diff(e.high.x as i64);
    let y = (e.low.y as i64).abs_diff(e.high.y as i64);
    let z = (e.low.z as i64).abs_diff(e.high.z as i64);
    x.max(y).max(z)
}

// The box of the edge at this place.
fn box_at<P: Paths, A: PairTest>(scan: &Scan<P, A>, frame: &Frame, k: usize) -> Option<SmallBox> {
    match scan.edges.get(k) {
        Some((a, b)) => {
            let e = moving_edge(scan.paths, *a, *b);
            Some(SmallBox::of(&scan.test.box_of(&e, frame)))
        }
        None => None,
    }
}

// A box of this one and those of edges that come next, where so many are past. Only speed depends on which.
fn with_coming<P: Paths, A: PairTest>(
    at: SmallBox,
    view: &View,
    scan: &Scan<P, A>,
    past: usize,
) -> SmallBox {
    let most = length(&at).saturating_mul(LONGER);
    let mut all = at;
    for k in 0..view.ahead {
        match box_at(scan, &view.frame, past.saturating_add(k)) {
            Some(next) => {
                let more = SmallBox::of(&all.extent().united(&next.extent()));
                if length(&more) > most {
                    return all;
                }
                all = more;
            }
            None => return all,
        }
    }
    all
}

// How many edges the next question looks ahead: fewer, where the last answer was long.
fn next_ahead(ahead: usize, kept: bool) -> usize {
    if kept {
        ahead.saturating_add(ahead).saturating_add(1).min(AHEAD)
    } else {
        ahead / 2
    }
}

// Asks for the faces near this box and the edges that come next, where the last answer does not serve it. A question that
// looks at no edge ahead is left out: the box alone is asked for later.
fn look_ahead<P: Paths, A: PairTest>(
    at: SmallBox,
    view: &mut View,
    scan: &Scan<P, A>,
    past: usize,
) -> Result<(), NoMemory>
    ensures frame { view.new.frame ≡ view.old.frame }
    ensures boxes { view.new.boxes ≡ view.old.boxes }
    ensures still { view.new.still ≡ view.old.still }
{
    if view.boxes.serves(&at) {
        return Ok(());
    }
    let mut kept = true;
    if view.ahead > 0 {
        let all = with_coming(at, view, scan, past);
        kept = view.boxes.ask(all)?;
    }
    view.ahead = next_ahead(view.ahead, kept);
    Ok(())
}

// Sets the list to the places of the faces whose boxes in the view's frame have a common point with the box of the edge, and
// which have no end of it. So many edges are past.
fn near_by_boxes<P: Paths, A: PairTest>(
    e: &MovingEdge,
    view: &mut View,
    scan: &Scan<P, A>,
    past: usize,
    near: &mut Vec<u64>,
) -> Result<(), NoMemory>
    requires { IsView scan.now.faces.now view.old }
    ensures view { IsView scan.now.faces.now view.new }
    ensures near { let faces = scan.now.faces.now in let test = A.test scan.now.test.now in
        OnOk result
        (told_at test A.what e.now faces near.new.items ≡ told_among test A.what e.now faces) }
{
    let at = SmallBox::of(&scan.test.box_of(e, &view.frame));
    look_ahead(at, view, scan, past)?;
    view.boxes.overlapping_apart(at, e.a.0, e.b.0, near)?;
    view.found = view.found.saturating_add(near.len());
    Ok(())
}

// How long a way is, along the axis where it is longest.
fn longest_side(way: Wide) -> u128 {
    way.x
        .unsigned_abs()
        .max(way.y.unsigned_abs())
        .max(way.z.unsigned_abs())
}

// The longer of two ways.
fn longer(a: Wide, b: Wide) -> Wide
    requires a_fits { IsWithin SPAN_MAX a }
    requires b_fits { IsWithin SPAN_MAX b }
    ensures { IsWithin SPAN_MAX result }
{
    if longest_side(b) > longest_side(a) {
        b
    } else {
        a
    }
}

// The way from the one end of the longest edge to the other. Only speed depends on it.
fn longest_way<P: Paths, A: PairTest>(scan: &Scan<P, A>) -> Wide
    ensures { IsWithin SPAN_MAX result }
{
    let mut way = Wide { x: 0, y: 0, z: 0 };
    for (a, b) in scan.edges {
        let e = moving_edge(scan.paths, *a, *b);
        way = longer(way, span(e.second.start.wide(), e.first.start.wide()));
    }
    way
}

// Whether boxes of faces and edges overlap much more often than they do mostly.
fn is_crowded(view: &View, past: usize) -> bool {
    view.found > CROWDED && view.found / CROWDED_EACH > past
}

// Puts the tree of faces that all go with the frame into the view, where they do.
fn look_for_still<P: Paths, A: PairTest>(view: &mut View, scan: &Scan<P, A>) -> Result<(), NoMemory>
    requires { IsView scan.now.faces.now view.old }
    ensures frame { view.new.frame ≡ view.old.frame }
    ensures view { IsView scan.now.faces.now view.new }
{
    if view.is_asked {
        return Ok(());
    }
    view.is_asked = true;
    if all_go_with(scan.faces, &view.frame) {
        let still = StillFaces::of(scan.alloc, scan.faces, &view.frame, longest_way(scan))?;
        view.still = Some(still);
    }
    Ok(())
}

// Whether the faces that go with the frame serve the edge.
fn is_served<P: Paths, A: PairTest>(e: &MovingEdge, view: &View, scan: &Scan<P, A>) -> bool
    ensures test { IsTrue result → IsFalseOfParted (A.test scan.now.test.now) }
    ensures edge { IsTrue result → EdgeGoesWith view.now.frame e.now }
{
    scan.test.is_false_of_parted() && edge_goes_with(e, &view.frame)
}

// Sets the list to places of faces, by those that go with the frame where they serve, else by boxes.
fn near_in_crowd<P: Paths, A: PairTest>(
    e: &MovingEdge,
    view: &mut View,
    scan: &Scan<P, A>,
    past: usize,
    near: &mut Vec<u64>,
) -> Result<(), NoMemory>
    requires { IsView scan.now.faces.now view.old }
    ensures view { IsView scan.now.faces.now view.new }
    ensures near { let faces = scan.now.faces.now in let test = A.test scan.now.test.now in
        OnOk result
        (told_at test A.what e.now faces near.new.items ≡ told_among test A.what e.now faces) }
{
    if is_served(e, view, scan) {
        look_for_still(view, scan)?;
        if let Some(still) = &view.still {
            return still.near(e, near);
        }
    }
    near_by_boxes(e, view, scan, past, near)
}

/// Sets the list to places of faces, rising: nothing is told of the edge with others. So many edges are past.
pub(crate) fn near_edge<P: Paths, A: PairTest>(
    e: &MovingEdge,
    view: &mut View,
    scan: &Scan<P, A>,
    past: usize,
    near: &mut Vec<u64>,
) -> Result<(), NoMemory>
    requires { IsView scan.now.faces.now view.old }
    ensures view { IsView scan.now.faces.now view.new }
    ensures near { let faces = scan.now.faces.now in let test = A.test scan.now.test.now in
        OnOk result
        (told_at test A.what e.now faces near.new.items ≡ told_among test A.what e.now faces) }
{
    if is_crowded(view, past) {
        return near_in_crowd(e, view, scan, past, near);
    }
    near_by_boxes(e, view, scan, past, near)
}
