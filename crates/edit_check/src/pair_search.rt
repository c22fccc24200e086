//! The search for the first pair that is not as required, along the sides of the faces of a neighbourhood.
ghost use Rattle.std.specs.Prelude.{◌≡◌, None, true, false, IsTrue, nat_lt};
ghost use Rattle.std.specs.List.{All};
ghost use Rattle.edit_check.specs.Searching.{is_settled, with_faces};
ghost use Rattle.edit_check.specs.Looking.{first_there, HasNoneThere, edges_along, edges_round};
ghost use Rattle.edit_check.specs.Looking.{once_looked_at, is_run_if_turned, with_edge_there};

use crate::boxed::BoxedEdge;
use crate::neighbourhood::Neighbourhood;
use crate::pair_test::{first_failing_among, is_side_of_some};
use crate::path_boxes::boxed_edge;
use crate::sides::{first_side, is_run_by_some, second_side, third_side, turned};
use mesh_base::{PairName, VertexId};
use pair_paths::{MovingEdge, MovingFace};

/// Whether what is found so far is a pair of this edge or of an earlier one.
fn is_settled(found: &Option<PairName>, a: VertexId, b: VertexId) -> bool
    ensures { result ≡ is_settled found.now a b }
{
    match found {
        Some(name) => name.a.0 < a.0 || name.a == a && name.b.0 <= b.0,
        None => false,
    }
}

/// The first pair of an edge that is not as required. An edge that is a side of a touched face is tested with all faces,
/// and any other one with the touched faces only.
fn first_near(near: &Neighbourhood, e: &BoxedEdge) -> Option<PairName>
    ensures { result ≡ first_there near.now e.now.edge }
{
    let t = near.terms;
    let tested = if is_side_of_some(e.edge.a, e.edge.b, near.touched) {
        near.faces
    } else {
        near.touched
    };
    first_failing_among(t.touch, t.together, t.depth, e, tested)
}

/// Among so many faces the one that runs an edge's way is sought fast. Among more, as round a vertex of high degree, it is not sought
/// for each edge, which would take time in proportion to the square of their number.
const FEW: usize = 64;

/// An edge is tested with a touched face in no less time than it takes to look whether each of so many faces runs its way.
const LOOKS_A_TEST: usize = 16;

/// Whether it is asked first whether a face runs the way of an edge that was turned, and the edge is tested then: among
/// few faces that takes less time, and so it does where an edge is tested with many. Only speed depends on it.
fn asks_first(near: &Neighbourhood) -> bool {
    near.faces.len() <= FEW || near.faces.len() / LOOKS_A_TEST <= near.touched.len()
}

/// Whether the edge was turned, and one of the faces runs its way.
fn is_run_if_turned(near: &Neighbourhood, edge: &MovingEdge, is_turned: bool) -> bool
    ensures { result ≡ is_run_if_turned near.now is_turned edge.now }
{
    is_turned && is_run_by_some(edge.a, edge.b, near.faces)
}

/// Whether that is asked first, and is so.
fn is_left_out(near: &Neighbourhood, edge: &MovingEdge, is_turned: bool) -> bool
    ensures { IsTrue result → is_run_if_turned near.now is_turned edge.now ≡ true }
{
    asks_first(near) && is_run_if_turned(near, edge, is_turned)
}

/// What is found once an edge more is tested that is not settled; one that was turned, where no face runs its way. That is
/// asked last here: among many faces it takes longer than the test of an edge with few.
fn with_tested(
    near: &Neighbourhood,
    e: &BoxedEdge,
    is_turned: bool,
    found: Option<PairName>,
) -> Option<PairName>
    requires { is_settled found e.now.edge.a e.now.edge.b ≡ false }
    ensures { result ≡ with_edge_there near.now is_turned found e.now.edge }
{
    match first_near(near, e) {
        Some(name) => {
            if is_run_if_turned(near, &e.edge, is_turned) {
                found
            } else {
                Some(name)
            }
        }
        None => found,
    }
}

/// What is found once an edge more is looked at; one that was turned, where no face runs its way. One whose box has no
/// common point with that of the touched faces is no side of one, and does as required with each of them.
fn with_edge(
    near: &Neighbourhood,
    edge: &MovingEdge,
    is_turned: bool,
    found: Option<PairName>,
) -> Option<PairName>
    requires { is_run_if_turned near.now is_turned edge.now ≡ false →
        HasNoneThere near.now edge.now }
    ensures { result ≡ with_edge_there near.now is_turned found edge.now }
{
    if is_settled(&found, edge.a, edge.b) {
        return found;
    }
    let e = boxed_edge(*edge);
    if !near.reach.overlaps(&e.bounds) {
        return found;
    }
    if is_left_out(near, edge, is_turned) {
        return found;
    }
    with_tested(near, &e, is_turned, found)
}

/// Whether the one id is smaller than the other.
fn is_below(u: VertexId, v: VertexId) -> bool
    ensures { result ≡ nat_lt u v }
{
    u.0 < v.0
}

/// What is found once a side more is looked at, unless another face runs the other way: there it is looked at.
fn with_side(near: &Neighbourhood, side: &MovingEdge, found: Option<PairName>) -> Option<PairName>
    requires { All (HasNoneThere near.now) (edges_along near.now side.now) }
    ensures { result ≡ once_looked_at near.now found (edges_along near.now side.now) }
{
    if is_below(side.a, side.b) {
        return with_edge(near, side, false, found);
    }
    if is_below(side.b, side.a) {
        return with_edge(near, &turned(side), true, found);
    }
    found
}

/// What is found once the sides of a face more are looked at.
fn with_face(near: &Neighbourhood, f: &MovingFace, found: Option<PairName>) -> Option<PairName>
    requires { All (HasNoneThere near.now) (edges_round near.now f.now) }
    ensures { result ≡ once_looked_at near.now found (edges_round near.now f.now) }
{
    let one = with_side(near, &first_side(f), found);
    let two = with_side(near, &second_side(f), one);
    with_side(near, &third_side(f), two)
}

/// What is found once all sides of the faces are looked at.
pub(crate) fn first_along(near: &Neighbourhood) -> Option<PairName>
    ensures { let n = near.now in
        result ≡ with_faces n.terms n.faces.now n.touched.now None n.faces.now }
{
    let mut found = None;
    for f in near.faces {
        found = with_face(near, &f.face, found);
    }
    found
}
