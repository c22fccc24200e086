//! Changes that logs tell, compared.
ghost use Rattle.std.specs.Prelude.{◌≡◌, ◌↔◌, IsTrue};
ghost use Rattle.edit_base.specs.declared.Change.TheVariants.{Split, Flip, Collapse, Zip, Pinch};
ghost use Rattle.edit_any.specs.Answered.{asked_of};

use edit_base::{Asked, Change, CopyAt};
use grid_base::Point;
use mesh_base::VertexId;

/// The edit of which a change tells that it is done.
pub(crate) fn asked_by(change: &Change) -> Asked
    ensures { result ≡ asked_of change.now }
{
    match change {
        Change::Split { a, b, .. } => Asked::Split { a: *a, b: *b },
        Change::Flip { a, b } => Asked::Flip { a: *a, b: *b },
        Change::Collapse { a, b, .. } => Asked::Collapse { a: *a, b: *b },
        Change::Zip { a, b, e, f, .. } => Asked::Zip {
            a: *a,
            b: *b,
            e: *e,
            f: *f,
        },
        Change::Pinch { v, .. } => Asked::Pinch { v: *v },
    }
}

/// Whether the two points are the same.
fn is_same_point(p: Point, q: Point) -> bool
    ensures { IsTrue result ↔ (p ≡ q) }
{
    p.x == q.x && p.y == q.y && p.z == q.z
}

/// Whether the two copies have the same id and stand at the same point.
fn is_same_copy(one: &CopyAt, other: &CopyAt) -> bool
    ensures { IsTrue result ↔ (one.now ≡ other.now) }
{
    one.w == other.w && is_same_point(one.at, other.at)
}

/// Whether the two lists have the same copies in the same order.
fn are_same_copies(one: &[CopyAt], other: &[CopyAt]) -> bool
    ensures { IsTrue result ↔ (one.now ≡ other.now) }
{
    if one.len() != other.len() {
        return false;
    }
    for i in 0..one.len() {
        if !is_same_copy(&one[i], &other[i]) {
            return false;
        }
    }
    true
}

/// Whether it is the split of this edge, with this new vertex at this point.
fn is_split(change: &Change, a: VertexId, b: VertexId, w: VertexId, at: Point) -> bool
    ensures { IsTrue result ↔ (change.now ≡ Split a b w at) }
{
    match change {
        Change::Split {
            a: first,
            b: second,
            w: new,
            at: place,
        } => *first == a && *second == b && *new == w && is_same_point(*place, at),
        _ => false,
    }
}

/// Whether it is the flip of this edge.
fn is_flip(change: &Change, a: VertexId, b: VertexId) -> bool
    ensures { IsTrue result ↔ (change.now ≡ Flip a b) }
{
    match change {
        Change::Flip {
            a: first,
            b: second,
        } => *first == a && *second == b,
        _ => false,
    }
}

/// Whether it is the collapse of this edge to this point.
fn is_collapse(change: &Change, a: VertexId, b: VertexId, at: Point) -> bool
    ensures { IsTrue result ↔ (change.now ≡ Collapse a b at) }
{
    match change {
        Change::Collapse {
            a: first,
            b: second,
            at: place,
        } => *first == a && *second == b && is_same_point(*place, at),
        _ => false,
    }
}

/// Whether it is the zip of these two edges in this turn.
fn is_zip(change: &Change, a: VertexId, b: VertexId, e: VertexId, f: VertexId, turn: u8) -> bool
    ensures { IsTrue result ↔ (change.now ≡ Zip a b e f turn) }
{
    match change {
        Change::Zip {
            a: first,
            b: second,
            e: third,
            f: fourth,
            turn: quarter,
        } => *first == a && *second == b && *third == e && *fourth == f && *quarter == turn,
        _ => false,
    }
}

/// Whether it is the pinch of this vertex to this point, with these copies.
fn is_pinch(change: &Change, v: VertexId, at: Point, copies: &[CopyAt]) -> bool
    ensures { IsTrue result ↔ (change.now ≡ Pinch v at copies.now) }
{
    match change {
        Change::Pinch {
            v: vertex,
            at: place,
            copies: others,
        } => *vertex == v
            && is_same_point(*place, at)
            && are_same_copies(others.as_slice(), copies),
        _ => false,
    }
}

/// Whether the two tell the same: the same edit, with the same ids, points and turn.
pub(crate) fn are_same(one: &Change, other: &Change) -> bool
    ensures { IsTrue result ↔ (one.now ≡ other.now) }
{
    match other {
        Change::Split { a, b, w, at } => is_split(one, *a, *b, *w, *at),
        Change::Flip { a, b } => is_flip(one, *a, *b),
        Change::Collapse { a, b, at } => is_collapse(one, *a, *b, *at),
        Change::Zip { a, b, e, f, turn } => is_zip(one, *a, *b, *e, *f, *turn),
        Change::Pinch { v, at, copies } => is_pinch(one, *v, *at, copies.as_slice()),
    }
}
