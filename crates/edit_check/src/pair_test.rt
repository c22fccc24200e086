//! Whether an edge and a face do what is required of them.
ghost use Rattle.std.specs.Prelude.{◌≡◌, ◌≤◌, ◌==◌, ◌||◌};
ghost use Rattle.std.specs.List.{list_any};
ghost use Rattle.grid_base.specs.Meeting.{AreWithin};
ghost use Rattle.grid_base.specs.SeparationTests.{opens, closes};
ghost use Rattle.motion_test.specs.Pairs.{positions_of};
ghost use Rattle.edit_base.specs.Scaffold.{joins_contacts};
ghost use Rattle.pair_paths.specs.Pairing.{pair_with};
ghost use Rattle.edit_check.specs.Failing.{pair_passes, pair_meets_contact_rule};
ghost use Rattle.edit_check.specs.Failing.{do_as_required, fails};
ghost use Rattle.edit_check.specs.Boxed.{first_failing_boxed, is_side_of_boxed};

use crate::boxed::{BoxedEdge, BoxedFace};
use crate::touched::has_a_corner;
use edit_base::Touch;
use grid_base::{DEPTH_MAX, HALF_MAX};
use mesh_base::{PairName, VertexId};
use motion_test::Pair;
use pair_paths::{MovingEdge, MovingFace, name_of, pair_of, share_a_vertex};

/// Whether the pair passes.
fn pair_passes(p: &Pair, depth: u8) -> bool
    requires depth_fits { depth ≤ DEPTH_MAX }
    requires start_fits { AreWithin HALF_MAX (positions_of p.now.start) }
    requires end_fits { AreWithin HALF_MAX (positions_of p.now.end) }
    ensures { result ≡ pair_passes depth p.now }
{
    motion_test::passes(p, depth)
}

/// Whether the pair opens.
fn pair_opens(p: &Pair, depth: u8) -> bool
    requires depth_fits { depth ≤ DEPTH_MAX }
    requires start_fits { AreWithin HALF_MAX (positions_of p.now.start) }
    requires end_fits { AreWithin HALF_MAX (positions_of p.now.end) }
    ensures { result ≡ opens depth (positions_of p.now.start) (positions_of p.now.end) }
{
    motion_test::opens(p, depth)
}

/// Whether the pair closes.
fn pair_closes(p: &Pair, depth: u8) -> bool
    requires depth_fits { depth ≤ DEPTH_MAX }
    requires start_fits { AreWithin HALF_MAX (positions_of p.now.start) }
    requires end_fits { AreWithin HALF_MAX (positions_of p.now.end) }
    ensures { result ≡ closes depth (positions_of p.now.start) (positions_of p.now.end) }
{
    motion_test::closes(p, depth)
}

/// Whether a pair of which each member has a vertex named as together does what is required of it.
fn meets_contact_rule(touch: Touch, p: &Pair, depth: u8) -> bool
    requires depth_fits { depth ≤ DEPTH_MAX }
    requires start_fits { AreWithin HALF_MAX (positions_of p.now.start) }
    requires end_fits { AreWithin HALF_MAX (positions_of p.now.end) }
    ensures { result ≡ pair_meets_contact_rule touch depth p.now }
{
    match touch {
        Touch::Never => pair_passes(p, depth),
        Touch::Start => pair_opens(p, depth),
        Touch::End => pair_closes(p, depth),
    }
}

/// Whether one of the vertices is an end of the edge.
fn has_an_end(together: &[VertexId], a: VertexId, b: VertexId) -> bool
    ensures { result ≡ list_any (λ v. (a == v) || (b == v)) together.now }
{
    for v in together {
        if a == *v || b == *v {
            return true;
        }
    }
    false
}

/// Whether the edge has one of the vertices and the face has another.
fn joins_contacts(together: &[VertexId], e: &MovingEdge, f: &MovingFace) -> bool
    ensures { result ≡ joins_contacts together.now (pair_with e.now f.now) }
{
    has_an_end(together, e.a, e.b) && has_a_corner(together, f.corners)
}

/// Whether the edge and the face do what is required of them, where they are a pair.
fn do_as_required(
    touch: Touch,
    together: &[VertexId],
    depth: u8,
    e: &MovingEdge,
    f: &MovingFace,
) -> bool
    requires depth_fits { depth ≤ DEPTH_MAX }
    ensures { result ≡ do_as_required touch together.now depth e.now f.now }
{
    let p = pair_of(e, f);
    if joins_contacts(together, e, f) {
        meets_contact_rule(touch, &p, depth)
    } else {
        pair_passes(&p, depth)
    }
}

/// Whether the edge and the face are a pair, and do not do what is required of them. Where their boxes have no common
/// point, an axis keeps them apart, and they do.
pub(crate) fn fails(
    touch: Touch,
    together: &[VertexId],
    depth: u8,
    e: &BoxedEdge,
    f: &BoxedFace,
) -> bool
    requires depth_fits { depth ≤ DEPTH_MAX }
    ensures { result ≡ fails touch together.now depth e.now.edge f.now.face }
{
    if !f.bounds.overlaps(&e.bounds) {
        return false;
    }
    if share_a_vertex(&e.edge, &f.face) {
        return false;
    }
    !do_as_required(touch, together, depth, &e.edge, &f.face)
}

/// The first of the faces that fails with the edge to do what is required of them, with the edge.
pub(crate) fn first_failing_among(
    touch: Touch,
    together: &[VertexId],
    depth: u8,
    e: &BoxedEdge,
    faces: &[BoxedFace],
) -> Option<PairName>
    requires depth_fits { depth ≤ DEPTH_MAX }
    ensures { result ≡ first_failing_boxed touch together.now depth e.now.edge faces.now }
{
    for f in faces {
        if fails(touch, together, depth, e, f) {
            return Some(name_of(&e.edge, &f.face));
        }
    }
    None
}

/// Whether the edge is a side of one of the faces.
pub(crate) fn is_side_of_some(a: VertexId, b: VertexId, faces: &[BoxedFace]) -> bool
    ensures { result ≡ is_side_of_boxed a b faces.now }
{
    for f in faces {
        if f.face.corners.has_corner(a) && f.face.corners.has_corner(b) {
            return true;
        }
    }
    false
}
