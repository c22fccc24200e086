//! Boxes of edges and faces.
ghost use Rattle.std.specs.Prelude.{◌≡◌};
ghost use Rattle.grid_base.specs.Extents.{IsInside};
ghost use Rattle.pair_paths.specs.Bounds.{HoldsPath};

use crate::boxed::{BoxedEdge, BoxedFace};
use box_tree::SmallBox;
use pair_paths::{HasBounds, MovingEdge, MovingFace, Path};

/// A box of all the way of a vertex.
#[inline(always)]
pub(crate) fn box_of_path(w: &Path) -> SmallBox
    ensures { HoldsPath w.now result }
{
    SmallBox::of(&w.bounds())
}

/// A box that has both. It is found in 32 bits a coordinate.
#[inline(always)]
pub(crate) fn united(a: &SmallBox, b: &SmallBox) -> SmallBox
    ensures first { IsInside a.now result }
    ensures second { IsInside b.now result }
{
    SmallBox::of(&a.extent().united(&b.extent()))
}

/// The edge, with a box.
pub(crate) fn boxed_edge(edge: MovingEdge) -> BoxedEdge
    ensures { result.edge ≡ edge }
{
    BoxedEdge {
        edge,
        bounds: SmallBox::of(&edge.bounds()),
    }
}

/// The face, with a box, and with one of each side.
pub(crate) fn boxed_face(face: MovingFace) -> BoxedFace
    ensures { result.face ≡ face }
{
    let c = box_of_path(&face.c);
    let d = box_of_path(&face.d);
    let e = box_of_path(&face.e);
    let first = united(&c, &d);
    BoxedFace {
        face,
        bounds: united(&first, &e),
        first,
        second: united(&d, &e),
        third: united(&e, &c),
    }
}
