//! Boxes of what moves: each has the whole way.
ghost use Rattle.pair_paths.specs.Bounds.{HoldsPath, HoldsEdge, HoldsFace};

use crate::moving_parts::{MovingEdge, MovingFace};
use crate::path::Path;
use grid_base::Extent;

/// What has a bounding box.
pub trait HasBounds {
    ghost use Rattle.grid_base.specs.declared.Extent.{Extent};

    /// Whether the box has all of it.
    ghost holds: { Self → Extent → Type 0 };

    /// A box that has all of it.
    fn bounds(&self) -> Extent
        ensures { holds self.now result };
}

impl HasBounds for Path {
    ghost holds = { HoldsPath };

    fn bounds(&self) -> Extent {
        Extent::around(self.start.wide(), self.end.wide())
    }
}

impl HasBounds for MovingEdge {
    ghost holds = { HoldsEdge };

    fn bounds(&self) -> Extent {
        self.first.bounds().united(&self.second.bounds())
    }
}

impl HasBounds for MovingFace {
    ghost holds = { HoldsFace };

    fn bounds(&self) -> Extent {
        let two = self.c.bounds().united(&self.d.bounds());
        two.united(&self.e.bounds())
    }
}
