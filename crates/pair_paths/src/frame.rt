//! Frames of reference that move, and boxes in them.
ghost use Rattle.pair_paths.specs.Frames.{HoldsPathIn, HoldsEdgeIn, HoldsFaceIn};

use crate::moving_parts::{MovingEdge, MovingFace};
use crate::path::Path;
use crate::position::Position;
use grid_base::Extent;

/// A frame of reference that moves: its origin goes in a straight line from the grid's origin to this position, and its
/// axes keep their directions. What goes by the same shift rests in it.
#[derive(Clone, Copy)]
pub struct Frame {
    pub end: Position,
}

/// What has a bounding box in a frame.
pub trait HasBoundsIn {
    ghost use Rattle.grid_base.specs.declared.Extent.{Extent};
    ghost use Rattle.pair_paths.specs.declared.frame.Frame.{Frame};

    /// Whether the box has all of it, as the frame sees it.
    ghost holds_in: { Frame → Self → Extent → Type 0 };

    /// A box that has all of it, as the frame sees it.
    fn bounds_in(&self, frame: &Frame) -> Extent
        ensures { holds_in frame.now self.now result };
}

impl HasBoundsIn for Path {
    ghost holds_in = { HoldsPathIn };

    fn bounds_in(&self, frame: &Frame) -> Extent {
        Extent::around(self.start.wide(), self.end.seen_from(frame.end))
    }
}

impl HasBoundsIn for MovingEdge {
    ghost holds_in = { HoldsEdgeIn };

    fn bounds_in(&self, frame: &Frame) -> Extent {
        let first = self.first.bounds_in(frame);
        first.united(&self.second.bounds_in(frame))
    }
}

impl HasBoundsIn for MovingFace {
    ghost holds_in = { HoldsFaceIn };

    fn bounds_in(&self, frame: &Frame) -> Extent {
        let two = self.c.bounds_in(frame).united(&self.d.bounds_in(frame));
        two.united(&self.e.bounds_in(frame))
    }
}
