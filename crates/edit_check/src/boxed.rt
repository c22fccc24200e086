//! Edges and faces with boxes of their paths.
ghost use Rattle.pair_paths.specs.Bounds.{HoldsEdge, HoldsFace};
ghost use Rattle.edit_check.specs.SideBoxes.{HoldSides};

use box_tree::SmallBox;
use pair_paths::{MovingEdge, MovingFace};

/// An edge, and a box of the paths of its ends.
#[derive(Clone, Copy)]
pub(crate) struct BoxedEdge {
    pub(crate) edge: MovingEdge,
    pub(crate) bounds: SmallBox,
    ghost held: { HoldsEdge edge bounds },
}

/// A face, a box of the paths of its corners, and a box of the paths of the ends of each side.
#[derive(Clone, Copy)]
pub(crate) struct BoxedFace {
    pub(crate) face: MovingFace,
    pub(crate) bounds: SmallBox,
    pub(crate) first: SmallBox,
    pub(crate) second: SmallBox,
    pub(crate) third: SmallBox,
    ghost held: { HoldsFace face bounds },
    ghost sides: { HoldSides face first second third },
}
