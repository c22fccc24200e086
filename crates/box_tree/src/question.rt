ghost use Rattle.std.specs.Prelude.{◌≡◌};
ghost use Rattle.box_tree.specs.Overlapping.{overlaps_apart};

use crate::{LabelledBox, SmallBox};

/// What is asked of a tree: the boxes that have a common point with this one, and neither of two labels.
#[derive(Clone, Copy)]
pub struct Question {
    pub at: SmallBox,
    pub a: u32,
    pub b: u32,
}

impl Question {
    /// Whether the box is one of those that are asked for.
    pub(crate) fn finds(&self, e: &LabelledBox) -> bool
        ensures { let q = self.now in result ≡ overlaps_apart q.at q.a q.b e.now }
    {
        e.at.overlaps(&self.at) && e.labels.is_apart(self.a, self.b)
    }
}
