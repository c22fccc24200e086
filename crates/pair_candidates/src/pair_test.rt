//! What is asked of an edge and a face of a motion.
use grid_base::Extent;
use pair_paths::{Frame, MovingEdge, MovingFace};

/// A test of an edge and a face that have no vertex in common, and what is told of those of which it is true.
pub trait PairTest {
    ghost use Rattle.std.specs.Prelude.{◌≡◌, Bool, IsTrue};
    ghost use Rattle.pair_paths.specs.declared.MovingEdge.{MovingEdge};
    ghost use Rattle.pair_paths.specs.declared.MovingFace.{MovingFace};
    ghost use Rattle.pair_candidates.specs.Told.{LeavesOut};
    ghost use Rattle.pair_candidates.specs.Slabs.{IsFalseOfParted};

    /// What is told of an edge and a face.
    type Told: Drop;

    /// Whether the test is true of an edge and a face.
    ghost test: { Self → MovingEdge → MovingFace → Bool };

    /// What is told of them, where it is.
    ghost what: { MovingEdge → MovingFace → Self.Told };

    /// Whether the test is true of the edge and the face.
    fn is_true(&self, e: &MovingEdge, f: &MovingFace) -> bool
        ensures { result ≡ test self.now e.now f.now };

    /// What is told of them.
    fn told(&self, e: &MovingEdge, f: &MovingFace) -> Self::Told
        ensures { result ≡ what e.now f.now };

    /// A box of the edge: of no face whose box in the frame is apart from it is the test true.
    fn box_of(&self, e: &MovingEdge, frame: &Frame) -> Extent
        ensures { LeavesOut (test self.now) frame.now e.now result };

    /// Whether the test is known to be false of each edge and face that move as one and do not meet where they begin.
    fn is_false_of_parted(&self) -> bool
        ensures { IsTrue result → IsFalseOfParted (test self.now) };
}
