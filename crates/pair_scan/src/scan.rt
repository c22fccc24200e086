//! The scan of a motion for pairs that do not pass.
ghost use Rattle.std.specs.Prelude.{◌≡◌, ◌≤◌, IfOk};
ghost use Rattle.grid_base.specs.declared.TheConstants.{DEPTH_MAX};
ghost use Rattle.mesh_base.specs.Pairs.{pairs};
ghost use Rattle.pair_paths.specs.Pairing.{name_with};
ghost use Rattle.pair_scan.specs.Failed.{do_not_pass, failing_of};
ghost use Rattle.pair_scan.specs.Found.{has_none, most_if, AreFound};

use grid_base::{DEPTH_MAX, Extent, Items, NoMemory};
use mesh_base::{PairName, ShiftOf, Surface};
use motion_test::passes;
use pair_candidates::{PairTest, told_of_mesh};
use pair_paths::{Frame, HasBoundsIn, MovingEdge, MovingFace, Paths, name_of, pair_of};
use std::alloc::Global;

/// Names of pairs, in order.
pub type Pairs = Items<PairName>;

/// Whether an edge and a face do not pass to this depth.
#[derive(Clone, Copy)]
struct DoNotPass {
    depth: u8,
    ghost fits: { depth ≤ DEPTH_MAX },
}

impl PairTest for DoNotPass {
    type Told = PairName;

    ghost test = { λ s. do_not_pass s.depth };

    ghost what = { name_with };

    fn is_true(&self, e: &MovingEdge, f: &MovingFace) -> bool {
        !passes(&pair_of(e, f), self.depth)
    }

    fn told(&self, e: &MovingEdge, f: &MovingFace) -> PairName {
        name_of(e, f)
    }

    fn box_of(&self, e: &MovingEdge, frame: &Frame) -> Extent {
        e.bounds_in(frame)
    }

    fn is_false_of_parted(&self) -> bool {
        true
    }
}

/// Whether there is no pair.
pub(crate) fn has_none(pairs: &Pairs) -> bool
    ensures { result ≡ has_none pairs.now }
{
    pairs.len() == 0
}

// How many pairs are asked for: one, where the scan ends early.
fn most_if(ends_early: bool) -> Option<usize>
    ensures { result ≡ most_if ends_early }
{
    if ends_early { Some(1) } else { None }
}

/// The pairs of a mesh that do not pass in a motion, in order of the edge and then of the face, its faces seen from frames
/// of these shifts. Where it ends early, it goes on to the first edge that has such a pair.
pub(crate) fn failing_in<S: Surface, P: Paths>(
    alloc: Global,
    mesh: &S,
    motion: &P,
    by: &[ShiftOf],
    depth: u8,
    ends_early: bool,
) -> Result<Pairs, NoMemory>
    requires { depth ≤ DEPTH_MAX }
    ensures { IfOk result
        (AreFound ends_early (failing_of depth (P.motion motion.now) (pairs (S.mesh mesh.now)))) }
{
    let test = DoNotPass { depth };
    let found = told_of_mesh(alloc, &test, mesh, motion, by, most_if(ends_early))?;
    Ok(found)
}
