//! The first pair that meets.
ghost use Rattle.std.specs.Prelude.{◌≡◌, ◌↔◌, IfOk, IfSome, IsNone, slice_get};
ghost use Rattle.mesh_base.specs.Placements.{IsClearMesh};
ghost use Rattle.pair_paths.specs.Pairing.{name_with};
ghost use Rattle.pair_scan.specs.Answers.{IsFirstMeeting};
ghost use Rattle.pair_scan.specs.Scan.{do_meet, IsMeeting, NoneMeetsBefore};

use crate::motions::RestingVertices;
use crate::scan::Pairs;
use grid_base::{Extent, NoMemory};
use grid_meets::meets;
use mesh_base::{PairName, Surface};
use pair_candidates::{PairTest, told_of_mesh};
use pair_paths::{Frame, HasBoundsIn, MovingEdge, MovingFace, name_of, starts_of};
use std::alloc::Global;

/// Whether an edge and a face meet where they begin.
#[derive(Clone, Copy)]
pub struct Meets;

impl PairTest for Meets {
    type Told = PairName;

    ghost test = { λ s. do_meet };

    ghost what = { name_with };

    fn is_true(&self, e: &MovingEdge, f: &MovingFace) -> bool {
        let [a, b, c, d, third] = starts_of(e, f);
        meets(a, b, c, d, third)
    }

    fn told(&self, e: &MovingEdge, f: &MovingFace) -> PairName {
        name_of(e, f)
    }

    fn box_of(&self, e: &MovingEdge, frame: &Frame) -> Extent {
        e.bounds_in(frame)
    }

    fn is_false_of_parted(&self) -> bool {
        true
    }
}

// The first pair, if there is one.
fn first_of(pairs: &Pairs) -> Option<PairName>
    ensures { result ≡ slice_get pairs.now 0 }
{
    match pairs.as_slice().first() {
        Some(name) => Some(*name),
        None => None,
    }
}

/// The first pair of a mesh that meets, in order of the edge and then of the face, where its vertices stand; None exactly
/// where the mesh is clear. Refuses only where there is no memory.
pub fn first_meeting<S: Surface>(alloc: Global, mesh: &S) -> Result<Option<PairName>, NoMemory>
    ensures first { IfOk result (IsFirstMeeting (S.mesh mesh.now)) }
    // None: no pair meets. Some: a pair that meets, and none that meets comes before it.
    ensures clear { IfOk result (λ r. IsNone r ↔ IsClearMesh (S.mesh mesh.now)) }
    ensures meets { IfOk result (λ r. IfSome r (IsMeeting (S.mesh mesh.now))) }
    ensures least { IfOk result (λ r. IfSome r (NoneMeetsBefore (S.mesh mesh.now))) }
{
    let found = told_of_mesh(alloc, &Meets, mesh, &RestingVertices { mesh }, &[], Some(1))?;
    let first = first_of(&found);
    Ok(first)
}
