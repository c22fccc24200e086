//! The making of a list: the edges one by one, each with the faces that begin near it.
ghost use Rattle.std.specs.Prelude.{◌≡◌, ◌≤◌, IfOk};
ghost use Rattle.grid_base.specs.declared.TheConstants.{HALF_MAX};
ghost use Rattle.neighbour_list.specs.Listed.{begin_near, listed_with, near_along_edges};

use crate::listed::ListedPair;
use crate::near::begin_near;
use crate::widened::widened;
use grid_base::{Extent, HALF_MAX, Items, NoMemory};
use mesh_base::VertexId;
use pair_candidates::{Frames, PairTest, told_along};
use pair_paths::{Frame, MovingEdge, MovingFace, Paths, name_of};
use std::alloc::Global;

/// Whether an edge and a face begin near each other: with a gap of at most the skin along each axis.
#[derive(Clone, Copy)]
struct BeginNear {
    skin: u32,
    ghost fits: { skin ≤ HALF_MAX },
}

impl PairTest for BeginNear {
    type Told = ListedPair;

    ghost test = { λ s. begin_near s.skin };

    ghost what = { listed_with };

    fn is_true(&self, e: &MovingEdge, f: &MovingFace) -> bool {
        begin_near(self.skin, e, f)
    }

    fn told(&self, e: &MovingEdge, f: &MovingFace) -> ListedPair {
        ListedPair {
            name: name_of(e, f),
            corners: f.corners,
        }
    }

    fn box_of(&self, e: &MovingEdge, _frame: &Frame) -> Extent {
        widened(self.skin, e.first.start.wide(), e.second.start.wide())
    }

    fn is_false_of_parted(&self) -> bool {
        false
    }
}

/// The pairs of these edges and these faces that begin near each other, edge by edge.
pub(crate) fn near_pairs<P: Paths>(
    alloc: Global,
    skin: u32,
    edges: &[(VertexId, VertexId)],
    faces: &[MovingFace],
    paths: &P,
) -> Result<Items<ListedPair>, NoMemory>
    requires skin_fits { skin ≤ HALF_MAX }
    ensures { IfOk result
        (λ found. found ≡ near_along_edges skin (P.motion paths.now) faces.now edges.now) }
{
    let test = BeginNear { skin };
    let found = told_along(alloc, &test, paths, edges, faces, Frames::resting(), None)?;
    Ok(found)
}
