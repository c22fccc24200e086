//! What a test tells of the edges and faces of a mesh.
ghost use Rattle.std.specs.Prelude.{◌≡◌, IfOk};
ghost use Rattle.pair_candidates.specs.Told.{told_of_mesh, up_to};

use crate::frames::Frames;
use crate::pair_test::PairTest;
use crate::scan::told_along;
use grid_base::{Items, NoMemory};
use mesh_base::{ShiftOf, Surface, edges_in_order};
use pair_paths::{KnownPaths, Paths, moving_faces, paths_of};
use std::alloc::Global;

/// What the test tells of the edges and the faces of a mesh in a motion, as `told_along` tells it, the path of each vertex asked for
/// once. Its frames are those of the shifts. Refuses only where there is no memory.
pub fn told_of_mesh<S: Surface, P: Paths, A: PairTest>(
    alloc: Global,
    test: &A,
    mesh: &S,
    motion: &P,
    by: &[ShiftOf],
    most: Option<usize>,
) -> Result<Items<A::Told>, NoMemory>
    ensures { IfOk result (λ found. up_to most found ≡ up_to most
        (told_of_mesh (A.test test.now) A.what (S.mesh mesh.now) (P.motion motion.now))) }
{
    let known = paths_of(alloc, mesh, motion)?;
    let paths = KnownPaths {
        paths: motion,
        known: known.as_slice(),
    };
    let edges = edges_in_order(alloc, mesh)?;
    let faces = moving_faces(alloc, mesh, &paths)?;
    let face_list = faces.as_slice();
    let frames = Frames::of_shifts(alloc, face_list, by)?;
    let found = told_along(
        alloc,
        test,
        &paths,
        edges.as_slice(),
        face_list,
        frames,
        most,
    )?;
    Ok(found)
}
