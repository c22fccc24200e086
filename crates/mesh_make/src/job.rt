ghost use Rattle.std.specs.Prelude.{◌≡◌, IfOk};
ghost use Rattle.obj_text.specs.Views.{lists_view};
ghost use Rattle.mesh_make.specs.Cubes.{IsRow, cubes_lists};
ghost use Rattle.mesh_make.specs.CubeSteps.{cubes_steps};

use crate::lists::{faces_of_cubes, points_of_cubes};
use crate::steps::steps_of_cubes;
use grid_base::NoMemory;
use mesh_base::MeshLists;
use std::alloc::Global;
use step_text::Directives;

/// What the tracker works on: a mesh, as lists of points and faces, and the directives that it follows.
#[derive(Drop)]
pub struct Job {
    /// The points, and the faces by the numbers of their corners from 1.
    pub mesh: MeshLists,
    /// The directives, each with its line from 1.
    pub directives: Directives,
}

/// The job of `n` * `n` * `n` cubes of side 40 that stand 100 apart in rows of `n`, or want of memory.
///
/// In each of three steps every cube moves by a shift of its own, from 1 to 9 grid units along each axis, which `key` picks;
/// then each edge longer than 50, which are the diagonals of the cubes' sides, is split, and the mesh is saved.
pub fn cubes(alloc: Global, n: u8, key: u32) -> Result<Job, NoMemory>
    requires { IsRow n }
    ensures mesh { IfOk result (λ job. lists_view job.mesh ≡ cubes_lists n) }
    ensures directives { IfOk result (λ job. job.directives ≡ cubes_steps n key) }
{
    let points = points_of_cubes(alloc, n)?;
    let faces = faces_of_cubes(alloc, n)?;
    let directives = steps_of_cubes(alloc, n, key)?;
    Ok(Job {
        mesh: MeshLists { points, faces },
        directives,
    })
}
