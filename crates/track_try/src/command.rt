ghost use Rattle.std.specs.Prelude.{◌≡◌, IfOk, OnOk, OnErr};
ghost use Rattle.mesh_make.specs.Cubes.{IsRow, cubes_mesh};
ghost use Rattle.mesh_make.specs.CubeSteps.{cubes_steps};
ghost use Rattle.mesh_sizing.specs.Sizes.{IsBand};
ghost use Rattle.outside_io.specs.Outside.{StoresNothing, WritesAll, WritesPart};
ghost use Rattle.track_try.specs.Summary.{summary_of};

use crate::counted_run::run;
use crate::summary_text::summary_bytes;
use grid_base::{NoMemory, Point, Shift};
use mesh_base::{Scale, Surface};
use mesh_field::no_fields;
use mesh_journal::JournalMesh;
use mesh_make::cubes;
use mesh_sizing::{Band, Sizing};
use outside_io::{Outside, Stop, TallySink};
use std::alloc::Global;
use step_text::Placed;

// What a field that is not there would answer.
fn no_shift(_which: u8, _at: Point) -> Shift {
    Shift { x: 0, y: 0, z: 0 }
}

// How long an edge may be by a sizing that is never asked.
fn any_length(_at: Point) -> Band
    ensures { IsBand result }
{
    Band { low: 1, high: 2 }
}

// The summary of a job of cubes, by its mesh and its directives.
fn summary_of_run<S: Surface + Drop>(
    alloc: Global,
    n: u8,
    key: u32,
    mesh: S,
    steps: &[Placed],
) -> Result<Vec<u8>, NoMemory>
    requires row { IsRow n }
    requires mesh { S.mesh mesh ≡ cubes_mesh n }
    requires steps { steps.now ≡ cubes_steps n key }
    ensures { IfOk result (λ text. text.items ≡ summary_of n key) }
{
    let fields = no_fields(no_shift);
    let sizing = Sizing::new(any_length);
    let mut told = TallySink::new();
    let engine = run(alloc, mesh, steps, &mut told, &fields, &sizing)?;
    summary_bytes(alloc, n, key, &told, &engine.mesh)
}

// The summary of the job of `n` * `n` * `n` cubes that `key` picks.
fn summary(alloc: Global, n: u8, key: u32) -> Result<Vec<u8>, NoMemory>
    requires { IsRow n }
    ensures { IfOk result (λ text. text.items ≡ summary_of n key) }
{
    let job = cubes(alloc, n, key)?;
    let mesh = JournalMesh::of(alloc, Scale::Standard, &job.mesh)?;
    summary_of_run(alloc, n, key, mesh, job.directives.as_slice())
}

/// Makes the job of `n` * `n` * `n` cubes that `key` picks, runs it over a sink and a desk that only count, and then writes what it came
/// to: seven lines, which tell the job, the number of cubes, of steps and of those that were taken with the asked shifts, of splits, of
/// vertices and faces at the end, where vertex 1 then stands, and of lines of the log. A fault leaves a part of the summary that is not all
/// of it; want of memory leaves nothing.
pub fn try_cubes<O: Outside>(alloc: Global, n: u8, key: u32, outside: &mut O) -> Result<(), Stop>
    requires { IsRow n }
    ensures done { OnOk result (WritesAll O.around outside (summary_of n key)) }
    ensures stopped { OnErr result (WritesPart O.around outside (summary_of n key)) }
    ensures quiet { StoresNothing (O.around outside.old) (O.around outside.new) result }
{
    let text = summary(alloc, n, key)?;
    outside.put(&text)
}
