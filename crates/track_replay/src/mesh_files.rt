// A mesh of a log is stored.
ghost use Rattle.std.specs.Prelude.{◌≡◌, ◌≤◌};
ghost use Rattle.grid_base.specs.declared.TheConstants.{DECIMALS_MAX};
ghost use Rattle.obj_text.specs.Written.{mesh_text};
ghost use Rattle.outside_io.specs.Outside.{Stores};
ghost use Rattle.track_engine.specs.Saved.{file_name};
ghost use Rattle.track_engine.specs.Targets.{target_of};
ghost use Rattle.track_replay.specs.Wanted.{is_wanted, wanted_at};
ghost use Rattle.track_replay.specs.Storing.{StoresCounted};

use log_run::LogRun;
use log_text::LogLine;
use mesh_base::Surface;
use obj_text::obj_of;
use outside_io::{Outside, Stop};
use std::alloc::Global;
use track_engine::{Target, file_name};

// Whether the mesh of this number is stored: each is, or the one alone of the number that is given.
fn is_wanted(only: Option<u32>, k: u32) -> bool
    ensures { result ≡ is_wanted only k }
{
    match only {
        Some(number) => k == number,
        None => true,
    }
}

// Stores a mesh under a number.
fn store_mesh<S: Surface, O: Outside>(
    alloc: Global,
    mesh: &S,
    k: u32,
    to: Target<'_>,
    outside: &mut O,
) -> Result<(), Stop>
    requires few { to.decimals ≤ DECIMALS_MAX }
    ensures { let target = target_of to.entry in
        Stores (file_name target.prefix k) (mesh_text target.decimals (S.mesh mesh.now))
        (O.around outside.old) (O.around outside.new) result }
{
    let text = obj_of(alloc, mesh, to.decimals)?;
    let name = file_name(alloc, to.prefix, k)?;
    outside.store(&name, &text)
}

// Stores the mesh that a line tells of, if it tells of one that is stored, where the line is taken; and answers how many that are.
pub(crate) fn store_line<O: Outside>(
    alloc: Global,
    run: &LogRun,
    line: &LogLine,
    only: Option<u32>,
    to: Target<'_>,
    outside: &mut O,
) -> Result<u32, Stop>
    requires few { to.decimals ≤ DECIMALS_MAX }
    ensures { let texts = wanted_at only (target_of to.entry) run.now.replay line.now in
        StoresCounted texts (O.around outside.old) (O.around outside.new) result }
{
    match line {
        LogLine::Mesh { k, .. } => {
            if is_wanted(only, *k) {
                store_mesh(alloc, run.mesh(), *k, to, outside)?;
                Ok(1)
            } else {
                Ok(0)
            }
        }
        _ => Ok(0),
    }
}
