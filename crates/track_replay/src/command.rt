//! The command that makes the meshes of a log again.
ghost use Rattle.std.specs.Prelude.{◌≡◌, ◌≤◌, ◌<◌, ◌+◌, ◌^◌, ℕ, false, length, Ok, IfOk};
ghost use Rattle.grid_base.specs.declared.TheConstants.{DECIMALS_MAX};
ghost use Rattle.mesh_base.specs.Valid.{IsValidSurface};
ghost use Rattle.mesh_journal.specs.Journal.{mesh_in};
ghost use Rattle.log_run.specs.Laws.{IsValidState};
ghost use Rattle.log_run.specs.States.{without_lines};
ghost use Rattle.outside_io.specs.Outside.{InWorld};
ghost use Rattle.track_input.specs.Named.{replay_names};
ghost use Rattle.track_log.specs.Telling.{Tells};
ghost use Rattle.track_engine.specs.Targets.{target_of};
ghost use Rattle.track_replay.specs.Texts.{replayed_text};
ghost use Rattle.track_replay.specs.Headline.{Replays, ReplaysLines};

use crate::mesh_files::store_line;
use line_text::{Field, put_line};
use log_read::LogReader;
use log_run::LogRun;
use log_run::laws::fitting_lines_are_safe;
use mesh_journal::JournalMesh;
use outside_io::{Fact, Outside, Stop};
use std::alloc::Global;
use track_engine::Target;
use track_input::ReplayFiles;
use track_log::{LogRefusal, PreparedLog, prepare_log, put_text, refuse, take_tested};

// Writes how many meshes are stored.
fn tell_count<O: Outside>(alloc: Global, count: u32, outside: &mut O) -> Result<(), Stop>
    ensures { Tells (replayed_text count) (O.around outside.old) (O.around outside.new) result }
{
    let mut text = Vec::new(alloc);
    put_line(
        &[Field::Text(b"replayed"), Field::Number(u64::from(count))],
        &mut text,
    )?;
    put_text(outside, &text)
}

// Takes the lines of a log, one after another, and stores the meshes that they tell of; and then writes how many that are, or the refusal
// of the first line that does not fit. No line was taken before.
fn replay_each<O: Outside>(
    alloc: Global,
    run: &mut LogRun,
    lines: &mut LogReader,
    only: Option<u32>,
    to: Target<'_>,
    outside: &mut O,
) -> Result<Option<LogRefusal>, Stop>
    requires fresh { run.old ≡ without_lines run.old.replay.mesh }
    requires valid { IsValidState run.old }
    requires few_lines { length lines.old < 2 ^ 31 }
    requires few_decimals { to.decimals ≤ DECIMALS_MAX }
    ensures { let mesh = run.old.replay.mesh in
        ReplaysLines only (target_of to.entry) mesh lines.old
        (O.around outside.old) (O.around outside.new) result }
{
    let mut count: u32 = 0;
    let mut number: u32 = 0;
    while let Some(line) = lines.take_first(alloc)? {
        number += 1;
        outside.hear(Fact::Taken { lines: number });
        if !take_tested(alloc, run, &line)? {
            return refuse(alloc, &LogRefusal::Replay { line: number }, outside);
        }
        let more = store_line(alloc, run, &line, only, to, outside)?;
        drop(line);
        count += more;
    }
    if number == 0 {
        return refuse(alloc, &LogRefusal::Replay { line: 1 }, outside);
    }
    tell_count(alloc, count, outside)?;
    Ok(None)
}

// The meshes of the lines of a log that begins with a mesh are stored, and its end is written.
fn replay_lines<O: Outside>(
    alloc: Global,
    mesh: JournalMesh,
    lines: LogReader,
    only: Option<u32>,
    to: Target<'_>,
    outside: &mut O,
) -> Result<Option<LogRefusal>, Stop>
    requires valid { IsValidSurface (mesh_in mesh) }
    requires few_lines { length lines < 2 ^ 31 }
    requires few_decimals { to.decimals ≤ DECIMALS_MAX }
    ensures { let mesh = mesh_in mesh in
        ReplaysLines only (target_of to.entry) mesh lines
        (O.around outside.old) (O.around outside.new) result }
{
    fitting_lines_are_safe();
    let mut lines = lines;
    let mut run = LogRun::new(alloc, mesh);
    replay_each(alloc, &mut run, &mut lines, only, to, outside)
}

/// Makes the meshes of a log again: the mesh file and the file of the log are fetched and read, the points with so many decimals, the lines
/// of the log are taken, one after another, and at each line that tells of a mesh the mesh is stored, as a run of `track` stores it: under
/// the prefix and the number that the line tells; where a number is given, only at lines that tell that number. The line `replayed K` is
/// written at the end, where K is how many meshes were stored.
///
/// Answers the refusal, of which the line is written alone, where a file is missing or too long, a text is outside its grammar, the mesh
/// is not of good shape or meets itself, or a line of the log does not fit the lines before it, or ends a step of which a pair fails. The
/// meshes of the lines before that one are stored. A stop leaves the first of the meshes stored.
pub fn replay<O: Outside>(
    alloc: Global,
    given: ReplayFiles<'_>,
    outside: &mut O,
) -> Result<Option<LogRefusal>, Stop>
    requires few { given.files.decimals ≤ DECIMALS_MAX }
    ensures headline { InWorld O.around outside (Replays (replay_names given.entry) result) }
    ensures same { (O.around outside.new).sides ≡ (O.around outside.old).sides }
{
    match prepare_log(alloc, given.files, outside)? {
        PreparedLog::No(why) => refuse(alloc, &why, outside),
        PreparedLog::Yes(mesh, lines) => {
            let to = Target {
                prefix: given.prefix,
                decimals: given.files.decimals,
            };
            replay_lines(alloc, mesh, lines, given.only, to, outside)
        },
    }
}
