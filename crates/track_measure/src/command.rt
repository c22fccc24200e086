//! The command that tells what a log did to volume and shape.
ghost use Rattle.std.specs.Prelude.{◌≡◌, ◌≤◌, ◌<◌, ◌+◌, ◌^◌, ◌↔◌, ℕ, false, true, length, Ok, IfOk, IsTrue};
ghost use Rattle.grid_base.specs.declared.TheConstants.{DECIMALS_MAX};
ghost use Rattle.mesh_base.specs.Sides.{IsClosed};
ghost use Rattle.mesh_base.specs.Valid.{IsValidSurface};
ghost use Rattle.mesh_journal.specs.Journal.{mesh_in};
ghost use Rattle.log_run.specs.Laws.{IsValidState};
ghost use Rattle.log_run.specs.States.{LogState, with_line, without_lines};
ghost use Rattle.outside_io.specs.Outside.{Counts, InWorld};
ghost use Rattle.track_input.specs.Named.{log_names};
ghost use Rattle.track_log.specs.Taking.{FitsTested};
ghost use Rattle.track_log.specs.Telling.{Tells};
ghost use Rattle.track_measure.specs.MeasureLines.{shape_of, measure_of_line};
ghost use Rattle.track_measure.specs.Texts.{text_of, text_of_told};
ghost use Rattle.track_measure.specs.Measured.{TellsSome, MeasuresLine, MeasuresLines};
ghost use Rattle.track_measure.specs.Headline.{Measures};

use crate::kept_shape::line_keeps_shape;
use crate::measures::{MeasureLine, MeshShape, measure_of_line, shape_of};
use crate::printer::print_measure;
use grid_base::NoMemory;
use log_read::LogReader;
use log_run::LogRun;
use log_run::laws::fitting_lines_are_safe;
use log_text::LogLine;
use mesh_journal::JournalMesh;
use outside_io::{Fact, Outside, Stop};
use std::alloc::Global;
use track_input::LogFiles;
use track_log::{LogRefusal, PreparedLog, prepare_log, put_text, refuse, take_tested};

// Writes one line.
fn tell<O: Outside>(alloc: Global, line: MeasureLine, outside: &mut O) -> Result<(), Stop>
    ensures { Tells (text_of line) (O.around outside.old) (O.around outside.new) result }
{
    let mut text = Vec::new(alloc);
    print_measure(line, &mut text)?;
    put_text(outside, &text)
}

// Writes what a line of a log tells, if it tells something: the mesh had one shape before it, and is this one behind it, of this shape.
fn tell_line<O: Outside>(
    alloc: Global,
    run: &LogRun,
    number: u32,
    line: &LogLine,
    before: MeshShape,
    shape: MeshShape,
    outside: &mut O,
) -> Result<(), Stop>
    requires { shape ≡ shape_of run.now.replay.mesh }
    ensures { TellsSome (text_of_told (measure_of_line number before run.now.replay.mesh line.now))
        (O.around outside.old) (O.around outside.new) result }
{
    match measure_of_line(alloc, run.mesh(), number, line, before, shape)? {
        Some(found) => tell(alloc, found, outside),
        None => Ok(()),
    }
}

// The shape of the mesh behind a line, which is the one before it where the line keeps it.
fn shape_behind(
    alloc: Global,
    run: &LogRun,
    keeps: bool,
    before: MeshShape,
) -> Result<MeshShape, NoMemory>
    requires { keeps ≡ true → before ≡ shape_of run.now.replay.mesh }
    ensures { IfOk result (λ shape. shape ≡ shape_of run.now.replay.mesh) }
{
    if keeps {
        Ok(before)
    } else {
        shape_of(alloc, run.mesh())
    }
}

// Takes a line of a log, where it fits, and writes what it tells; and answers whether it does. `shape` is that of the mesh, before and
// after.
fn measure_line<O: Outside>(
    alloc: Global,
    run: &mut LogRun,
    number: u32,
    line: &LogLine,
    shape: &mut MeshShape,
    outside: &mut O,
) -> Result<bool, Stop>
    requires unspent { run.old.is_spent ≡ false }
    requires valid { IsValidState run.old }
    requires shape { shape.old ≡ shape_of run.old.replay.mesh }
    ensures taken { result ≡ Ok true → run.new ≡ with_line run.old line.now }
    ensures valid { result ≡ Ok true → IsValidState run.new }
    ensures shape { result ≡ Ok true → shape.new ≡ shape_of run.new.replay.mesh }
    ensures measures { MeasuresLine number run.old line.now (O.around outside.old) (O.around outside.new) result }
{
    let keeps = line_keeps_shape(alloc, run.mesh(), line)?;
    if !take_tested(alloc, run, line)? {
        return Ok(false);
    }
    let before = *shape;
    *shape = shape_behind(alloc, run, keeps, before)?;
    tell_line(alloc, run, number, line, before, *shape, outside)?;
    Ok(true)
}

// Takes the lines of a log, one after another, and writes what they tell, and then the end, or the refusal of the first that does not fit.
// No line was taken before.
fn measure_each<O: Outside>(
    alloc: Global,
    run: &mut LogRun,
    lines: &mut LogReader,
    outside: &mut O,
) -> Result<Option<LogRefusal>, Stop>
    requires fresh { run.old ≡ without_lines run.old.replay.mesh }
    requires valid { IsValidState run.old }
    requires few { length lines.old < 2 ^ 31 }
    ensures { let mesh = run.old.replay.mesh in
        MeasuresLines mesh lines.old (O.around outside.old) (O.around outside.new) result }
{
    let mut shape = shape_of(alloc, run.mesh())?;
    let mut number: u32 = 0;
    while let Some(line) = lines.take_first(alloc)? {
        number += 1;
        outside.hear(Fact::Taken { lines: number });
        let fits = measure_line(alloc, run, number, &line, &mut shape, outside)?;
        drop(line);
        if !fits {
            return refuse(alloc, &LogRefusal::Replay { line: number }, outside);
        }
    }
    if number == 0 {
        return refuse(alloc, &LogRefusal::Replay { line: 1 }, outside);
    }
    tell(alloc, MeasureLine::End, outside)?;
    Ok(None)
}

// What the lines of a log tell that begins with a mesh is written, with its end.
fn measure_lines<O: Outside>(
    alloc: Global,
    mesh: JournalMesh,
    lines: LogReader,
    outside: &mut O,
) -> Result<Option<LogRefusal>, Stop>
    requires valid { IsValidSurface (mesh_in mesh) }
    requires few { length lines < 2 ^ 31 }
    ensures { MeasuresLines (mesh_in mesh) lines (O.around outside.old) (O.around outside.new) result }
{
    fitting_lines_are_safe();
    let mut lines = lines;
    let mut run = LogRun::new(alloc, mesh);
    measure_each(alloc, &mut run, &mut lines, outside)
}

/// Tells what a log did to volume and shape: the mesh file and the file of the log are fetched and read, the points with so many
/// decimals, and the lines of the log are taken, one after another. At each mesh that the log saves one line tells six times the signed
/// volume, the components, the Euler number and the genus; behind each other line after which components or Euler number differ from
/// before, one line tells them; and the last line is `end`.
///
/// Answers the refusal, of which the line is written last, where a file is missing or too long, a text is outside its grammar, the mesh
/// is not of good shape or meets itself, or a line of the log does not fit the lines before it, or ends a step of which a pair fails.
pub fn measure<O: Outside>(
    alloc: Global,
    files: LogFiles<'_>,
    outside: &mut O,
) -> Result<Option<LogRefusal>, Stop>
    requires few { files.decimals ≤ DECIMALS_MAX }
    ensures headline { InWorld O.around outside (Measures (log_names files.entry) result) }
    ensures same { (O.around outside.new).sides ≡ (O.around outside.old).sides }
{
    match prepare_log(alloc, files, outside)? {
        PreparedLog::No(why) => refuse(alloc, &why, outside),
        PreparedLog::Yes(mesh, lines) => measure_lines(alloc, mesh, lines, outside),
    }
}
