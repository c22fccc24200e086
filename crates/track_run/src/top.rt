ghost use Rattle.std.specs.Prelude.{◌≡◌, ◌≤◌, ◌<◌, ◌^◌, length, map, string_bytes};
ghost use Rattle.grid_base.specs.declared.TheConstants.{DECIMALS_MAX};
ghost use Rattle.mesh_base.specs.Sides.{IsClosed};
ghost use Rattle.mesh_base.specs.Valid.{IsValidSurface};
ghost use Rattle.step_text.specs.Ranges.{AreInRange};
ghost use Rattle.mesh_field.specs.Stored.{IsWellKept};
ghost use Rattle.mesh_sizing.specs.Sizes.{IsWellKept as SizesWell};
ghost use Rattle.outside_io.specs.Outside.{Counts, holds_of};
ghost use Rattle.outside_io.specs.World.{world};
ghost use Rattle.track_engine.specs.Targets.{target_of};
ghost use Rattle.track_engine.specs.Answered.{known};
ghost use Rattle.track_run.specs.Answered.{FollowsMesh, FollowsTest};
ghost use Rattle.track_run.specs.Outcomes.{outcome_of, outcome_at, outcome_from, outcome_of_try, outcome_of_log, outcome_by_log};
ghost use Rattle.track_run.specs.Headline.{RunsFor, TracksJob};

use crate::ending::tell_ending;
use crate::outcome::Outcome;
use grid_base::{Point, Shift};
use log_text::{LogLine, Refusal, VERSION};
use log_write::Listener;
use mesh_base::{Scale, Surface};
use mesh_field::Fields;
use mesh_journal::JournalMesh;
use mesh_sizing::{Band, Sizing};
use outside_io::{Desk, Ends, Sink, Stop};
use pair_scan::first_meeting;
use std::alloc::Global;
use step_text::Directives;
use track_check::check;
use track_convert::convert;
use track_engine::{Engine, RunTerms, Target, finish};
use track_input::{Command, Ready, command_of, prepare};
use track_log::LogRefusal;
use track_measure::measure;
use track_prove::{prove, verify};
use track_replay::replay;
use track_try::try_cubes;

// The outcome that the last line of a whole log tells.
fn outcome_of(ending: Option<Refusal>) -> Outcome
    ensures { result ≡ outcome_of ending }
{
    match ending {
        None => Outcome::Done,
        Some(Refusal::Long { file, seen }) => Outcome::TooLong { file, seen },
        Some(Refusal::Missing { file }) => Outcome::Missing { file },
        Some(Refusal::Mesh(fault)) => Outcome::MeshText(fault),
        Some(Refusal::Shape(fault)) => Outcome::MeshShape(fault),
        Some(Refusal::Meets(pair)) => Outcome::MeshMeets(pair),
        Some(Refusal::Steps(fault)) => Outcome::StepText(fault),
        Some(Refusal::StepUse { line, why }) => Outcome::StepUse { line, why },
    }
}

// The outcome of a run that was stopped.
fn outcome_at(stop: Stop) -> Outcome
    ensures { result ≡ outcome_at stop }
{
    match stop {
        Stop::NoMemory => Outcome::NoMemory,
        Stop::DeskFault => Outcome::DeskFault,
        Stop::SinkFault => Outcome::SinkFault,
    }
}

// The outcome of a run that ended so.
fn outcome_from(ended: Result<Option<Refusal>, Stop>) -> Outcome
    ensures { result ≡ outcome_from ended }
{
    match ended {
        Ok(ending) => outcome_of(ending),
        Err(stop) => outcome_at(stop),
    }
}

// The outcome of a try that ended so.
fn outcome_of_try(ended: Result<(), Stop>) -> Outcome
    ensures { result ≡ outcome_of_try ended }
{
    match ended {
        Ok(()) => Outcome::Done,
        Err(stop) => outcome_at(stop),
    }
}

// The outcome that the last line of a command tells that reads a log.
fn outcome_of_log(ending: Option<LogRefusal>) -> Outcome
    ensures { result ≡ outcome_of_log ending }
{
    match ending {
        None => Outcome::Done,
        Some(LogRefusal::Input(why)) => outcome_of(Some(why)),
        Some(LogRefusal::Log(fault)) => Outcome::LogText(fault),
        Some(LogRefusal::Proof(fault)) => Outcome::ProofText(fault),
        Some(LogRefusal::Replay { line }) => Outcome::LogUse { line },
        Some(LogRefusal::Motion { line, verdict }) => Outcome::ProofBad { line, verdict },
    }
}

// The outcome of a command that reads a log and ended so.
fn outcome_by_log(ended: Result<Option<LogRefusal>, Stop>) -> Outcome
    ensures { result ≡ outcome_by_log ended }
{
    match ended {
        Ok(ending) => outcome_of_log(ending),
        Err(stop) => outcome_at(stop),
    }
}

// The first mesh, which is sound, closed and clear, is saved, and then the directives are followed.
fn begin<S: Surface + Drop, O: Listener, F: Fn(u8, Point) -> Shift, G: Fn(Point) -> Band>(
    alloc: Global,
    terms: &RunTerms<'_, F, G>,
    mesh: S,
    steps: &Directives,
    outside: &mut O,
) -> Result<Option<Refusal>, Stop>
    requires few { terms.now.to.decimals ≤ DECIMALS_MAX }
    requires fields { IsWellKept F.Fn terms.now.fields.now }
    requires sizing { SizesWell G.Fn terms.now.sizing.now }
    requires good { IsValidSurface (S.mesh mesh) }
    requires ranges { AreInRange steps.now }
    requires count { length steps.now < 2 ^ 31 }
    ensures follows { FollowsMesh
        (known F.Fn terms.now.fields.now G.Fn terms.now.sizing.now)
        (target_of terms.now.to) (S.mesh mesh) steps.now
        (holds_of (O.around outside.old)) (holds_of (O.around outside.new)) result }
    ensures counts { Counts (O.around outside.old) (O.around outside.new) result }
{
    let mut engine = Engine::new(alloc, mesh)?;
    engine.save(alloc, terms.to, outside)?;
    let directives = steps.as_slice();
    let ended = engine.follow(alloc, terms, directives, outside);
    tell_ending(alloc, &engine, directives, &ended, outside);
    ended
}

// The mesh is tested, and begun with where no edge meets a face that shares no vertex with it.
fn test_and_begin<S: Surface + Drop, O: Listener, F: Fn(u8, Point) -> Shift, G: Fn(Point) -> Band>(
    alloc: Global,
    terms: &RunTerms<'_, F, G>,
    mesh: S,
    steps: &Directives,
    outside: &mut O,
) -> Result<Option<Refusal>, Stop>
    requires few { terms.now.to.decimals ≤ DECIMALS_MAX }
    requires fields { IsWellKept F.Fn terms.now.fields.now }
    requires sizing { SizesWell G.Fn terms.now.sizing.now }
    requires closed { IsClosed (S.mesh mesh) }
    requires ranges { AreInRange steps.now }
    requires count { length steps.now < 2 ^ 31 }
    ensures follows { FollowsTest
        (known F.Fn terms.now.fields.now G.Fn terms.now.sizing.now)
        (target_of terms.now.to) (S.mesh mesh) steps.now
        (holds_of (O.around outside.old)) (holds_of (O.around outside.new)) result }
    ensures counts { Counts (O.around outside.old) (O.around outside.new) result }
{
    match first_meeting(alloc, &mesh)? {
        None => begin(alloc, terms, mesh, steps, outside),
        Some(pair) => finish(alloc, outside, LogLine::Refused(Refusal::Meets(pair))),
    }
}

// The whole log of the job of two files.
fn track<O: Listener, F: Fn(u8, Point) -> Shift, G: Fn(Point) -> Band>(
    alloc: Global,
    scale: Scale,
    mesh_name: &str,
    step_name: &str,
    terms: &RunTerms<'_, F, G>,
    outside: &mut O,
) -> Result<Option<Refusal>, Stop>
    requires few { terms.now.to.decimals ≤ DECIMALS_MAX }
    requires fields { IsWellKept F.Fn terms.now.fields.now }
    requires sizing { SizesWell G.Fn terms.now.sizing.now }
    ensures tracks { TracksJob scale
        (known F.Fn terms.now.fields.now G.Fn terms.now.sizing.now)
        mesh_name.now step_name.now (target_of terms.now.to)
        (holds_of (O.around outside.old)) (holds_of (O.around outside.new)) result }
    ensures counts { Counts (O.around outside.old) (O.around outside.new) result }
{
    outside.tell(alloc, &LogLine::First { version: VERSION })?;
    match prepare(
        alloc,
        scale,
        mesh_name,
        step_name,
        terms.to.decimals,
        outside,
    )? {
        Ready::No(why) => finish(alloc, outside, LogLine::Refused(why)),
        Ready::Yes(lists, steps) => {
            let mesh = JournalMesh::of(alloc, scale, &lists)?;
            test_and_begin(alloc, terms, mesh, &steps, outside)
        }
    }
}

/// Tracks, converts or checks a mesh, measures, proves, verifies or replays a log, or tries a job that is made, as the words say:
/// `track MESH STEPS PREFIX`, `convert FROM TO`, `check MESH`, `measure MESH LOG`, `prove MESH LOG`, `verify MESH LOG PROOF` or
/// `replay MESH LOG PREFIX`, or one of these and `--large`, `--decimals N` with one digit N from 0 to 6, or both, `replay` too with
/// `--only K`, or `try N KEY` with N from 1 to 12 and KEY below 2^32. With `--large` files, and the meshes in them, may be large: else a
/// file has at most 67,108,864 bytes, and a mesh 65,536 vertices and 131,072 faces.
///
/// To track a mesh, the mesh and the steps are fetched from the desk and read, the log is written to the sink, a line at a time, and
/// meshes are stored under the prefix, a dash, a number of at least six digits, and `.obj`. To convert it, the mesh of the one file is
/// stored in the other, each in the format of its ending, and one line is written. To check it, a line is written for each thing that is
/// wrong with it, and then one with their number. To try a job, N * N * N cubes are made and moved as KEY picks, and the log of that is
/// summed up in seven lines; no file is read or stored.
///
/// To measure a log, its lines are taken one after another, from the mesh on, and it is told what they did to volume and shape, up to the
/// first that does not fit; nothing is stored. To prove it, its lines are taken so, and a certificate of each motion that they tell is
/// written; to verify a proof, each of its certificates is checked against the motion of its line, whoever wrote it, and the number of
/// motions is written, or the first thing that is found against one; nothing is stored. To replay it, its lines are taken so, and the
/// meshes that they save, or the one with number K, are stored as where a mesh is tracked.
///
/// All other words are taken as one of these forms with the same first word whose words are among them, or answered with Usage. A
/// directive that drives asks the stored field that it names, and one that fits edges asks the sizing.
///
/// The tracker is that of Brochu and Bridson, "Robust topological operations for dynamic explicit surfaces" (2009).
pub fn run<'a, D: Desk, K: Sink, F: Fn(u8, Point) -> Shift, G: Fn(Point) -> Band>(
    alloc: Global,
    words: &[String],
    desk: &mut D,
    out: &mut K,
    fields: &'a Fields<F>,
    sizing: &'a Sizing<G>,
) -> Outcome
    requires fields { IsWellKept F.Fn fields.now }
    requires sizing { SizesWell G.Fn sizing.now }
    ensures headline { RunsFor (known F.Fn fields.now G.Fn sizing.now)
        (map (λ word. string_bytes word) words.now) result
        (world D.files D.faults K.written K.faults desk.old out.old)
        (world D.files D.faults K.written K.faults desk.new out.new) }
{
    let Ok(found) = command_of(alloc, words) else {
        return Outcome::NoMemory;
    };
    let Some(command) = found else {
        return Outcome::Usage;
    };
    let mut ends = Ends { desk, out };
    match command {
        Command::Track {
            mesh,
            steps,
            prefix,
            scale,
            decimals,
        } => {
            let to = Target { prefix, decimals };
            let terms = RunTerms { to, fields, sizing };
            let ended = track(alloc, scale, mesh, steps, &terms, &mut ends);
            outcome_from(ended)
        }
        Command::Convert {
            from,
            to,
            scale,
            decimals,
        } => {
            let ended = convert(alloc, scale, from, to, decimals, &mut ends);
            outcome_from(ended)
        }
        Command::Try { cubes, key } => {
            let ended = try_cubes(alloc, cubes, key, &mut ends);
            outcome_of_try(ended)
        }
        Command::Measure(files) => {
            let ended = measure(alloc, files, &mut ends);
            outcome_by_log(ended)
        }
        Command::Prove(files) => {
            let ended = prove(alloc, files, &mut ends);
            outcome_by_log(ended)
        }
        Command::Verify(given) => {
            let ended = verify(alloc, given, &mut ends);
            outcome_by_log(ended)
        }
        Command::Replay(given) => {
            let ended = replay(alloc, given, &mut ends);
            outcome_by_log(ended)
        }
        Command::Check {
            mesh,
            scale,
            decimals,
        } => {
            let ended = check(alloc, scale, mesh, decimals, &mut ends);
            outcome_from(ended)
        }
    }
}
