//! The command that tests a proof of a log.
ghost use Rattle.std.specs.Prelude.{◌≡◌, ◌≤◌, ◌<◌, ◌^◌, false, length, option_map, Ok, None, Some, IfOk};
ghost use Rattle.grid_base.specs.declared.TheConstants.{DECIMALS_MAX};
ghost use Rattle.mesh_base.specs.Valid.{IsValidSurface};
ghost use Rattle.mesh_journal.specs.Journal.{mesh_in};
ghost use Rattle.proof_text.specs.Laws.{AreProofs};
ghost use Rattle.proof_text.specs.Views.{proof_view};
ghost use Rattle.log_run.specs.Laws.{IsValidState};
ghost use Rattle.log_run.specs.Motions.{moved_in};
ghost use Rattle.log_run.specs.States.{without_lines};
ghost use Rattle.outside_io.specs.Outside.{OnlyLooks, InWorld};
ghost use Rattle.track_input.specs.Named.{proof_names};
ghost use Rattle.track_prove.specs.Verifying.{FoundOf, verified_text};
ghost use Rattle.track_prove.specs.Taking.{IsJudgedHere, IsTaken, Goes, front_at};
ghost use Rattle.track_prove.specs.Doing.{EndsWellWith, VerifiesLines, VerifiesFiles};
ghost use Rattle.track_prove.specs.Headline.{Verifies};

use crate::due_proofs::DueProofs;
use crate::inputs::{Inputs, prepare_proof};
use crate::report::{Report, tell};
use crate::taken_lines::{LineOutcome, deny, take_clear, tells_motion};
use grid_base::NoMemory;
use line_text::{Field, put_line};
use log_read::LogReader;
use log_run::LogRun;
use log_run::laws::fitting_lines_are_safe;
use log_text::LogLine;
use mesh_journal::JournalMesh;
use motion_proof::Verdict;
use motion_proof::laws::accepted_motions_are_clear;
use outside_io::{Fact, Outside, Stop};
use proof_text::{ProofAt, ProofReader};
use std::alloc::Global;
use track_input::ProofFiles;
use track_log::LogRefusal;

// Takes a line that fits, by the verdict on the certificate of its motion.
fn take_judged(
    run: &mut LogRun,
    line: &LogLine,
    at: &ProofAt,
    verdict: Verdict,
) -> Result<LineOutcome, NoMemory>
    requires unspent { run.old.is_spent ≡ false }
    requires valid { IsValidState run.old }
    requires judged { IsJudgedHere run.old line.now at.now verdict }
    ensures told { let motion = moved_in run.old.replay line.now in
        IfOk result (IsTaken (FoundOf motion (Some (proof_view at.now))) run.old line.now) }
    ensures goes { result ≡ Ok LineOutcome.Fits → Goes run.old line.now run.new }
{
    accepted_motions_are_clear();
    match verdict {
        Verdict::Accepted => take_clear(run, line),
        _ => Ok(LineOutcome::Bad(verdict)),
    }
}

// Takes a line for which there is a certificate, where it fits and the certificate proves its motion.
fn verify_by(run: &mut LogRun, line: &LogLine, at: &ProofAt) -> Result<LineOutcome, NoMemory>
    requires unspent { run.old.is_spent ≡ false }
    requires valid { IsValidState run.old }
    ensures told { let motion = moved_in run.old.replay line.now in
        IfOk result (IsTaken (FoundOf motion (Some (proof_view at.now))) run.old line.now) }
    ensures goes { result ≡ Ok LineOutcome.Fits → Goes run.old line.now run.new }
{
    match run.judge(line, &at.proof)? {
        Some(verdict) => take_judged(run, line, at, verdict),
        None => deny(run, line),
    }
}

// Takes a line for which there is no certificate, where it fits and tells of no motion.
fn verify_bare(run: &mut LogRun, line: &LogLine) -> Result<LineOutcome, NoMemory>
    requires unspent { run.old.is_spent ≡ false }
    requires valid { IsValidState run.old }
    ensures told { let motion = moved_in run.old.replay line.now in
        IfOk result (IsTaken (FoundOf motion None) run.old line.now) }
    ensures goes { result ≡ Ok LineOutcome.Fits → Goes run.old line.now run.new }
{
    if tells_motion(line) {
        deny(run, line)
    } else {
        take_clear(run, line)
    }
}

// Takes a line of a log, where it fits and its motion, if it has one, is proved by the first of these certificates.
fn verify_line(
    run: &mut LogRun,
    number: u32,
    line: &LogLine,
    due: &DueProofs,
) -> Result<LineOutcome, NoMemory>
    requires unspent { run.old.is_spent ≡ false }
    requires valid { IsValidState run.old }
    ensures told { let motion = moved_in run.old.replay line.now in
        IfOk result (IsTaken (FoundOf motion (front_at due.now number)) run.old line.now) }
    ensures goes { result ≡ Ok LineOutcome.Fits → Goes run.old line.now run.new }
{
    match due.front_at(number) {
        Some(at) => verify_by(run, line, at),
        None => verify_bare(run, line),
    }
}

// The report that so many motions are proved.
fn verified_report(alloc: Global, motions: u32) -> Result<Report, NoMemory>
    ensures { IfOk result (λ report. EndsWellWith report (verified_text motions)) }
{
    let mut text = Vec::new(alloc);
    put_line(
        &[Field::Text(b"verified"), Field::Number(u64::from(motions))],
        &mut text,
    )?;
    Ok(Report::Text(text))
}

// The lines of a log are taken, one after another: the line that tells how many motions are proved; or the refusal of the first line that
// does not fit, or of which the motion is not proved, or that tells of no motion where the proof has one; or of a motion behind the log.
// No line was taken before.
fn verify_each<O: Outside>(
    alloc: Global,
    run: &mut LogRun,
    lines: &mut LogReader,
    due: &mut DueProofs,
    outside: &mut O,
) -> Result<Report, NoMemory>
    requires fresh { run.old ≡ without_lines run.old.replay.mesh }
    requires valid { IsValidState run.old }
    requires few { length lines.old < 2 ^ 31 }
    requires order { AreProofs due.old }
    ensures verifies { let mesh = run.old.replay.mesh in
        IfOk result (VerifiesLines mesh lines.old due.old) }
    ensures same { O.around outside.new ≡ O.around outside.old }
{
    let mut motions: u32 = 0;
    let mut number: u32 = 0;
    while let Some(line) = lines.take_first(alloc)? {
        number += 1;
        outside.hear(Fact::Taken { lines: number });
        let outcome = verify_line(run, number, &line, due)?;
        drop(line);
        match outcome {
            LineOutcome::Fits => {}
            LineOutcome::Unfit => {
                return Ok(Report::Refused(LogRefusal::Replay { line: number }));
            }
            LineOutcome::Bad(verdict) => {
                return Ok(Report::Refused(LogRefusal::Motion {
                    line: number,
                    verdict,
                }));
            }
        }
        motions += due.pass(alloc, number)?;
    }
    if number == 0 {
        return Ok(Report::Refused(LogRefusal::Replay { line: 1 }));
    }
    match due.first_line() {
        Some(line) => Ok(Report::Refused(LogRefusal::Motion {
            line,
            verdict: Verdict::NoMotion,
        })),
        None => verified_report(alloc, motions),
    }
}

// What a proof shows of the lines of a log that begins with a mesh.
fn verify_lines<O: Outside>(
    alloc: Global,
    mesh: JournalMesh,
    lines: LogReader,
    proofs: ProofReader,
    outside: &mut O,
) -> Result<Report, NoMemory>
    requires valid { IsValidSurface (mesh_in mesh) }
    requires few { length lines < 2 ^ 31 }
    requires order { AreProofs proofs }
    ensures verifies { IfOk result (VerifiesLines (mesh_in mesh) lines proofs) }
    ensures same { O.around outside.new ≡ O.around outside.old }
{
    fitting_lines_are_safe();
    let mut lines = lines;
    let mut due = DueProofs::of(alloc, proofs)?;
    let mut run = LogRun::new(alloc, mesh);
    verify_each(alloc, &mut run, &mut lines, &mut due, outside)
}

// Fetches and reads a mesh, a log and a proof, and tests the proof. Nothing is written.
fn verify_files<O: Outside>(
    alloc: Global,
    given: ProofFiles<'_>,
    outside: &mut O,
) -> Result<Report, Stop>
    requires few { given.files.decimals ≤ DECIMALS_MAX }
    ensures verifies { let held = (O.around outside.old).world.holds.files in
        IfOk result (VerifiesFiles held (proof_names given.entry)) }
    ensures looks { OnlyLooks (O.around outside.old) (O.around outside.new) result }
{
    match prepare_proof(alloc, given, outside)? {
        Inputs::No(why) => Ok(Report::Refused(why)),
        Inputs::Yes(mesh, lines, proofs) => {
            Ok(verify_lines(alloc, mesh, lines, proofs, outside)?)
        }
    }
}

/// Tests a proof of a log, whoever wrote the two: the mesh file, the file of the log and the file of the proof are fetched and read, the
/// points with so many decimals, the lines of the log are taken, one after another, and each motion of which a line tells, of a step
/// or of an edit, has to have its certificate in the proof, by the number of the line, and no other line one. The line `verified M`
/// is written at the end, where M is the number of motions.
///
/// Answers the refusal, of which the line is written alone, where a file is missing or too long, a text is outside its grammar, the mesh
/// is not of good shape or meets itself, a line of the log does not fit the lines before it, or the motion at a line is not proved: the
/// log or the proof has none there, or the certificate is of another claim (`nomotion`), an entry is of no pair (`stranger`) or proves
/// nothing (`invalid`), or a pair lacks one (`missing`). Where it answers None, each line of the log is safe.
pub fn verify<O: Outside>(
    alloc: Global,
    files: ProofFiles<'_>,
    outside: &mut O,
) -> Result<Option<LogRefusal>, Stop>
    requires few { files.files.decimals ≤ DECIMALS_MAX }
    ensures headline { InWorld O.around outside (Verifies (proof_names files.entry) result) }
    ensures same { (O.around outside.new).sides ≡ (O.around outside.old).sides }
{
    let report = verify_files(alloc, files, outside)?;
    tell(alloc, report, outside)
}
