//! The command that writes a proof of a log.
ghost use Rattle.std.specs.Prelude.{◌≡◌, ◌≤◌, ◌<◌, ◌^◌, [], false, length, Ok, IfOk};
ghost use Rattle.grid_base.specs.declared.TheConstants.{DECIMALS_MAX};
ghost use Rattle.mesh_base.specs.Valid.{IsValidSurface};
ghost use Rattle.mesh_journal.specs.Journal.{mesh_in};
ghost use Rattle.log_run.specs.Laws.{IsValidState};
ghost use Rattle.log_run.specs.Motions.{moved_in};
ghost use Rattle.log_run.specs.States.{without_lines};
ghost use Rattle.outside_io.specs.Outside.{OnlyLooks, InWorld};
ghost use Rattle.track_input.specs.Named.{log_names};
ghost use Rattle.track_prove.specs.Proving.{MakesVerdict};
ghost use Rattle.track_prove.specs.Taking.{IsMadeHere, IsTaken, Goes, AddsProof};
ghost use Rattle.track_prove.specs.Doing.{ProvesLines, ProvesFiles};
ghost use Rattle.track_prove.specs.Headline.{Proves};

use crate::report::{Report, tell};
use crate::taken_lines::{LineOutcome, take_clear};
use grid_base::NoMemory;
use log_read::LogReader;
use log_run::LogRun;
use log_run::laws::fitting_lines_are_safe;
use log_text::LogLine;
use mesh_journal::JournalMesh;
use motion_proof::laws::accepted_motions_are_clear;
use motion_proof::{Certificate, Made, Verdict};
use outside_io::{Fact, Outside, Stop};
use proof_text::{ProofAt, Proofs, print_proof};
use std::alloc::Global;
use track_input::LogFiles;
use track_log::{LogRefusal, PreparedLog, prepare_log};

// Takes a line that fits, and puts the certificate of its motion behind the others.
fn take_proved(
    run: &mut LogRun,
    number: u32,
    line: &LogLine,
    proof: Certificate,
    proofs: &mut Proofs,
) -> Result<LineOutcome, NoMemory>
    requires unspent { run.old.is_spent ≡ false }
    requires valid { IsValidState run.old }
    requires made { IsMadeHere run.old line.now (Made.Proof proof) }
    ensures told { let motion = moved_in run.old.replay line.now in
        IfOk result (IsTaken (MakesVerdict motion) run.old line.now) }
    ensures goes { result ≡ Ok LineOutcome.Fits → Goes run.old line.now run.new }
    ensures proofs { let motion = moved_in run.old.replay line.now in
        result ≡ Ok LineOutcome.Fits → AddsProof number motion proofs.old proofs.new }
{
    accepted_motions_are_clear();
    proofs.push(ProofAt {
        line: number,
        proof,
    })?;
    take_clear(run, line)
}

// Takes a line that fits, by what is made of its motion, or tells the first pair of the motion that does not pass.
fn take_made(
    run: &mut LogRun,
    number: u32,
    line: &LogLine,
    made: Made,
    proofs: &mut Proofs,
) -> Result<LineOutcome, NoMemory>
    requires unspent { run.old.is_spent ≡ false }
    requires valid { IsValidState run.old }
    requires made { IsMadeHere run.old line.now made }
    ensures told { let motion = moved_in run.old.replay line.now in
        IfOk result (IsTaken (MakesVerdict motion) run.old line.now) }
    ensures goes { result ≡ Ok LineOutcome.Fits → Goes run.old line.now run.new }
    ensures proofs { let motion = moved_in run.old.replay line.now in
        result ≡ Ok LineOutcome.Fits → AddsProof number motion proofs.old proofs.new }
{
    match made {
        Made::Fails(pair) => Ok(LineOutcome::Bad(Verdict::Missing(pair))),
        Made::Proof(proof) => take_proved(run, number, line, proof, proofs),
    }
}

// Takes a line of a log, where it fits, and puts the certificate of its motion behind the others, if it has one; or tells the first pair
// of the motion that does not pass.
fn prove_line(
    run: &mut LogRun,
    number: u32,
    line: &LogLine,
    proofs: &mut Proofs,
) -> Result<LineOutcome, NoMemory>
    requires unspent { run.old.is_spent ≡ false }
    requires valid { IsValidState run.old }
    ensures told { let motion = moved_in run.old.replay line.now in
        IfOk result (IsTaken (MakesVerdict motion) run.old line.now) }
    ensures goes { result ≡ Ok LineOutcome.Fits → Goes run.old line.now run.new }
    ensures proofs { let motion = moved_in run.old.replay line.now in
        result ≡ Ok LineOutcome.Fits → AddsProof number motion proofs.old proofs.new }
{
    match run.certify(line)? {
        None => take_clear(run, line),
        Some(made) => take_made(run, number, line, made, proofs),
    }
}

// The proof of a log's lines, taken one after another; or the refusal of the first that does not fit, or of which the motion has a pair
// that does not pass. No line was taken before, and there is no certificate yet.
fn prove_each<O: Outside>(
    alloc: Global,
    run: &mut LogRun,
    proofs: &mut Proofs,
    lines: &mut LogReader,
    outside: &mut O,
) -> Result<Report, NoMemory>
    requires fresh { run.old ≡ without_lines run.old.replay.mesh }
    requires valid { IsValidState run.old }
    requires none { proofs.old ≡ [] }
    requires few { length lines.old < 2 ^ 31 }
    ensures proves { let mesh = run.old.replay.mesh in IfOk result (ProvesLines mesh lines.old) }
    ensures same { O.around outside.new ≡ O.around outside.old }
{
    let mut number: u32 = 0;
    while let Some(line) = lines.take_first(alloc)? {
        number += 1;
        outside.hear(Fact::Taken { lines: number });
        let outcome = prove_line(run, number, &line, proofs)?;
        drop(line);
        match outcome {
            LineOutcome::Fits => {}
            LineOutcome::Unfit => {
                return Ok(Report::Refused(LogRefusal::Replay { line: number }));
            }
            LineOutcome::Bad(verdict) => {
                return Ok(Report::Refused(LogRefusal::Motion {
                    line: number,
                    verdict,
                }));
            }
        }
    }
    if number == 0 {
        return Ok(Report::Refused(LogRefusal::Replay { line: 1 }));
    }
    let text = print_proof(alloc, proofs)?;
    Ok(Report::Text(text))
}

// The proof of the lines of a log that begins with a mesh, or why there is none.
fn prove_lines<O: Outside>(
    alloc: Global,
    mesh: JournalMesh,
    lines: LogReader,
    outside: &mut O,
) -> Result<Report, NoMemory>
    requires valid { IsValidSurface (mesh_in mesh) }
    requires few { length lines < 2 ^ 31 }
    ensures proves { IfOk result (ProvesLines (mesh_in mesh) lines) }
    ensures same { O.around outside.new ≡ O.around outside.old }
{
    fitting_lines_are_safe();
    let mut lines = lines;
    let mut run = LogRun::new(alloc, mesh);
    let mut proofs = Proofs::new(alloc);
    prove_each(alloc, &mut run, &mut proofs, &mut lines, outside)
}

// Fetches and reads a mesh and a log, and proves the log. Nothing is written.
fn prove_files<O: Outside>(
    alloc: Global,
    files: LogFiles<'_>,
    outside: &mut O,
) -> Result<Report, Stop>
    requires few { files.decimals ≤ DECIMALS_MAX }
    ensures proves { let held = (O.around outside.old).world.holds.files in
        IfOk result (ProvesFiles held (log_names files.entry)) }
    ensures looks { OnlyLooks (O.around outside.old) (O.around outside.new) result }
{
    match prepare_log(alloc, files, outside)? {
        PreparedLog::No(why) => Ok(Report::Refused(why)),
        PreparedLog::Yes(mesh, lines) => { Ok(prove_lines(alloc, mesh, lines, outside)?) },
    }
}

/// Writes a proof of a log: the mesh file and the file of the log are fetched and read, the points with so many decimals, the lines of the
/// log are taken, one after another, and for each motion of which a line tells, of a step or of an edit, there is a certificate, from
/// which anyone can see that no pair of the mesh meets in it, in time that grows with the certificate. The text is written at the end,
/// in whole.
///
/// Answers the refusal, of which the line is written alone, where a file is missing or too long, a text is outside its grammar, the mesh
/// is not of good shape or meets itself, a line of the log does not fit the lines before it, or a pair of a motion does not pass its
/// written test (`missing`). Where it answers None, each line of the log is safe.
pub fn prove<O: Outside>(
    alloc: Global,
    files: LogFiles<'_>,
    outside: &mut O,
) -> Result<Option<LogRefusal>, Stop>
    requires few { files.decimals ≤ DECIMALS_MAX }
    ensures headline { InWorld O.around outside (Proves (log_names files.entry) result) }
    ensures same { (O.around outside.new).sides ≡ (O.around outside.old).sides }
{
    let report = prove_files(alloc, files, outside)?;
    tell(alloc, report, outside)
}
