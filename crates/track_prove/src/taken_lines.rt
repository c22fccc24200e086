//! Lines of a log that are taken, or are not.
ghost use Rattle.std.specs.Prelude.{◌≡◌, false, Ok, is_some, IfOk};
ghost use Rattle.log_replay.specs.Replay.{Replay};
ghost use Rattle.log_run.specs.Laws.{IsValidState};
ghost use Rattle.log_run.specs.Motions.{moved_in};
ghost use Rattle.track_prove.specs.Taking.{IsClearIfFits, IsFitOrNot, IsDenied, Goes};

use edit_base::Change;
use grid_base::NoMemory;
use log_run::LogRun;
use log_run::laws::{clear_motions_are_clear_steps, fitting_lines_are_safe};
use log_text::LogLine;
use motion_proof::Verdict;

// What becomes of a line.
pub(crate) enum LineOutcome {
    // It fits, and nothing is against it: it is taken.
    Fits,
    // It does not fit.
    Unfit,
    // It fits, and this is against it.
    Bad(Verdict),
}

// Whether a line tells of a motion: one that ends a step does, and each done edit but a zip.
pub(crate) fn tells_motion(line: &LogLine) -> bool
    ensures { (r : Replay) → result ≡ is_some (moved_in r line.now) }
{
    match line {
        LogLine::Moved(_) => true,
        LogLine::Did(change) => moves_something(change),
        _ => false,
    }
}

// Whether a done edit moves something.
fn moves_something(change: &Change) -> bool
    ensures { (r : Replay) → result ≡ is_some (moved_in r (LogLine.Did change.now)) }
{
    match change {
        Change::Zip { .. } => false,
        _ => true,
    }
}

// Takes a line, where it fits, of which the motion is clear as its kind claims.
pub(crate) fn take_clear(run: &mut LogRun, line: &LogLine) -> Result<LineOutcome, NoMemory>
    requires unspent { run.old.is_spent ≡ false }
    requires valid { IsValidState run.old }
    requires clear { IsClearIfFits run.old line.now }
    ensures told { IfOk result (IsFitOrNot run.old line.now) }
    ensures goes { result ≡ Ok LineOutcome.Fits → Goes run.old line.now run.new }
{
    fitting_lines_are_safe();
    clear_motions_are_clear_steps();
    if run.take(line)? {
        Ok(LineOutcome::Fits)
    } else {
        Ok(LineOutcome::Unfit)
    }
}

// What becomes of a line that is a motion where the proof has none, or none where it has one: it does not fit, or that is against it.
pub(crate) fn deny(run: &mut LogRun, line: &LogLine) -> Result<LineOutcome, NoMemory>
    requires unspent { run.old.is_spent ≡ false }
    requires valid { IsValidState run.old }
    ensures { IfOk result (IsDenied run.old line.now) }
{
    if run.take(line)? {
        Ok(LineOutcome::Bad(Verdict::NoMotion))
    } else {
        Ok(LineOutcome::Unfit)
    }
}
