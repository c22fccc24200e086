//! Lines of a log that are taken.
ghost use Rattle.std.specs.Prelude.{◌≡◌, ◌↔◌, false, true, Ok, IfOk, IsTrue};
ghost use Rattle.log_run.specs.Laws.{IsValidState};
ghost use Rattle.log_run.specs.States.{with_line};
ghost use Rattle.track_log.specs.Taking.{FitsTested};
ghost use Rattle.track_log.specs.Passing.{StepIsTested, GoesOn};

use grid_base::{DEPTH_MAX, NoMemory};
use log_run::LogRun;
use log_run::laws::{fitting_lines_are_safe, shifts_tell_the_step};
use log_text::LogLine;
use pair_scan::all_pass;
use std::alloc::Global;

// Whether no pair of the motion of the step that is begun fails, tested to the greatest depth; true where none is begun.
fn step_passes(alloc: Global, run: &LogRun) -> Result<bool, NoMemory>
    requires unspent { run.now.is_spent ≡ false }
    ensures { IfOk result (StepIsTested run.now) }
{
    shifts_tell_the_step();
    match run.moves() {
        Some(shifts) => all_pass(alloc, run.mesh(), shifts, DEPTH_MAX),
        None => Ok(true),
    }
}

// Whether a line ends no step of which a pair fails.
fn step_goes(alloc: Global, run: &LogRun, line: &LogLine) -> Result<bool, NoMemory>
    requires unspent { run.now.is_spent ≡ false }
    ensures { IfOk result (GoesOn run.now line.now) }
{
    match line {
        LogLine::Moved(_) => step_passes(alloc, run),
        _ => Ok(true),
    }
}

/// Takes a line, where it fits the lines before it and, if it ends a step, no pair of the step's motion fails, tested to the greatest
/// depth; and answers whether it does. Each mesh stays sound, closed and clear. After any other answer nothing is said of the
/// replay.
pub fn take_tested(alloc: Global, run: &mut LogRun, line: &LogLine) -> Result<bool, NoMemory>
    requires unspent { run.old.is_spent ≡ false }
    requires valid { IsValidState run.old }
    ensures fits { IfOk result (λ fits. IsTrue fits ↔ FitsTested run.old line.now) }
    ensures taken { result ≡ Ok true → run.new ≡ with_line run.old line.now }
    ensures valid { result ≡ Ok true → IsValidState run.new }
{
    fitting_lines_are_safe();
    if !step_goes(alloc, run, line)? {
        return Ok(false);
    }
    run.take(line)
}
