//! Laws of logs. Each is the contract of a function that does nothing.

ghost use Rattle.track_engine.specs.FirstParts.{FewerAnswersGiveAFirstPart, NoFieldsGiveOneLog, NoFieldsGiveAFirstPart};
ghost use Rattle.track_engine.specs.Again.{LogsAreAgain};
ghost use Rattle.track_engine.specs.Asking.{EditsKeepTheRun, EditsCanBeDoneAgain, UndoKeepsTheRun, UndoCanBeDoneAgain};

use grid_base::{Point, Shift};
use mesh_sizing::Band;

/// The log by fewer answers is a first part of the log by more: it is cut short before a directive that is not answered, and otherwise
/// nothing in it hangs on the answers that are to come. (Behind an answer of the first edges of a pass alone both are cut short.)
pub fn fewer_answers_give_a_first_part()
    ensures { FewerAnswersGiveAFirstPart }
{}

/// Where no field is stored, whatever type they would have, and no directive is a pass by the sizing, directives have one log, in which
/// each drive is refused; a run that is stopped has a first part of it.
pub fn without_fields_there_is_one_log<F: Fn(u8, Point) -> Shift, G: Fn(Point) -> Band>()
    ensures whole { NoFieldsGiveOneLog F.Fn G.Fn }
    ensures stopped { NoFieldsGiveAFirstPart F.Fn G.Fn }
{}

/// What the log of directives tells can be done again by the log alone, whatever fields and the sizing answer, from wherever a run stands: each `move`
/// line names one more vertex that may move, each pair of a motion passes, tested to the greatest depth, and each edit, asked for again
/// by what its line tells, is done with the same ids, points and turn.
pub fn logs_can_be_done_again()
    ensures { LogsAreAgain }
{}

/// Edits that are asked for by ids, whichever they are, from wherever a run stands: their lines keep the promises of a log, so that each that is
/// told as done is safe where it stands; they lead to where the run then stands, with a mesh that is sound, closed and clear; and each that
/// is told as done can be done again by the log alone.
pub fn edits_keep_the_run()
    ensures keeps { EditsKeepTheRun }
    ensures again { EditsCanBeDoneAgain }
{}

/// The same of a group that is taken back by choice.
pub fn undo_keeps_the_run()
    ensures keeps { UndoKeepsTheRun }
    ensures again { UndoCanBeDoneAgain }
{}
