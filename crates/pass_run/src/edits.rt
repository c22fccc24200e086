//! Edits that are asked for one after another.
ghost use Rattle.std.specs.Prelude.{◌≡◌, ◌≤◌, ◌+◌, [], ◌∷◌, length, IfOk, OnOk, OnErr};
ghost use Rattle.grid_base.specs.declared.TheConstants.{DEPTH_MAX};
ghost use Rattle.mesh_base.specs.Sides.{IsClosed};
ghost use Rattle.mesh_base.specs.Placements.{IsClearMesh};
ghost use Rattle.mesh_base.specs.Kept.{BeginsWith};
ghost use Rattle.edit_base.specs.Clauses.{OnOkIs, mesh_after};
ghost use Rattle.edit_any.specs.Dispatch.{edited};
ghost use Rattle.pass_run.specs.PassLines.{line_of};
ghost use Rattle.pass_run.specs.Results.{exact_answer};
ghost use Rattle.pass_run.specs.Edits.{edit_lines, edit_mesh, edit_answers, answer_in};
ghost use Rattle.pass_run.specs.Calls.{PassTells, LinesKeep, Gains};

use crate::passes::{PassCount, count_of, is_over, no_edit, sum};
use crate::turns::line_of;
use edit_any::edit;
use edit_base::{Asked, Edit};
use grid_base::{DEPTH_MAX, Items, NoMemory};
use log_text::LogLine;
use log_write::Listener;
use mesh_base::Surface;
use outside_io::Stop;
use std::alloc::Global;

/// What edits answer, in order.
pub type Answers = Items<Edit>;

/// What edits go by that are asked for one after another.
#[derive(Clone, Copy)]
pub struct EditTerms {
    /// The number of time halvings of the written test, at most `DEPTH_MAX`.
    pub depth: u8,
    /// Whether the first that is not done is the last that is asked.
    pub grouped: bool,
}

/// What a line tells that came of an edit, if it tells of one.
fn answer_in(line: LogLine) -> Option<Edit>
    ensures { result ≡ answer_in line }
{
    match line {
        LogLine::Did(change) => Some(Edit::Done(change)),
        LogLine::No { what: _, why } => Some(Edit::No(why)),
        _ => None,
    }
}

/// An edit that is asked for, and its line. The mesh is made ready for its check first, where what was moved since calls for it.
fn line_of_edit<S: Surface>(
    alloc: Global,
    mesh: &mut S,
    depth: u8,
    what: &Asked,
) -> Result<LogLine, NoMemory>
    requires closed { IsClosed (S.mesh mesh.old) }
    requires clear { IsClearMesh (S.mesh mesh.old) }
    requires depth { depth ≤ DEPTH_MAX }
    ensures line { OnOkIs result (line_of what.now (exact_answer depth (S.mesh mesh.old) what.now)) }
    ensures mesh { let answer = exact_answer depth (S.mesh mesh.old) what.now in
        OnOk result (S.mesh mesh.new ≡ mesh_after edited (S.mesh mesh.old) answer) }
    ensures left { OnErr result (S.mesh mesh.new ≡ S.mesh mesh.old) }
    ensures closed { IsClosed (S.mesh mesh.new) }
    ensures clear { IsClearMesh (S.mesh mesh.new) }
    ensures marks { BeginsWith (S.kept mesh.new) (S.kept mesh.old) }
{
    mesh.index();
    let edit = edit(alloc, mesh, depth, *what)?;
    Ok(line_of(*what, edit))
}

/// An edit that is asked for: it is done or not, its line is written, and what came of it is the last of the answers.
fn take_edit<S: Surface, O: Listener>(
    alloc: Global,
    mesh: &mut S,
    depth: u8,
    what: &Asked,
    answers: &mut Answers,
    outside: &mut O,
) -> Result<PassCount, Stop>
    requires closed { IsClosed (S.mesh mesh.old) }
    requires clear { IsClearMesh (S.mesh mesh.old) }
    requires depth { depth ≤ DEPTH_MAX }
    ensures takes { PassTells S.mesh S.kept O.around mesh outside
        (λ m. line_of what.now (exact_answer depth m what.now) ∷ []) result }
    ensures answers { let answer = exact_answer depth (S.mesh mesh.old) what.now in
        OnOk result (Gains answers (answer ∷ [])) }
    ensures sum { IfOk result (λ count. count.done + count.refused ≤ 1) }
{
    let line = line_of_edit(alloc, mesh, depth, what)?;
    outside.tell(alloc, &line)?;
    let count = count_of(&line);
    if let Some(answer) = answer_in(line) {
        answers.push(answer)?;
    }
    Ok(count)
}

/// Asks edits of a mesh, each in turn, whatever its lengths, with its one line: that of the edit, or why it is refused. What came
/// of each stands behind the answers, in order. No line tells where they begin: the line of an edit stands for itself.
///
/// Edits that are `grouped` end with the first `no` line: what is left is not asked. Others go on to the end. `depth` is the
/// number of time halvings of the written test, at most `DEPTH_MAX`. The answer is how many were done and how many refused. An
/// edit of ids that do not live, or that are the ends of no edge, is refused like any other.
///
/// The mesh stays closed and clear, after a stop too, and earlier marks hold. A stop is one of a pass (`pass_to`): the first lines
/// are whole, in order, and perhaps a part of the next is there; the mesh is what the whole lines make of it, or what they and the
/// next one make. Nothing is said of the answers then.
pub fn edits_to<S: Surface, O: Listener>(
    alloc: Global,
    mesh: &mut S,
    terms: EditTerms,
    asked: &[Asked],
    answers: &mut Answers,
    outside: &mut O,
) -> Result<PassCount, Stop>
    requires closed { IsClosed (S.mesh mesh.old) }
    requires clear { IsClearMesh (S.mesh mesh.old) }
    requires depth { terms.depth ≤ DEPTH_MAX }
    // Ok: all lines are written. A stop: the first of them, and perhaps a part of the next.
    ensures takes { PassTells S.mesh S.kept O.around mesh outside (edit_lines terms asked.now) result }
    ensures mesh { OnOk result (S.mesh mesh.new ≡ edit_mesh terms asked.now (S.mesh mesh.old)) }
    ensures answers { OnOk result (Gains answers (edit_answers terms asked.now (S.mesh mesh.old))) }
    // Each edit that the lines tell is safe, from the mesh that the lines before it make, and each line leaves a mesh that is
    // sound, closed and clear.
    ensures motions { LinesKeep (edit_lines terms asked.now) (S.mesh mesh.old) }
    ensures sum { IfOk result (λ count. count.done + count.refused ≤ length asked.now) }
{
    let mut count = no_edit();
    for what in asked {
        if is_over(terms.grouped, count) {
            return Ok(count);
        }
        let more = take_edit(alloc, mesh, terms.depth, what, answers, outside)?;
        count = sum(count, more);
    }
    Ok(count)
}
