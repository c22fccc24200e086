ghost use Rattle.std.specs.Prelude.{◌≡◌, IfOk, OnOk, OnErr, []};
ghost use Rattle.mesh_play.specs.Play.{play_state, start_of, answers_in, mesh_after, IsLawful, AreLawful, IsStopped, IsEitherStopped, IsUnchanged, IsAnswer, IsDone, AreMarks};

use crate::acts::do_act;
use crate::calls::{Answer, Answers, Call};
use crate::questions::answer_to;
use grid_base::NoMemory;
use mesh_base::{Mark, Surface};
use std::alloc::Global;

/// The answers to calls, in order. They and the mesh that is left depend on the mesh and the calls alone, and not on how
/// the mesh is kept: each surface gives the same ones, unless memory is wanting. Then the calls before the one for which it
/// is wanting are made, and this one and those after it are not.
pub fn play<S: Surface>(alloc: Global, surface: &mut S, calls: &[Call]) -> Result<Answers, NoMemory>
    requires { AreLawful (start_of (S.mesh surface.old)) calls.now }
    ensures answers { IfOk result (λ answers. answers ≡ answers_in (S.mesh surface.old) calls.now) }
    ensures mesh { OnOk result (S.mesh surface.new ≡ mesh_after (S.mesh surface.old) calls.now) }
    ensures err { OnErr result (IsStopped (S.mesh surface.old) calls.now (S.mesh surface.new)) }
{
    let mut marks: Vec<Mark> = Vec::new(alloc);
    let mut answers: Vec<Answer> = Vec::new(alloc);
    for call in calls {
        answers.reserve(1)?;
        answers.push_reserved(play_one(alloc, surface, &mut marks, call)?);
    }
    Ok(Answers::from_vec(answers))
}

/// The answers of two surfaces that begin with one mesh, however each is kept. They are the same. Where memory is wanting,
/// the calls of the one or of the other are made up to the one for which it is wanting.
pub fn play_both<S: Surface, T: Surface>(
    alloc: Global,
    one: &mut S,
    other: &mut T,
    calls: &[Call],
) -> Result<(Answers, Answers), NoMemory>
    requires lawful { AreLawful (start_of (S.mesh one.old)) calls.now }
    requires same { S.mesh one.old ≡ T.mesh other.old }
    ensures answers { IfOk result (λ both. both.0 ≡ both.1) }
    ensures mesh { OnOk result (S.mesh one.new ≡ T.mesh other.new) }
    ensures err { OnErr result (IsEitherStopped S.mesh T.mesh one other calls.now) }
{
    let first = play(alloc, one, calls)?;
    let second = play(alloc, other, calls)?;
    Ok((first, second))
}

/// One call, made of the surface. `marks` are those that were made and not taken back, the oldest first. Where memory is
/// wanting, the mesh, what is kept and the marks are as they were.
pub fn play_one<S: Surface>(
    alloc: Global,
    surface: &mut S,
    marks: &mut Vec<Mark>,
    call: &Call,
) -> Result<Answer, NoMemory>
    requires lawful { IsLawful (play_state S.mesh S.kept surface.old marks.old.items) call.now }
    requires marks { AreMarks S.beyond (S.kept surface.old) marks.old.items }
    ensures answer { IfOk result (IsAnswer S.mesh S.kept surface marks call.now) }
    ensures after { OnOk result (IsDone S.mesh S.kept surface marks call.now) }
    ensures marks { AreMarks S.beyond (S.kept surface.new) marks.new.items }
    ensures err { OnErr result (IsUnchanged S.mesh S.kept surface) }
    ensures err_marks { OnErr result (marks.new.items ≡ marks.old.items) }
{
    match *call {
        Call::Ask { question } => answer_to(alloc, surface, &question),
        Call::Make { act } => do_act(surface, &act),
        Call::Index => {
            surface.index();
            Ok(Answer::Done)
        }
        Call::MakeMark => {
            marks.reserve(1)?;
            let mark = surface.mark()?;
            marks.push_reserved(mark);
            Ok(Answer::Done)
        }
        Call::BackTo { nth } => {
            let mark = marks[nth];
            surface.back_to(mark);
            marks.truncate(nth);
            Ok(Answer::Done)
        }
        Call::Settle => {
            surface.settle();
            marks.truncate(0);
            Ok(Answer::Done)
        }
    }
}
