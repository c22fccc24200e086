//! A fold is closed by a group of edits of an engine that is held, which is done whole or not at all.
ghost use Rattle.std.specs.Prelude.{◌≡◌, ◌∷◌, true, false, Some, None, IfOk, OnErr, IfErr};
ghost use Rattle.edit_base.specs.Edges.{edge_of};
ghost use Rattle.outside_io.specs.declared.stop.Stop.TheVariants as cause;
ghost use Rattle.track_engine.specs.Effects.{edits_effect, opened};
ghost use Rattle.track_engine.specs.Invariant.{HasRoom};
ghost use Rattle.track_held.specs.Closings.{closing};
ghost use Rattle.track_held.specs.declared.group_end.Closing.TheVariants.{Kept};
ghost use Rattle.track_held.specs.Folding.{untold, are_clean, finish_effect, last_told, group_told, group_effect, fold_effect, fold_told};
ghost use Rattle.track_held.specs.Folds.{fold_edits, fold_vertex};

use crate::folds::{are_joined, first_crowded, fold_at, fold_collapse, fold_flip, fold_vertex};
use crate::given_edits::{ToldAnswer, answer_told, reason_at, why_told};
use crate::held::Held;
use edit_base::{Asked, EdgeFaces, Edit};
use mesh_base::{Surface, VertexId};
use outside_io::Stop;
use pass_run::Answers;
use std::alloc::Global;
use step_text::Directive;

// What is told of edits in a group, and whether it is to be kept.
#[derive(Clone, Copy)]
struct TrialOutcome {
    told: ToldAnswer,
    clean: bool,
}

// What came of the last of edits; this, where there is none.
fn last_told(none: ToldAnswer, answers: &[Edit]) -> ToldAnswer
    ensures { result ≡ last_told none answers.now }
{
    let mut told = none;
    for answer in answers {
        told = answer_told(answer);
    }
    told
}

impl<S: Surface> Held<S> {
    ghost use Rattle.track_held.specs.Held.{engine_in, held_state, goes_on};
    ghost use Rattle.track_held.specs.Writing.{WritesEffect};

    // Asks edits in an open group, and looks whether they leave a crowded edge at a vertex.
    fn try_edits(
        &mut self,
        alloc: Global,
        asked: &[Asked],
        v: VertexId,
    ) -> Result<TrialOutcome, Stop>
        requires goes_on { goes_on self.old ≡ true }
        ensures goes_on { IfOk result (λ _. goes_on self.new ≡ true) }
        ensures stopped { OnErr result (goes_on self.new ≡ false) }
        ensures why { IfErr result (λ stop. stop ≡ cause.NoMemory) }
        ensures tells { WritesEffect (edits_effect asked.now) self (untold result) }
        ensures told { IfOk result (λ tried.
            tried.told ≡ group_told asked.now v (held_state self.old)) }
        ensures clean { IfOk result (λ tried.
            tried.clean ≡ are_clean asked.now v (held_state self.old)) }
    {
        let mut answers = Answers::new(alloc);
        let count = match self.edits(alloc, asked, &mut answers) {
            Ok(count) => count,
            Err(stop) => return Err(stop),
        };
        let told = last_told(reason_at(0, 0, 0, 0), answers.as_slice());
        if count.refused > 0 {
            return Ok(TrialOutcome { told, clean: false });
        }
        match first_crowded(alloc, &self.engine.mesh, v) {
            Ok(None) => Ok(TrialOutcome { told, clean: true }),
            Ok(Some(w)) => Ok(TrialOutcome {
                told: reason_at(2, v.0, w.0, 0),
                clean: false,
            }),
            Err(_) => {
                self.goes_on = false;
                Err(Stop::NoMemory)
            }
        }
    }

    // Keeps the innermost group, which has not failed then, or takes it back.
    fn finish(&mut self, alloc: Global, keep: bool) -> Result<(), Stop>
        requires goes_on { goes_on self.old ≡ true }
        requires room { HasRoom 1 (engine_in self.old).run }
        requires kept { keep ≡ true → closing (held_state self.old).groups ≡ Kept }
        ensures goes_on { IfOk result (λ _. goes_on self.new ≡ true) }
        ensures stopped { OnErr result (goes_on self.new ≡ false) }
        ensures why { IfErr result (λ stop. stop ≡ cause.NoMemory) }
        ensures tells { WritesEffect (λ s. finish_effect keep s.groups s) self (untold result) }
    {
        if keep {
            match self.take(alloc, &Directive::Close) {
                Ok(_) => Ok(()),
                Err(stop) => Err(stop),
            }
        } else {
            match self.undo(alloc) {
                Ok(_) => Ok(()),
                Err(stop) => Err(stop),
            }
        }
    }

    // Asks edits in a group of their own, which is kept or taken back by what they leave at a vertex.
    pub(crate) fn edits_as_one(
        &mut self,
        alloc: Global,
        asked: &[Asked],
        v: VertexId,
    ) -> Result<ToldAnswer, Stop>
        requires goes_on { goes_on self.old ≡ true }
        requires room { HasRoom 1 (engine_in self.old).run }
        ensures goes_on { IfOk result (λ _. goes_on self.new ≡ true) }
        ensures stopped { OnErr result (goes_on self.new ≡ false) }
        ensures why { IfErr result (λ stop. stop ≡ cause.NoMemory) }
        ensures tells { WritesEffect (group_effect asked.now v) self (untold result) }
        ensures told { IfOk result (λ told.
            told ≡ group_told asked.now v (opened (held_state self.old))) }
    {
        if let Err(stop) = self.take(alloc, &Directive::Group) {
            return Err(stop);
        }
        let tried = match self.try_edits(alloc, asked, v) {
            Ok(tried) => tried,
            Err(stop) => return Err(stop),
        };
        match self.finish(alloc, tried.clean) {
            Ok(()) => Ok(tried.told),
            Err(stop) => Err(stop),
        }
    }

    // Closes a fold: its edge is flipped, if the corners opposite it are no edge, and they are drawn together.
    fn draw_together(&mut self, alloc: Global, e: EdgeFaces) -> Result<ToldAnswer, Stop>
        requires goes_on { goes_on self.old ≡ true }
        requires room { HasRoom 1 (engine_in self.old).run }
        ensures goes_on { IfOk result (λ _. goes_on self.new ≡ true) }
        ensures stopped { OnErr result (goes_on self.new ≡ false) }
        ensures why { IfErr result (λ stop. stop ≡ cause.NoMemory) }
        ensures tells { WritesEffect
            (λ s. group_effect (fold_edits s.mesh e) (fold_vertex e) s) self (untold result) }
        ensures told { IfOk result (λ told. let old = held_state self.old in
            told ≡ group_told (fold_edits old.mesh e) (fold_vertex e) (opened old)) }
    {
        let v = fold_vertex(&e);
        let collapse = fold_collapse(&e);
        if are_joined(&self.engine.mesh, &e) {
            return self.edits_as_one(alloc, &[collapse], v);
        }
        let flip = fold_flip(&e);
        self.edits_as_one(alloc, &[flip, collapse], v)
    }

    /// Closes the fold at an edge with two faces, `a b c` and `b a d`: the edge is flipped to `c d`, and that is collapsed;
    /// where `c d` is an edge already, it is only collapsed. That is a group of its own, which is taken back where one of
    /// the edits is refused, or where the vertex that is left would have an edge along which more than one face runs one
    /// way; and what is told is the first reason against it, or what the collapse did. Where the edge is no fold, nothing
    /// is done or told to the log: its ends are no edge, more than one face runs one way along it, or `c` is `d`. Or it
    /// stops in its lines for want of memory, and goes on no more. Asked only while it goes on and has room (`has_room`).
    pub fn close_fold(
        &mut self,
        alloc: Global,
        a: VertexId,
        b: VertexId,
    ) -> Result<ToldAnswer, Stop>
        requires goes_on { goes_on self.old ≡ true }
        requires room { HasRoom 1 (engine_in self.old).run }
        ensures goes_on { IfOk result (λ _. goes_on self.new ≡ true) }
        ensures stopped { OnErr result (goes_on self.new ≡ false) }
        // There is no other cause to stop.
        ensures why { IfErr result (λ stop. stop ≡ cause.NoMemory) }
        ensures tells { WritesEffect (fold_effect a b) self (untold result) }
        ensures told { IfOk result (λ told. told ≡ fold_told a b (held_state self.old)) }
    {
        match fold_at(&self.engine.mesh, a, b) {
            Ok(e) => self.draw_together(alloc, e),
            Err(why) => Ok(why_told(why)),
        }
    }
}
