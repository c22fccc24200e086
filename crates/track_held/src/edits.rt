//! Edits that are asked of an engine that is held, and a group that is taken back by choice.
ghost use Rattle.std.specs.Prelude.{◌≡◌, ◌++◌, true, false, Some, None, IfOk, OnOk, OnErr, IfErr};
ghost use Rattle.outside_io.specs.declared.stop.Stop.TheVariants as cause;
ghost use Rattle.track_engine.specs.Effects.{edited_answers, edits_effect, undo_effect};
ghost use Rattle.track_engine.specs.Parts.{Writes};
ghost use Rattle.track_engine.specs.Engines.{state_in};
ghost use Rattle.track_engine.specs.Ready.{IsReady};
ghost use Rattle.track_engine.specs.Told.{edits_counted, pass_untold};
ghost use Rattle.log_write.specs.Kept.{told_in};

use crate::held::Held;
use edit_base::Asked;
use log_write::KeptLines;
use mesh_base::{Surface, UseWhy};
use outside_io::Stop;
use pass_run::{Answers, PassCount};
use std::alloc::Global;
use track_engine::Engine;

// Asks edits, whose lines are told to the log.
fn tell_edits<S: Surface>(
    alloc: Global,
    engine: &mut Engine<S>,
    asked: &[Asked],
    answers: &mut Answers,
    log: &mut KeptLines,
) -> Result<PassCount, Stop>
    requires ready { IsReady S.beyond S.mesh S.kept engine.old }
    ensures tells { let old = state_in S.mesh S.kept engine.old in
        Writes (edits_effect asked.now old) (state_in S.mesh S.kept engine.new)
        (told_in log.old) (told_in log.new) (pass_untold result) }
    ensures told { IfOk result
        (λ count. count ≡ edits_counted asked.now (state_in S.mesh S.kept engine.old)) }
    ensures answers { let all = edited_answers asked.now (state_in S.mesh S.kept engine.old) in
        OnOk result (answers.new ≡ answers.old ++ all) }
    ensures ready { IfOk result (λ _. IsReady S.beyond S.mesh S.kept engine.new) }
{
    engine.edits(alloc, asked, answers, log)
}

// Takes the innermost open group back, whose line is told to the log.
fn tell_undo<S: Surface>(
    alloc: Global,
    engine: &mut Engine<S>,
    log: &mut KeptLines,
) -> Result<Option<UseWhy>, Stop>
    requires ready { IsReady S.beyond S.mesh S.kept engine.old }
    ensures tells { let old = state_in S.mesh S.kept engine.old in
        Writes (undo_effect old.groups old) (state_in S.mesh S.kept engine.new)
        (told_in log.old) (told_in log.new) result }
    ensures taken { IfOk result (λ refused. refused ≡ None) }
    ensures ready { IfOk result (λ _. IsReady S.beyond S.mesh S.kept engine.new) }
{
    engine.undo(alloc, log)
}

impl<S: Surface> Held<S> {
    ghost use Rattle.track_held.specs.Held.{held_state, goes_on};
    ghost use Rattle.track_held.specs.Writing.{WritesEffect};
    ghost use Rattle.pass_run.specs.Calls.{Gains};

    /// Asks edits by ids, and tells how many were done and how many refused, and behind the answers what came of each: its
    /// lines are told, or it stops in them for want of memory, and goes on no more. Asked only while it goes on.
    pub fn edits(
        &mut self,
        alloc: Global,
        asked: &[Asked],
        answers: &mut Answers,
    ) -> Result<PassCount, Stop>
        requires goes_on { goes_on self.old ≡ true }
        ensures goes_on { IfOk result (λ _. goes_on self.new ≡ true) }
        ensures stopped { OnErr result (goes_on self.new ≡ false) }
        // There is no other cause to stop.
        ensures why { IfErr result (λ stop. stop ≡ cause.NoMemory) }
        ensures tells { WritesEffect (edits_effect asked.now) self (pass_untold result) }
        ensures told { IfOk result (λ count.
            count ≡ edits_counted asked.now (held_state self.old)) }
        ensures answers { OnOk result
            (Gains answers (edited_answers asked.now (held_state self.old))) }
    {
        match tell_edits(alloc, &mut self.engine, asked, answers, &mut self.log) {
            Ok(count) => {
                self.engine.settle_outside_groups();
                Ok(count)
            }
            Err(_stop) => {
                self.goes_on = false;
                Err(Stop::NoMemory)
            }
        }
    }

    /// Takes the innermost open group back, whether it has failed or not: its line is told, or it stops in it for want of
    /// memory, and goes on no more. Nothing is done where none is open. Asked only while it goes on.
    pub fn undo(&mut self, alloc: Global) -> Result<Option<UseWhy>, Stop>
        requires goes_on { goes_on self.old ≡ true }
        ensures goes_on { IfOk result (λ _. goes_on self.new ≡ true) }
        ensures stopped { OnErr result (goes_on self.new ≡ false) }
        // There is no other cause to stop.
        ensures why { IfErr result (λ stop. stop ≡ cause.NoMemory) }
        ensures tells { WritesEffect (λ s. undo_effect s.groups s) self result }
        // It is never refused.
        ensures taken { IfOk result (λ refused. refused ≡ None) }
    {
        match tell_undo(alloc, &mut self.engine, &mut self.log) {
            Ok(refused) => {
                self.engine.settle_outside_groups();
                Ok(refused)
            }
            Err(_stop) => {
                self.goes_on = false;
                Err(Stop::NoMemory)
            }
        }
    }
}
