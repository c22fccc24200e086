//! Steps and passes of an engine that is held, with what they tell of themselves.
ghost use Rattle.std.specs.Prelude.{◌≡◌, true, false, Some, IfOk, OnErr, IfErr, IsSome};
ghost use Rattle.edit_base.specs.declared.PassKind.{PassKind};
ghost use Rattle.step_text.specs.declared.Directive.TheVariants.{Step, Pass};
ghost use Rattle.outside_io.specs.declared.stop.Stop.TheVariants as cause;
ghost use Rattle.track_engine.specs.Answers.{Nothing};
ghost use Rattle.track_engine.specs.Effects.{effect_of};
ghost use Rattle.track_engine.specs.Parts.{Writes};
ghost use Rattle.track_engine.specs.Engines.{state_in};
ghost use Rattle.track_engine.specs.Invariant.{HasRoom};
ghost use Rattle.track_engine.specs.Ready.{IsReady};
ghost use Rattle.track_engine.specs.Told.{step_told, pass_told, step_untold, pass_untold};
ghost use Rattle.log_write.specs.Kept.{told_in};

use crate::held::Held;
use edit_base::PassKind;
use log_write::KeptLines;
use mesh_base::{Surface, UseWhy};
use outside_io::Stop;
use pass_run::PassCount;
use std::alloc::Global;
use track_engine::{Engine, StepTold};

// Takes a step, whose lines are told to the log.
fn tell_step<S: Surface>(
    alloc: Global,
    engine: &mut Engine<S>,
    log: &mut KeptLines,
) -> Result<Result<StepTold, UseWhy>, Stop>
    requires ready { IsReady S.beyond S.mesh S.kept engine.old }
    requires room { HasRoom 1 engine.old.run }
    ensures tells { let old = state_in S.mesh S.kept engine.old in
        Writes (effect_of Nothing Step old) (state_in S.mesh S.kept engine.new)
        (told_in log.old) (told_in log.new) (step_untold result) }
    ensures told { IfOk result (λ taken. IfOk taken
        (λ told. told ≡ step_told (state_in S.mesh S.kept engine.old))) }
    ensures left { IfOk (step_untold result) (λ refused. IsSome refused →
        state_in S.mesh S.kept engine.new ≡ state_in S.mesh S.kept engine.old) }
    ensures ready { IfOk result (λ _. IsReady S.beyond S.mesh S.kept engine.new) }
{
    engine.step(alloc, log)
}

// Makes a pass, whose lines are told to the log.
fn tell_pass<S: Surface>(
    alloc: Global,
    engine: &mut Engine<S>,
    kind: PassKind,
    log: &mut KeptLines,
) -> Result<PassCount, Stop>
    requires ready { IsReady S.beyond S.mesh S.kept engine.old }
    ensures tells { let old = state_in S.mesh S.kept engine.old in
        Writes (effect_of Nothing (Pass kind) old) (state_in S.mesh S.kept engine.new)
        (told_in log.old) (told_in log.new) (pass_untold result) }
    ensures told { IfOk result
        (λ count. count ≡ pass_told kind (state_in S.mesh S.kept engine.old)) }
    ensures ready { IfOk result (λ _. IsReady S.beyond S.mesh S.kept engine.new) }
{
    engine.pass(alloc, kind, log)
}

impl<S: Surface> Held<S> {
    ghost use Rattle.track_held.specs.Held.{engine_in, held_state, goes_on};
    ghost use Rattle.track_held.specs.Writing.{WritesEffect, RefusalLeavesState};

    /// Takes a step, and tells how: its lines are told, or it is refused and nothing changes, or it stops in its lines for
    /// want of memory, and goes on no more. Asked only while it goes on and has room (`has_room`).
    pub fn step(&mut self, alloc: Global) -> Result<Result<StepTold, UseWhy>, Stop>
        requires goes_on { goes_on self.old ≡ true }
        requires room { HasRoom 1 (engine_in self.old).run }
        ensures goes_on { IfOk result (λ _. goes_on self.new ≡ true) }
        ensures stopped { OnErr result (goes_on self.new ≡ false) }
        // There is no other cause to stop.
        ensures why { IfErr result (λ stop. stop ≡ cause.NoMemory) }
        ensures tells { WritesEffect (effect_of Nothing Step) self (step_untold result) }
        ensures told { IfOk result (λ taken. IfOk taken
            (λ told. told ≡ step_told (held_state self.old))) }
        // A refusal leaves the state as it was.
        ensures left { RefusalLeavesState self (step_untold result) }
    {
        match tell_step(alloc, &mut self.engine, &mut self.log) {
            Ok(Ok(told)) => {
                self.engine.settle_outside_groups();
                Ok(Ok(told))
            }
            Ok(Err(why)) => Ok(Err(why)),
            Err(_stop) => {
                self.goes_on = false;
                Err(Stop::NoMemory)
            }
        }
    }

    /// Makes a pass, and tells how many edits it did and how many were refused: its lines are told, or it stops in them for
    /// want of memory, and goes on no more. Asked only while it goes on.
    pub fn pass(&mut self, alloc: Global, kind: PassKind) -> Result<PassCount, Stop>
        requires goes_on { goes_on self.old ≡ true }
        ensures goes_on { IfOk result (λ _. goes_on self.new ≡ true) }
        ensures stopped { OnErr result (goes_on self.new ≡ false) }
        // There is no other cause to stop.
        ensures why { IfErr result (λ stop. stop ≡ cause.NoMemory) }
        ensures tells { WritesEffect (effect_of Nothing (Pass kind)) self (pass_untold result) }
        ensures told { IfOk result (λ count. count ≡ pass_told kind (held_state self.old)) }
    {
        match tell_pass(alloc, &mut self.engine, kind, &mut self.log) {
            Ok(count) => {
                self.engine.settle_outside_groups();
                Ok(count)
            }
            Err(_stop) => {
                self.goes_on = false;
                Err(Stop::NoMemory)
            }
        }
    }
}
