ghost use Rattle.std.specs.Prelude.{◌≡◌, ◌≤◌, ◌<◌, ◌+◌, ◌^◌, [], false, not, Ok, IfOk, IfErr, OnOk, OnErr, IsSome};
ghost use Rattle.grid_base.specs.declared.TheConstants.{DECIMALS_MAX};
ghost use Rattle.mesh_base.specs.Kept.{BeginsWith};
ghost use Rattle.mesh_field.specs.Stored.{IsWellKept};
ghost use Rattle.mesh_sizing.specs.Sizes.{IsWellKept as SizesWell};
ghost use Rattle.step_text.specs.Ranges.{IsInRange};
ghost use Rattle.step_choose.specs.Chosen.{way_of};
ghost use Rattle.log_write.specs.Written.{Says};
ghost use Rattle.outside_io.specs.Outside.{Counts, LeavesDesk, holds_of};
ghost use Rattle.track_engine.specs.Answers.{without_field};
ghost use Rattle.track_engine.specs.Answered.{is_fit};
ghost use Rattle.track_engine.specs.Calls.{DoesOne, EnginePasses, EngineSteps, RefusalKeepsState, TellsStep, meshes_left};
ghost use Rattle.track_engine.specs.Effects.{effect_of, sum_of_all, is_whole, moved_mesh, way_lines};
ghost use Rattle.track_engine.specs.Engines.{state_in};
ghost use Rattle.track_engine.specs.Groups.{failed_if};
ghost use Rattle.track_engine.specs.Invariant.{HasRoom, MarksHold};
ghost use Rattle.track_engine.specs.Parts.{Advances};
ghost use Rattle.track_engine.specs.Placing.{CanPlace};
ghost use Rattle.track_engine.specs.Ready.{IsReady};
ghost use Rattle.track_engine.specs.Shifting.{AsksNow};
ghost use Rattle.track_engine.specs.State.{asked_in};
ghost use Rattle.track_engine.specs.Targets.{target_of};
ghost use Rattle.track_engine.specs.Told.{pass_told, step_untold, pass_untold};

use crate::asked_shifts::AskedShifts;
use crate::engine::Engine;
use crate::field_shifts::{field_of, is_fit};
use crate::placement::{first_outside, place_all};
use crate::shift_sums::{all_summed, asked_in, keep_asked, sum_one};
use crate::step_lines::{say_hits, say_way};
use crate::target::Target;
use crate::terms::RunTerms;
use crate::told::{StepTold, pass_untold, step_untold};
use edit_base::PassKind;
use grid_base::{Point, Shift};
use log_text::LogLine;
use log_write::Listener;
use mesh_base::{How, Surface, UseWhy};
use mesh_sizing::Band;
use outside_io::Stop;
use pass_run::{PassCount, PassTerms, pass_to};
use std::alloc::Global;
use step_choose::{Choice, choose_by_hits};
use step_text::Directive;

// Whether a step is taken by the asked shifts.
fn is_whole(how: How) -> bool
    ensures { result ≡ is_whole how }
{
    match how {
        How::Whole => true,
        _ => false,
    }
}

impl<S: Surface> Engine<S> {
    // A shift is added to what is asked of each vertex. No line is written.
    fn add_to_all(&mut self, alloc: Global, by: Shift) -> Result<Option<UseWhy>, Stop>
        ensures asks { let m = S.mesh self.old.mesh in
            let sums = sum_of_all m (λ v. by) (asked_in m self.old.run.asked) in
            IfOk result (AsksNow sums (asked_in m self.new.run.asked)) }
        ensures rest { let run = record self.old.run { asked = self.new.run.asked } in
            self.new ≡ record self.old { run = run } }
        ensures left { IfOk result (λ refused. IsSome refused → self.new ≡ self.old) }
        ensures stops { IfErr result (λ stop. stop ≡ Stop.NoMemory) }
    {
        let asked = asked_in(alloc, &self.mesh, &self.run.asked)?;
        match all_summed(alloc, &self.mesh, asked.as_slice(), by)? {
            Err(v) => Ok(Some(UseWhy::ShiftRange { v: v.0 })),
            Ok(sums) => {
                self.run.asked = AskedShifts::of_all(sums);
                Ok(None)
            }
        }
    }

    // A step is taken as it was chosen, and the lines of its way are written. One that is not taken whole makes the innermost open
    // group fail. An error may leave the mesh moved.
    fn take_chosen<O: Listener>(
        &mut self,
        alloc: Global,
        choice: Choice,
        outside: &mut O,
    ) -> Result<(), Stop>
        requires places { CanPlace (S.mesh self.old.mesh) choice.taken }
        requires marks { MarksHold S.beyond (S.kept self.old.mesh) self.old.run.groups }
        requires steps { self.old.run.steps + 1 < 2 ^ 32 }
        ensures moved { OnOk result
            (S.mesh self.new.mesh ≡ moved_mesh (S.mesh self.old.mesh) choice.taken) }
        ensures run { OnOk result (self.new.run ≡ record self.old.run {
          asked = [];
          steps = self.old.run.steps + 1;
          groups = failed_if (not (is_whole choice.how)) self.old.run.groups;
        }) }
        ensures says { Says (way_lines (way_of choice))
            (O.around outside.old) (O.around outside.new) result }
        ensures marks { MarksHold S.beyond (S.kept self.new.mesh) self.new.run.groups }
        ensures begins { BeginsWith (S.kept self.new.mesh) (S.kept self.old.mesh) }
    {
        place_all(&mut self.mesh, choice.taken.as_slice())?;
        say_way(alloc, &choice, outside)?;
        self.run.asked.clear();
        self.run.steps += 1;
        self.run.groups.fail_if(!is_whole(choice.how));
        Ok(())
    }

    /// Takes a step, or a vertex would leave the box. Its first line is written before its pairs are tested, and those that
    /// do not pass before a way is looked for, so that who reads the log sees that it is under way. What it tells is by what
    /// its lines are written: how it is taken, and how many pairs do not pass. The engine is ready, as one of a sound,
    /// closed and clear mesh is until a directive stops, and one step more can be counted.
    pub fn step<O: Listener>(
        &mut self,
        alloc: Global,
        outside: &mut O,
    ) -> Result<Result<StepTold, UseWhy>, Stop>
        requires ready { IsReady S.beyond S.mesh S.kept self.old }
        requires steps { self.old.run.steps + 1 < 2 ^ 32 }
        ensures takes { EngineSteps S.mesh S.kept O.around self outside (step_untold result) }
        ensures told { TellsStep (state_in S.mesh S.kept self.old) result }
        ensures left { RefusalKeepsState S.mesh S.kept self (step_untold result) }
        ensures ready { IfOk result (λ _. IsReady S.beyond S.mesh S.kept self.new) }
        ensures marks { MarksHold S.beyond (S.kept self.new.mesh) self.new.run.groups }
        ensures begins { BeginsWith (S.kept self.new.mesh) (S.kept self.old.mesh) }
        ensures nothing_stored { LeavesDesk O.around outside (step_untold result) }
    {
        let asked = asked_in(alloc, &self.mesh, &self.run.asked)?;
        if let Some(v) = first_outside(&self.mesh, asked.as_slice()) {
            return Ok(Err(UseWhy::Box { v: v.0 }));
        }
        let k = self.run.steps + 1;
        outside.tell(alloc, &LogLine::Step { k })?;
        let depth = self.run.set.depth;
        let hits = self.near.asked_hits(alloc, &self.mesh, &asked, depth)?;
        say_hits(alloc, hits.as_slice(), outside)?;
        let choice = choose_by_hits(alloc, &self.mesh, &self.near, &asked, hits, &self.run.set)?;
        let told = StepTold {
            how: choice.how,
            hits: choice.hits.len(),
        };
        self.take_chosen(alloc, choice, outside)?;
        Ok(Ok(told))
    }

    // The same, with nothing told.
    fn take_step<O: Listener>(
        &mut self,
        alloc: Global,
        outside: &mut O,
    ) -> Result<Option<UseWhy>, Stop>
        requires ready { IsReady S.beyond S.mesh S.kept self.old }
        requires steps { self.old.run.steps + 1 < 2 ^ 32 }
        ensures takes { EngineSteps S.mesh S.kept O.around self outside result }
        ensures left { RefusalKeepsState S.mesh S.kept self result }
        ensures marks { MarksHold S.beyond (S.kept self.new.mesh) self.new.run.groups }
        ensures begins { BeginsWith (S.kept self.new.mesh) (S.kept self.old.mesh) }
        ensures nothing_stored { LeavesDesk O.around outside result }
    {
        let told = self.step(alloc, outside);
        step_untold(told)
    }

    /// Makes a pass over the mesh, each line of it written. In a group its first `no` line ends it, and makes the group
    /// fail. What it tells is how many of its lines are of done edits, and how many of refused ones. The engine is ready, as
    /// one of a sound, closed and clear mesh is until a directive stops.
    pub fn pass<O: Listener>(
        &mut self,
        alloc: Global,
        kind: PassKind,
        outside: &mut O,
    ) -> Result<PassCount, Stop>
        requires ready { IsReady S.beyond S.mesh S.kept self.old }
        ensures passes { EnginePasses S.mesh S.kept O.around self outside kind (pass_untold result) }
        ensures told { IfOk result
            (λ count. count ≡ pass_told kind (state_in S.mesh S.kept self.old)) }
        ensures ready { IfOk result (λ _. IsReady S.beyond S.mesh S.kept self.new) }
        ensures marks { MarksHold S.beyond (S.kept self.new.mesh) self.new.run.groups }
        ensures begins { BeginsWith (S.kept self.new.mesh) (S.kept self.old.mesh) }
        ensures nothing_stored { LeavesDesk O.around outside (pass_untold result) }
    {
        keep_asked(alloc, &self.mesh, &mut self.run.asked)?;
        let terms = PassTerms {
            kind,
            depth: self.run.set.depth,
            grouped: self.run.groups.is_open(),
        };
        let count = pass_to(alloc, &mut self.mesh, terms, outside)?;
        self.run.groups.fail_if(count.refused > 0);
        Ok(count)
    }

    // The same, with nothing told.
    fn take_pass<O: Listener>(
        &mut self,
        alloc: Global,
        kind: PassKind,
        outside: &mut O,
    ) -> Result<Option<UseWhy>, Stop>
        requires ready { IsReady S.beyond S.mesh S.kept self.old }
        ensures passes { EnginePasses S.mesh S.kept O.around self outside kind result }
        ensures marks { MarksHold S.beyond (S.kept self.new.mesh) self.new.run.groups }
        ensures begins { BeginsWith (S.kept self.new.mesh) (S.kept self.old.mesh) }
        ensures nothing_stored { LeavesDesk O.around outside result }
    {
        let told = self.pass(alloc, kind, outside);
        pass_untold(told)
    }

    // Does one directive to which neither a field nor the sizing answers, a drive as one of no field: its lines are written, or it is
    // refused.
    fn take_plain<O: Listener>(
        &mut self,
        alloc: Global,
        what: &Directive,
        to: Target<'_>,
        outside: &mut O,
    ) -> Result<Option<UseWhy>, Stop>
        requires few { to.decimals ≤ DECIMALS_MAX }
        requires plain { is_fit what.now ≡ false }
        requires ready { IsReady S.beyond S.mesh S.kept self.old }
        requires room { HasRoom 1 self.old.run }
        ensures advances { let old = state_in S.mesh S.kept self.old in
            let effect = effect_of (without_field what.now) what.now old in
            Advances (target_of to.entry) effect old (state_in S.mesh S.kept self.new)
            (holds_of (O.around outside.old)) (holds_of (O.around outside.new)) result }
        // A refusal leaves the state as it was.
        ensures left { RefusalKeepsState S.mesh S.kept self result }
        ensures marks { MarksHold S.beyond (S.kept self.new.mesh) self.new.run.groups }
        ensures begins { BeginsWith (S.kept self.new.mesh) (meshes_left what.now S.kept self.old) }
        ensures counts { Counts (O.around outside.old) (O.around outside.new) result }
    {
        match what {
            Directive::SetDepth(depth) => {
                self.run.set.depth = *depth;
                Ok(None)
            }
            Directive::SetPasses(passes) => {
                self.run.set.passes = *passes;
                Ok(None)
            }
            Directive::SetZones(zones) => {
                self.run.set.zones = *zones;
                Ok(None)
            }
            Directive::SetHalvings(halvings) => {
                self.run.set.halvings = *halvings;
                Ok(None)
            }
            Directive::ShiftOne { v, by } => {
                let refused = sum_one(alloc, &self.mesh, &mut self.run.asked, *v, *by)?;
                Ok(refused)
            }
            Directive::ShiftAll { by } => self.add_to_all(alloc, *by),
            Directive::Drive { .. } => Ok(Some(UseWhy::NoField)),
            Directive::Solid { v } => self.take_solid(alloc, *v, outside),
            Directive::Step => self.take_step(alloc, outside),
            Directive::Pass(kind) => self.take_pass(alloc, *kind, outside),
            Directive::Fit => unreachable!(),
            Directive::Save => {
                self.save(alloc, to, outside)?;
                Ok(None)
            }
            Directive::Group => self.open_group(alloc, outside),
            Directive::Close => self.close_group(alloc, outside),
        }
    }

    /// Does one directive: its lines are written and its mesh is stored, or it is refused with nothing written or stored and
    /// the state as it was, or the engine stops in its lines. A drive asks its field once for each live vertex that is not
    /// solid, by rising id, at the point where it stands. A pass by the sizing asks that at the turn of each edge that still
    /// stands, at its middle. Earlier marks of the mesh hold, but for those that were made since the opening of a group that
    /// is taken back. The engine is ready, as one of a sound, closed and clear mesh is until a directive stops; one step and
    /// one saved mesh more can be counted; the numbers of the directive are those that a step text may give; and fields and
    /// sizing may be asked at each point.
    pub fn advance<O: Listener, F: Fn(u8, Point) -> Shift, G: Fn(Point) -> Band>(
        &mut self,
        alloc: Global,
        what: &Directive,
        terms: &RunTerms<'_, F, G>,
        outside: &mut O,
    ) -> Result<Option<UseWhy>, Stop>
        requires few { terms.now.to.decimals ≤ DECIMALS_MAX }
        requires fields { IsWellKept F.Fn terms.now.fields.now }
        requires sizing { SizesWell G.Fn terms.now.sizing.now }
        requires range { IsInRange what.now }
        requires ready { IsReady S.beyond S.mesh S.kept self.old }
        requires room { HasRoom 1 self.old.run }
        ensures does { DoesOne S.mesh S.kept O.around self outside F.Fn G.Fn terms.now what.now result }
        ensures ready { result ≡ Ok None → IsReady S.beyond S.mesh S.kept self.new }
        ensures marks { MarksHold S.beyond (S.kept self.new.mesh) self.new.run.groups }
        ensures begins { BeginsWith (S.kept self.new.mesh) (meshes_left what.now S.kept self.old) }
    {
        if is_fit(what) {
            return self.take_fit(alloc, terms.sizing, outside);
        }
        match field_of(terms.fields, what) {
            Some(which) => self.drive(alloc, terms.fields, which),
            None => self.take_plain(alloc, what, terms.to, outside),
        }
    }
}
