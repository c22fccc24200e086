//! An engine between two calls.
ghost use Rattle.std.specs.Prelude.{◌≡◌, ◌≤◌, ◌<◌, ◌↔◌, true, false, [], Some, IfOk, OnOk, OnErr, IfErr, IsSome, IsTrue};
ghost use Rattle.mesh_base.specs.Valid.{IsValidSurface};
ghost use Rattle.mesh_field.specs.Stored.{IsWellKept};
ghost use Rattle.mesh_sizing.specs.Sizes.{IsBand, IsWellKept as SizesWell};
ghost use Rattle.step_choose.specs.Settings.{AreWithinLimits};
ghost use Rattle.step_text.specs.Ranges.{IsInRange};
ghost use Rattle.outside_io.specs.declared.stop.Stop.TheVariants as cause;
ghost use Rattle.track_engine.specs.Answers.{Nothing};
ghost use Rattle.track_engine.specs.State.{unsaved};
ghost use Rattle.track_engine.specs.Effects.{effect_of};
ghost use Rattle.track_engine.specs.Parts.{Writes};
ghost use Rattle.track_engine.specs.Engines.{state_in};
ghost use Rattle.track_engine.specs.Invariant.{IsRunInvariant, HasRoom};
ghost use Rattle.track_engine.specs.Ready.{IsReady};
ghost use Rattle.track_held.specs.Asking.{AsksNothing};
ghost use Rattle.track_held.specs.Setting.{with_settings};
ghost use Rattle.track_held.specs.Closings.{closing};
ghost use Rattle.log_text.specs.Lines.{text_of_lines};
ghost use Rattle.log_write.specs.Kept.{told_in, lines_where};
ghost use Rattle.track_held.specs.Kept.{facts};

use crate::group_end::{Closing, closing_by};
use grid_base::{NoMemory, Point, Shift};
use log_text::LogLine;
use log_write::KeptLines;
use mesh_base::{Surface, UseWhy};
use mesh_field::{Fields, no_fields};
use mesh_sizing::{Band, Sizing};
use outside_io::Stop;
use std::alloc::Global;
use step_choose::Settings;
use step_text::Directive;
use track_engine::{Engine, RunTerms, Target};

// What a field that is not there would answer.
pub(crate) fn no_shift(_which: u8, _at: Point) -> Shift {
    Shift { x: 0, y: 0, z: 0 }
}

// How long an edge may be by a sizing that is never asked.
fn any_length(_at: Point) -> Band
    ensures { IsBand result }
{
    Band { low: 1, high: 2 }
}

// Does one directive: its lines are told to the log, or it is refused and nothing changes, or it stops, perhaps in its lines.
// What one does is said that asks neither a field nor the sizing.
pub(crate) fn tell<'a, S: Surface, F: Fn(u8, Point) -> Shift, G: Fn(Point) -> Band>(
    alloc: Global,
    engine: &mut Engine<S>,
    what: &Directive,
    log: &mut KeptLines,
    fields: &'a Fields<F>,
    sizing: &'a Sizing<G>,
) -> Result<Option<UseWhy>, Stop>
    requires range { IsInRange what.now }
    requires ready { IsReady S.beyond S.mesh S.kept engine.old }
    requires room { HasRoom 1 engine.old.run }
    requires fields { IsWellKept F.Fn fields.now }
    requires sizing { SizesWell G.Fn sizing.now }
    ensures tells { let old = state_in S.mesh S.kept engine.old in AsksNothing what.now →
        Writes (effect_of Nothing what.now old) (state_in S.mesh S.kept engine.new)
        (told_in log.old) (told_in log.new) result }
    // A refusal leaves the state as it was.
    ensures left { IfOk result (λ refused. IsSome refused →
        state_in S.mesh S.kept engine.new ≡ state_in S.mesh S.kept engine.old) }
    ensures ready { IfOk result (λ _. IsReady S.beyond S.mesh S.kept engine.new) }
{
    let to = Target {
        prefix: "",
        decimals: 0,
    };
    let terms = RunTerms { to, fields, sizing };
    engine.advance(alloc, what, &terms, log)
}

/// An engine with the log that it has told since that was last taken.
///
/// It goes on until a directive stops for want of memory. While it does, its mesh is sound, closed and clear, and so is the
/// mesh to which each open group can go back.
#[derive(Drop)]
pub struct Held<S: Surface> {
    pub(crate) engine: Engine<S>,
    pub(crate) log: KeptLines,
    pub(crate) goes_on: bool,
    ghost ready: { goes_on ≡ true → IsReady S.beyond S.mesh S.kept engine } by { Prim.hlevel facts },
}

impl<S: Surface + Drop> Held<S> {
    ghost use Rattle.track_held.specs.Held.{held_state, keeps_lines, lines_in, goes_on};

    /// An engine of a closed surface that does not meet itself, with an empty log.
    pub fn new(alloc: Global, mesh: S) -> Result<Held<S>, NoMemory>
        requires { IsValidSurface (S.mesh mesh) }
        ensures goes_on { IfOk result (λ held. goes_on held ≡ true) }
        ensures keeps { IfOk result (λ held. keeps_lines held ≡ true) }
        ensures lines { IfOk result (λ held. lines_in held ≡ []) }
        ensures state { IfOk result (λ held. held_state held ≡ unsaved (S.mesh mesh)) }
    {
        let engine = Engine::new(alloc, mesh)?;
        Ok(Held {
            engine,
            log: KeptLines::new(alloc),
            goes_on: true,
        })
    }
}

impl<S: Surface> Held<S> {
    ghost use Rattle.track_held.specs.Held.{engine_in, held_state, keeps_lines, lines_in, text_in, goes_on};
    ghost use Rattle.track_held.specs.Writing.{WritesEffect, RefusalLeavesState};

    /// Whether no directive has stopped.
    pub fn goes_on(&self) -> bool
        ensures is { result ≡ goes_on self.now }
        // While that holds, the mesh is sound, closed and clear, and so is that of each open group.
        ensures whole { goes_on self.now ≡ true → IsRunInvariant (held_state self.now) }
    {
        self.goes_on
    }

    /// How many steps were taken.
    pub fn steps(&self) -> u32
        ensures { result ≡ (held_state self.now).steps }
    {
        self.engine.run.steps
    }

    /// Whether one more directive may be taken: fewer than 2^32 - 1 steps were, and as few meshes saved.
    pub fn has_room(&self) -> bool
        ensures { IsTrue result ↔ HasRoom 1 (engine_in self.now).run }
    {
        self.engine.run.steps < u32::MAX && self.engine.run.saved < u32::MAX
    }

    /// Goes by these settings from here on. Nothing is told of that. They are within their limits.
    pub fn set(&mut self, set: Settings)
        requires { AreWithinLimits set }
        ensures lines { lines_in self.new ≡ lines_in self.old }
        ensures keeps { keeps_lines self.new ≡ keeps_lines self.old }
        ensures goes_on { goes_on self.new ≡ goes_on self.old }
        ensures state { held_state self.new ≡ with_settings set (held_state self.old) }
    {
        self.engine.run.set = set;
    }

    /// What becomes of the group that was opened last, where it is closed now.
    pub fn closing(&self) -> Closing
        ensures { result ≡ closing (held_state self.now).groups }
    {
        closing_by(self.engine.run.groups.has_failed())
    }

    /// The mesh.
    pub fn mesh(&self) -> &S
        ensures { result.now ≡ (engine_in self.now).mesh }
    {
        &self.engine.mesh
    }

    /// The lines that were told since they were last cleared.
    pub fn lines(&self) -> &[LogLine]
        ensures { result.now ≡ lines_in self.now }
    {
        self.log.lines()
    }

    /// Keeps the lines that are told from here on; or keeps none, and forgets those that were told.
    pub fn keep_lines(&mut self, keeps: bool)
        ensures keeps { keeps_lines self.new ≡ keeps }
        ensures lines { lines_in self.new ≡ lines_where keeps (lines_in self.old) }
        ensures engine { engine_in self.new ≡ engine_in self.old }
        ensures goes_on { goes_on self.new ≡ goes_on self.old }
    {
        self.log.keep(keeps);
    }

    /// Makes the text of the lines, each line once. NoMemory leaves all but the text as it was.
    pub fn print_log(&mut self) -> Result<(), NoMemory>
        ensures text { OnOk result (text_in self.new ≡ text_of_lines (lines_in self.new)) }
        ensures keeps { keeps_lines self.new ≡ keeps_lines self.old }
        ensures lines { lines_in self.new ≡ lines_in self.old }
        ensures engine { engine_in self.new ≡ engine_in self.old }
        ensures goes_on { goes_on self.new ≡ goes_on self.old }
    {
        self.log.print()
    }

    /// The text that was made of the lines since they were last cleared: all of it where none was told since it was made.
    pub fn log(&self) -> &[u8]
        ensures { result.now ≡ text_in self.now }
    {
        self.log.text()
    }

    /// Forgets what was told.
    pub fn clear_log(&mut self)
        ensures keeps { keeps_lines self.new ≡ keeps_lines self.old }
        ensures lines { lines_in self.new ≡ [] }
        ensures engine { engine_in self.new ≡ engine_in self.old }
        ensures goes_on { goes_on self.new ≡ goes_on self.old }
    {
        self.log.clear();
    }

    /// Does one directive that asks neither a field nor the sizing: its lines are told, or it is refused and nothing
    /// changes, or it stops for want of memory, perhaps in its lines, and goes on no more. Asked only while it goes on and
    /// has room (`has_room`), with numbers that a step text may give.
    pub fn take(&mut self, alloc: Global, what: &Directive) -> Result<Option<UseWhy>, Stop>
        requires range { IsInRange what.now }
        requires asks { AsksNothing what.now }
        requires goes_on { goes_on self.old ≡ true }
        requires room { HasRoom 1 (engine_in self.old).run }
        ensures goes_on { IfOk result (λ _. goes_on self.new ≡ true) }
        ensures stopped { OnErr result (goes_on self.new ≡ false) }
        // There is no other cause to stop.
        ensures why { IfErr result (λ stop. stop ≡ cause.NoMemory) }
        ensures tells { WritesEffect (effect_of Nothing what.now) self result }
        // A refusal leaves the state as it was.
        ensures left { RefusalLeavesState self result }
    {
        let fields = no_fields(no_shift);
        let sizing = Sizing::new(any_length);
        let told = tell(
            alloc,
            &mut self.engine,
            what,
            &mut self.log,
            &fields,
            &sizing,
        );
        match told {
            Ok(None) => {
                self.engine.settle_outside_groups();
                Ok(None)
            }
            Ok(Some(why)) => Ok(Some(why)),
            Err(_stop) => {
                self.goes_on = false;
                Err(Stop::NoMemory)
            }
        }
    }
}
