//! What stands behind the pointer of a tracker.
ghost use Rattle.std.specs.Prelude.{◌≡◌, ◌++◌};
ghost use Rattle.mesh_sizing.specs.Sizes.{IsBand};
ghost use Rattle.step_choose.specs.Settings.{AreWithinLimits};
ghost use Rattle.step_text.specs.Ranges.{IsInRange};

use crate::codes::{DONE, GROUPED, NO_MEMORY, REFUSED, SPENT, STOPPED};
use crate::fault::{TopoFault, use_place};
use crate::results::{TopoEdits, TopoWay, closing_number, edits_told, undone_number, way_told};
use edit_base::{Asked, PassKind};
use mesh_journal::JournalMesh;
use mesh_sizing::Band;
use pass_run::Answers;
use std::alloc::Global;
use step_choose::Settings;
use step_text::Directive;
use track_held::{BandTable, Held};

/// A tracker over a mesh in half-edges.
#[derive(Drop)]
pub struct Tracker {
    pub held: Held<JournalMesh>,
}

impl Tracker {
    ghost use Rattle.step_text.specs.declared.Directive.TheVariants.{Step, Pass, Close, Save};
    ghost use Rattle.track_engine.specs.Told.{step_told, pass_told};
    ghost use Rattle.track_held.specs.Asking.{AsksNothing};
    ghost use Rattle.track_held.specs.Fitting.{always};
    ghost use Rattle.track_held.specs.Tables.{by_cells};
    ghost use Rattle.track_engine.specs.Answers.{Nothing};
    ghost use Rattle.track_engine.specs.Effects.{effect_of, edits_effect, edited_answers, undo_effect};
    ghost use Rattle.topo_library.specs.Codes.{tracker_state, HasDone, HasTold, HasSet, HasFitted, HasWritten, HasRenumbered};
    ghost use Rattle.topo_library.specs.Logged.{HasBegunLog, HasEndedLog};
    ghost use Rattle.topo_library.specs.Tellings.{way_told, edits_told, closing_of, undone_of};

    /// Does a directive, and answers how that went.
    pub(crate) fn advance(&mut self, alloc: Global, what: &Directive, fault: &mut TopoFault) -> u32
        requires range { IsInRange what.now }
        requires asks { AsksNothing what.now }
        ensures { HasDone what.now self.old self.new fault.old fault.new result }
    {
        if !self.held.goes_on() {
            return STOPPED;
        }
        if !self.held.has_room() {
            return SPENT;
        }
        match self.held.take(alloc, what) {
            Ok(None) => DONE,
            Ok(Some(why)) => {
                *fault = use_place(why);
                REFUSED
            }
            Err(_) => NO_MEMORY,
        }
    }

    /// Takes a step, and answers how that went.
    pub(crate) fn step(&mut self, alloc: Global, way: &mut TopoWay, fault: &mut TopoFault) -> u32
        ensures does { HasDone Step self.old self.new fault.old fault.new result }
        ensures tells { HasTold (λ t. way_told (step_told (tracker_state t))) self.old
            way.old way.new result }
    {
        if !self.held.goes_on() {
            return STOPPED;
        }
        if !self.held.has_room() {
            return SPENT;
        }
        match self.held.step(alloc) {
            Ok(Ok(told)) => {
                *way = way_told(told);
                DONE
            }
            Ok(Err(why)) => {
                let place = use_place(why);
                *fault = place;
                REFUSED
            }
            Err(_) => NO_MEMORY,
        }
    }

    /// Makes a pass, and answers how that went. It is never refused, so the fault stays.
    pub(crate) fn pass(
        &mut self,
        alloc: Global,
        kind: PassKind,
        edits: &mut TopoEdits,
        fault: &mut TopoFault,
    ) -> u32
        ensures does { HasDone (Pass kind) self.old self.new fault.old fault.new result }
        ensures tells { HasTold (λ t. edits_told (pass_told kind (tracker_state t))) self.old
            edits.old edits.new result }
    {
        if !self.held.goes_on() {
            return STOPPED;
        }
        if !self.held.has_room() {
            return SPENT;
        }
        match self.held.pass(alloc, kind) {
            Ok(count) => {
                *edits = edits_told(count);
                DONE
            }
            Err(_) => NO_MEMORY,
        }
    }

    /// Closes the group that was opened last, and answers how that went.
    pub(crate) fn close(&mut self, alloc: Global, kept: &mut u32, fault: &mut TopoFault) -> u32
        ensures does { HasDone Close self.old self.new fault.old fault.new result }
        ensures tells { HasTold (λ t. closing_of (tracker_state t).groups) self.old
            kept.old kept.new result }
    {
        let closing = self.held.closing();
        let code = self.advance(alloc, &Directive::Close, fault);
        if code == DONE {
            *kept = closing_number(closing);
        }
        code
    }

    /// Makes a pass by a band of lengths, and answers how that went.
    pub(crate) fn fit(&mut self, alloc: Global, band: Band, edits: &mut TopoEdits) -> u32
        requires { IsBand band }
        ensures { HasFitted (always band) self.old self.new edits.old edits.new result }
    {
        if !self.held.goes_on() {
            return STOPPED;
        }
        if !self.held.has_room() {
            return SPENT;
        }
        match self.held.fit(alloc, band) {
            Ok(count) => {
                *edits = edits_told(count);
                DONE
            }
            Err(_) => NO_MEMORY,
        }
    }

    /// Makes a pass by a table of bands, and answers how that went.
    pub(crate) fn fit_by(
        &mut self,
        alloc: Global,
        table: &BandTable<'_>,
        edits: &mut TopoEdits,
    ) -> u32
        ensures { HasFitted (by_cells table.now.cells table.now.bands.now) self.old self.new
            edits.old edits.new result }
    {
        if !self.held.goes_on() {
            return STOPPED;
        }
        if !self.held.has_room() {
            return SPENT;
        }
        match self.held.fit_by(alloc, table) {
            Ok(count) => {
                *edits = edits_told(count);
                DONE
            }
            Err(_) => NO_MEMORY,
        }
    }

    /// Asks edits, and answers how that went; at 0 what came of each stands behind the answers.
    pub(crate) fn edits(&mut self, alloc: Global, asked: &[Asked], answers: &mut Answers) -> u32
        ensures writes { HasWritten (edits_effect asked.now (tracker_state self.old))
            self.old self.new result }
        ensures answers { result ≡ 0 →
            answers.new ≡ answers.old ++ edited_answers asked.now (tracker_state self.old) }
    {
        if !self.held.goes_on() {
            return STOPPED;
        }
        if !self.held.has_room() {
            return SPENT;
        }
        match self.held.edits(alloc, asked, answers) {
            Ok(_) => DONE,
            Err(_) => NO_MEMORY,
        }
    }

    /// Takes the group that was opened last back, and answers how that went.
    pub(crate) fn undo(&mut self, alloc: Global, became: &mut u32) -> u32
        ensures writes { HasWritten (undo_effect (tracker_state self.old).groups (tracker_state self.old))
            self.old self.new result }
        ensures tells { HasTold (λ t. undone_of (tracker_state t).groups) self.old
            became.old became.new result }
    {
        if !self.held.goes_on() {
            return STOPPED;
        }
        if !self.held.has_room() {
            return SPENT;
        }
        let closing = self.held.closing();
        match self.held.undo(alloc) {
            Ok(_) => {
                *became = undone_number(closing);
                DONE
            }
            Err(_) => NO_MEMORY,
        }
    }

    /// Goes by these settings from here on.
    pub(crate) fn set(&mut self, set: Settings) -> u32
        requires { AreWithinLimits set }
        ensures { HasSet set self.old self.new result }
    {
        if !self.held.goes_on() {
            return STOPPED;
        }
        self.held.set(set);
        DONE
    }

    /// Numbers vertices and faces anew, and answers how that went. Nothing is changed where memory is wanting.
    pub(crate) fn renumber(&mut self, alloc: Global) -> u32
        ensures { HasRenumbered self.old self.new result }
    {
        if !self.held.goes_on() {
            return STOPPED;
        }
        if self.held.has_open_group() {
            return GROUPED;
        }
        match self.held.renumber(alloc) {
            Ok(()) => DONE,
            Err(_) => NO_MEMORY,
        }
    }

    /// Begins a log, and answers how that went. Nothing is changed where it is not begun.
    pub(crate) fn begin_log(&mut self, alloc: Global) -> u32
        ensures { HasBegunLog self.old self.new result }
    {
        let open = self.held.has_open_group();
        if !self.held.goes_on() {
            return STOPPED;
        }
        if open {
            return GROUPED;
        }
        match self.held.begin_log(alloc) {
            Ok(()) => DONE,
            Err(_) => NO_MEMORY,
        }
    }

    /// Saves the mesh, as far as its line goes, and answers how that went.
    pub(crate) fn save(&mut self, alloc: Global, number: &mut u32) -> u32
        ensures writes { HasWritten (effect_of Nothing Save (tracker_state self.old))
            self.old self.new result }
        ensures tells { HasTold (λ t. (tracker_state t).saved) self.old
            number.old number.new result }
    {
        if !self.held.goes_on() {
            return STOPPED;
        }
        if !self.held.has_room() {
            return SPENT;
        }
        let saved = self.held.saved();
        match self.held.save(alloc) {
            Ok(_) => {
                *number = saved;
                DONE
            }
            Err(_) => NO_MEMORY,
        }
    }

    /// Ends a log, and answers how that went.
    pub(crate) fn end_log(&mut self, alloc: Global) -> u32
        ensures { HasEndedLog self.old self.new result }
    {
        let grouped = self.held.has_open_group();
        if !self.held.goes_on() {
            return STOPPED;
        }
        if grouped {
            return GROUPED;
        }
        match self.held.end_log(alloc) {
            Ok(_) => DONE,
            Err(_) => NO_MEMORY,
        }
    }
}
