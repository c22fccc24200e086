//! Edits that are asked for by ids, and a group that is taken back by choice.
ghost use Rattle.std.specs.Prelude.{◌≡◌, IfOk, OnOk};
ghost use Rattle.mesh_base.specs.Kept.{BeginsWith};
ghost use Rattle.outside_io.specs.Outside.{LeavesDesk};
ghost use Rattle.track_engine.specs.Calls.{AddsAnswers, CountsEdits, EngineEdits, EngineUndoes, meshes_left_by_undo};
ghost use Rattle.track_engine.specs.Engines.{state_in};
ghost use Rattle.track_engine.specs.Invariant.{MarksHold};
ghost use Rattle.track_engine.specs.Ready.{IsReady};
ghost use Rattle.track_engine.specs.Told.{pass_untold};

use crate::engine::Engine;
use crate::shift_sums::keep_asked;
use edit_base::Asked;
use log_write::Listener;
use mesh_base::{Surface, UseWhy};
use outside_io::Stop;
use pass_run::{Answers, EditTerms, PassCount, edits_to};
use std::alloc::Global;

impl<S: Surface> Engine<S> {
    /// Asks edits by ids, one after another, each line of them written; there is no line that tells where they begin. What
    /// came of each stands after the answers. In a group the first that is refused ends them, and makes the group fail. What
    /// is told is how many were done, and how many refused. The engine is ready, as one of a sound, closed and clear mesh is
    /// until a directive stops. Any edit may be asked for, but the line of a refused one repeats what was asked, and a log is
    /// read again only where each edge has its smaller end first and the ids are those that a log may give: that is for the
    /// caller to see to.
    pub fn edits<O: Listener>(
        &mut self,
        alloc: Global,
        asked: &[Asked],
        answers: &mut Answers,
        outside: &mut O,
    ) -> Result<PassCount, Stop>
        requires ready { IsReady S.beyond S.mesh S.kept self.old }
        ensures writes { EngineEdits S.mesh S.kept O.around self outside asked.now (pass_untold result) }
        ensures told { IfOk result (CountsEdits asked.now (state_in S.mesh S.kept self.old)) }
        ensures answers { OnOk result (AddsAnswers asked.now (state_in S.mesh S.kept self.old) answers) }
        ensures ready { IfOk result (λ _. IsReady S.beyond S.mesh S.kept self.new) }
        ensures marks { MarksHold S.beyond (S.kept self.new.mesh) self.new.run.groups }
        ensures begins { BeginsWith (S.kept self.new.mesh) (S.kept self.old.mesh) }
        ensures nothing_stored { LeavesDesk O.around outside (pass_untold result) }
    {
        keep_asked(alloc, &self.mesh, &mut self.run.asked)?;
        let terms = EditTerms {
            depth: self.run.set.depth,
            grouped: self.run.groups.is_open(),
        };
        let count = edits_to(alloc, &mut self.mesh, terms, asked, answers, outside)?;
        self.run.groups.fail_if(count.refused > 0);
        Ok(count)
    }

    /// Takes the innermost open group back, whether it has failed or not: its line is written, and the mesh and what is asked are
    /// again those at its opening. Nothing is done where no group is open. It is never refused. The engine is ready, as one of a
    /// sound, closed and clear mesh is until a directive stops.
    pub fn undo<O: Listener>(
        &mut self,
        alloc: Global,
        outside: &mut O,
    ) -> Result<Option<UseWhy>, Stop>
        requires { IsReady S.beyond S.mesh S.kept self.old }
        ensures writes { EngineUndoes S.mesh S.kept O.around self outside result }
        ensures taken { IfOk result (λ refused. refused ≡ None) }
        ensures ready { IfOk result (λ _. IsReady S.beyond S.mesh S.kept self.new) }
        ensures marks { MarksHold S.beyond (S.kept self.new.mesh) self.new.run.groups }
        ensures begins { BeginsWith (S.kept self.new.mesh) (meshes_left_by_undo S.kept self.old) }
        ensures nothing_stored { LeavesDesk O.around outside result }
    {
        self.run.groups.fail_if(true);
        self.close_group(alloc, outside)
    }
}
