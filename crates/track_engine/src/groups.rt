ghost use Rattle.std.specs.Prelude.{◌≡◌, false, length, IfOk, OnErr};
ghost use Rattle.mesh_base.specs.Kept.{BeginsWith, MarkHolds, StandsFor};
ghost use Rattle.step_text.specs.declared.Directive.TheVariants.{Group, Close};
ghost use Rattle.outside_io.specs.Outside.{LeavesDesk};
ghost use Rattle.track_engine.specs.Answers.{Nothing};
ghost use Rattle.track_engine.specs.Effects.{effect_of};
ghost use Rattle.track_engine.specs.Calls.{EngineWrites, meshes_left};
ghost use Rattle.track_engine.specs.Invariant.{MarksHold};

use crate::asked_shifts::AskedShifts;
use crate::engine::Engine;
use crate::open_group::OpenGroup;
use grid_base::NoMemory;
use log_text::LogLine;
use log_write::Listener;
use mesh_base::{Surface, UseWhy};
use outside_io::Stop;
use std::alloc::Global;

// What is kept of a group: a mark of the mesh as it is, and a copy of what is asked.
fn group_here<S: Surface>(
    alloc: Global,
    mesh: &mut S,
    asked: &AskedShifts,
) -> Result<OpenGroup, NoMemory>
    ensures holds { IfOk result (λ group. MarkHolds S.beyond (S.kept mesh.new) group.mark) }
    ensures stands { IfOk result
        (λ group. StandsFor (S.kept mesh.new) group.mark (S.mesh mesh.old)) }
    ensures under { IfOk result (λ group. group.mark.under ≡ length (S.kept mesh.old)) }
    ensures asked { IfOk result (λ group. group.asked ≡ asked.now) }
    ensures failed { IfOk result (λ group. group.failed ≡ false) }
    ensures mesh { S.mesh mesh.new ≡ S.mesh mesh.old }
    ensures begins { BeginsWith (S.kept mesh.new) (S.kept mesh.old) }
{
    let asked = asked.copy(alloc)?;
    let mark = mesh.mark()?;
    Ok(OpenGroup {
        mark,
        asked,
        failed: false,
    })
}

impl<S: Surface> Engine<S> {
    /// Opens a group: the mesh and what is asked are kept for a return, and its line is written. An error leaves the state as it was.
    pub(crate) fn open_group<O: Listener>(
        &mut self,
        alloc: Global,
        outside: &mut O,
    ) -> Result<Option<UseWhy>, Stop>
        requires { MarksHold S.beyond (S.kept self.old.mesh) self.old.run.groups }
        ensures writes { EngineWrites S.mesh S.kept O.around self outside (effect_of Nothing Group) result }
        ensures taken { IfOk result (λ refused. refused ≡ None) }
        ensures left { OnErr result (self.new.run ≡ self.old.run) }
        ensures mesh { S.mesh self.new.mesh ≡ S.mesh self.old.mesh }
        ensures marks { MarksHold S.beyond (S.kept self.new.mesh) self.new.run.groups }
        ensures begins { BeginsWith (S.kept self.new.mesh) (S.kept self.old.mesh) }
        ensures nothing_stored { LeavesDesk O.around outside result }
    {
        let group = group_here(alloc, &mut self.mesh, &self.run.asked)?;
        self.run.groups.open(group)?;
        if let Err(stop) = outside.tell(alloc, &LogLine::Group) {
            let _ = self.run.groups.close();
            return Err(stop);
        }
        Ok(None)
    }

    /// Closes the innermost open group: its line is written, and where the group has failed, the mesh and what is asked are again those at
    /// its opening. An error leaves the state as it was. Nothing is done where no group is open.
    pub(crate) fn close_group<O: Listener>(
        &mut self,
        alloc: Global,
        outside: &mut O,
    ) -> Result<Option<UseWhy>, Stop>
        requires { MarksHold S.beyond (S.kept self.old.mesh) self.old.run.groups }
        ensures writes { EngineWrites S.mesh S.kept O.around self outside (effect_of Nothing Close) result }
        ensures taken { IfOk result (λ refused. refused ≡ None) }
        ensures left { OnErr result (self.new ≡ self.old) }
        ensures marks { MarksHold S.beyond (S.kept self.new.mesh) self.new.run.groups }
        ensures begins { BeginsWith (S.kept self.new.mesh) (meshes_left Close S.kept self.old) }
        ensures nothing_stored { LeavesDesk O.around outside result }
    {
        let Some(failed) = self.run.groups.has_failed() else {
            return Ok(None);
        };
        outside.tell(alloc, &LogLine::Close { kept: !failed })?;
        let Some(group) = self.run.groups.close() else {
            unreachable!()
        };
        let OpenGroup {
            mark,
            asked,
            failed: _,
        } = group;
        if failed {
            self.mesh.back_to(mark);
            self.run.asked = asked;
        }
        Ok(None)
    }
}
