ghost use Rattle.mesh_base.specs.Kept.{BeginsWith};
ghost use Rattle.step_text.specs.declared.Directive.TheVariants.{Solid};
ghost use Rattle.outside_io.specs.Outside.{LeavesDesk};
ghost use Rattle.track_engine.specs.Answers.{Nothing};
ghost use Rattle.track_engine.specs.Effects.{effect_of};
ghost use Rattle.track_engine.specs.Calls.{EngineWrites, RefusalKeepsState};
ghost use Rattle.track_engine.specs.Invariant.{MarksHold};
ghost use Rattle.track_engine.specs.Ready.{IsReady};

use crate::engine::Engine;
use log_text::LogLine;
use log_write::Listener;
use mesh_base::{Surface, UseWhy, VertexId};
use outside_io::Stop;
use std::alloc::Global;

impl<S: Surface> Engine<S> {
    /// Makes a vertex solid from here on: nothing is asked of it, and its line is written; or no such vertex lives.
    pub(crate) fn take_solid<O: Listener>(
        &mut self,
        alloc: Global,
        v: u32,
        outside: &mut O,
    ) -> Result<Option<UseWhy>, Stop>
        requires ready { IsReady S.beyond S.mesh S.kept self.old }
        ensures writes { EngineWrites S.mesh S.kept O.around self outside (effect_of Nothing (Solid v)) result }
        ensures left { RefusalKeepsState S.mesh S.kept self result }
        ensures marks { MarksHold S.beyond (S.kept self.new.mesh) self.new.run.groups }
        ensures begins { BeginsWith (S.kept self.new.mesh) (S.kept self.old.mesh) }
        ensures nothing_stored { LeavesDesk O.around outside result }
    {
        let id = VertexId(v);
        if self.mesh.point(id).is_none() {
            return Ok(Some(UseWhy::NoVertex { v }));
        }
        self.mesh.make_solid(id)?;
        outside.tell(alloc, &LogLine::Solid { v: id })?;
        Ok(None)
    }
}
