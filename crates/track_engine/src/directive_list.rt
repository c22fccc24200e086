ghost use Rattle.std.specs.Prelude.{◌≡◌, ◌≤◌, length};
ghost use Rattle.grid_base.specs.declared.TheConstants.{DECIMALS_MAX};
ghost use Rattle.step_text.specs.Ranges.{AreInRange};
ghost use Rattle.mesh_field.specs.Stored.{IsWellKept};
ghost use Rattle.mesh_sizing.specs.Sizes.{IsWellKept as SizesWell};
ghost use Rattle.outside_io.specs.Outside.{Counts};
ghost use Rattle.track_engine.specs.Engines.{state_in};
ghost use Rattle.track_engine.specs.Invariant.{HasRoom, MarksHold};
ghost use Rattle.track_engine.specs.Ready.{IsReady};
ghost use Rattle.track_engine.specs.Calls.{DoesAll, groups_in};

use crate::engine::Engine;
use crate::lines::finish;
use crate::terms::RunTerms;
use grid_base::{Point, Shift};
use log_text::{LogLine, Refusal};
use log_write::Listener;
use mesh_base::Surface;
use mesh_sizing::Band;
use outside_io::Stop;
use std::alloc::Global;
use step_text::Placed;

impl<S: Surface> Engine<S> {
    /// Gives up what the mesh keeps, unless a group is open, to whose mark it may have to go back. The state stays. Takes no
    /// memory. The engine is ready, as one of a sound, closed and clear mesh is until a directive stops.
    pub fn settle_outside_groups(&mut self)
        requires { IsReady S.beyond S.mesh S.kept self.old }
        ensures ready { IsReady S.beyond S.mesh S.kept self.new }
        ensures state { state_in S.mesh S.kept self.new ≡ state_in S.mesh S.kept self.old }
        ensures mesh { S.mesh self.new.mesh ≡ S.mesh self.old.mesh }
        ensures run { self.new.run ≡ self.old.run }
        ensures marks { MarksHold S.beyond (S.kept self.new.mesh) self.new.run.groups }
        ensures groups { groups_in S.kept self.new ≡ groups_in S.kept self.old }
    {
        if !self.run.groups.is_open() {
            self.mesh.settle();
        }
    }

    /// Does the directives in order and writes the last line of the log, which tells the first that is refused, with its
    /// line in the step file, or the end. After each directive that is taken while no group is open, the mesh is settled. At
    /// the end of the whole log the replay of its lines has the engine's mesh, and the meshes at which the open groups were
    /// opened. Where it stops before the field of a drive has answered, nothing is written of that drive or beyond; and
    /// where it stops in a pass by the sizing, nothing beyond the edges of which the sizing has answered. The engine is
    /// ready, as one of a sound, closed and clear mesh is until a directive stops; as many steps and saved meshes more can
    /// be counted as there are directives; their numbers are those that a step text may give; and fields and sizing may be
    /// asked at each point.
    pub fn follow<O: Listener, F: Fn(u8, Point) -> Shift, G: Fn(Point) -> Band>(
        &mut self,
        alloc: Global,
        terms: &RunTerms<'_, F, G>,
        steps: &[Placed],
        outside: &mut O,
    ) -> Result<Option<Refusal>, Stop>
        requires few { terms.now.to.decimals ≤ DECIMALS_MAX }
        requires fields { IsWellKept F.Fn terms.now.fields.now }
        requires sizing { SizesWell G.Fn terms.now.sizing.now }
        requires ranges { AreInRange steps.now }
        requires ready { IsReady S.beyond S.mesh S.kept self.old }
        requires room { HasRoom (length steps.now) self.old.run }
        ensures follows { DoesAll S.mesh S.kept O.around self outside F.Fn G.Fn terms.now steps.now result }
        ensures counts { Counts (O.around outside.old) (O.around outside.new) result }
    {
        for placed in steps {
            match self.advance(alloc, &placed.what, terms, outside)? {
                None => self.settle_outside_groups(),
                Some(why) => {
                    let line = placed.line;
                    return finish(
                        alloc,
                        outside,
                        LogLine::Refused(Refusal::StepUse { line, why }),
                    );
                }
            }
        }
        finish(alloc, outside, LogLine::End)
    }
}
