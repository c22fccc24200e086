//! A pass by the sizing.
ghost use Rattle.std.specs.Prelude.{IfOk};
ghost use Rattle.mesh_base.specs.Kept.{BeginsWith};
ghost use Rattle.mesh_sizing.specs.Sizes.{IsWellKept as SizesWell, MayAnswer as MaySize};
ghost use Rattle.outside_io.specs.Outside.{LeavesDesk};
ghost use Rattle.track_engine.specs.Calls.{EngineFits, state_after, state_before, text_after, text_before};
ghost use Rattle.track_engine.specs.Invariant.{MarksHold};
ghost use Rattle.track_engine.specs.Parts.{FitTakes};
ghost use Rattle.track_engine.specs.Ready.{IsReady};
ghost use Rattle.track_engine.specs.Told.{pass_untold};

use crate::engine::Engine;
use crate::shift_sums::keep_asked;
use crate::told::pass_untold;
use grid_base::Point;
use log_write::Listener;
use mesh_base::{Surface, UseWhy};
use mesh_sizing::{Band, Sizing};
use outside_io::Stop;
use pass_run::{PassCount, Turns, fit_to};
use std::alloc::Global;

impl<S: Surface> Engine<S> {
    /// Makes a pass by the sizing over the mesh, each line of it written. In a group its first `no` line ends it, and makes
    /// the group fail. What it tells is how many of its lines are of done edits, and how many of refused ones. The engine is
    /// ready, as one of a sound, closed and clear mesh is until a directive stops, and the sizing may be asked at each
    /// point.
    pub fn fit<O: Listener, G: Fn(Point) -> Band>(
        &mut self,
        alloc: Global,
        sizing: &Sizing<G>,
        outside: &mut O,
    ) -> Result<PassCount, Stop>
        requires ready { IsReady S.beyond S.mesh S.kept self.old }
        requires sizing { SizesWell G.Fn sizing.now }
        ensures fits { EngineFits S.mesh S.kept O.around self outside (MaySize G.Fn sizing.now) result }
        ensures ready { IfOk result (λ _. IsReady S.beyond S.mesh S.kept self.new) }
        ensures marks { MarksHold S.beyond (S.kept self.new.mesh) self.new.run.groups }
        ensures begins { BeginsWith (S.kept self.new.mesh) (S.kept self.old.mesh) }
        ensures nothing_stored { LeavesDesk O.around outside (pass_untold result) }
    {
        keep_asked(alloc, &self.mesh, &mut self.run.asked)?;
        let turns = Turns {
            by: sizing,
            depth: self.run.set.depth,
            grouped: self.run.groups.is_open(),
        };
        let count = fit_to(alloc, &mut self.mesh, turns, outside)?;
        self.run.groups.fail_if(count.refused > 0);
        Ok(count)
    }

    // The same, with nothing told.
    pub(crate) fn take_fit<O: Listener, G: Fn(Point) -> Band>(
        &mut self,
        alloc: Global,
        sizing: &Sizing<G>,
        outside: &mut O,
    ) -> Result<Option<UseWhy>, Stop>
        requires ready { IsReady S.beyond S.mesh S.kept self.old }
        requires sizing { SizesWell G.Fn sizing.now }
        ensures fits { FitTakes (MaySize G.Fn sizing.now)
            (state_before S.mesh S.kept self) (state_after S.mesh S.kept self)
            (text_before O.around outside) (text_after O.around outside) result }
        ensures marks { MarksHold S.beyond (S.kept self.new.mesh) self.new.run.groups }
        ensures begins { BeginsWith (S.kept self.new.mesh) (S.kept self.old.mesh) }
        ensures nothing_stored { LeavesDesk O.around outside result }
    {
        let told = self.fit(alloc, sizing, outside);
        pass_untold(told)
    }
}
