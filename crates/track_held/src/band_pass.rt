//! Passes by a band of lengths that is the same everywhere, and by a table of bands.
ghost use Rattle.std.specs.Prelude.{◌≡◌, true, false, Some, IfOk, OnErr, IfErr};
ghost use Rattle.mesh_sizing.specs.Sizes.{IsBand, IsWellKept as SizesWell, MayAnswer as MaySize};
ghost use Rattle.outside_io.specs.declared.stop.Stop.TheVariants as cause;
ghost use Rattle.track_engine.specs.Engines.{state_in};
ghost use Rattle.track_engine.specs.Parts.{FitTells};
ghost use Rattle.track_engine.specs.Ready.{IsReady};
ghost use Rattle.track_held.specs.Fitting.{always};
ghost use Rattle.track_held.specs.Tables.{by_cells};
ghost use Rattle.log_write.specs.Kept.{told_in};

use crate::band_table::BandTable;
use crate::held::Held;
use grid_base::Point;
use log_write::KeptLines;
use mesh_base::Surface;
use mesh_sizing::{Band, Sizing};
use outside_io::Stop;
use pass_run::PassCount;
use std::alloc::Global;
use track_engine::Engine;

// Makes a pass by a sizing, whose lines are told to the log.
fn tell_fit<S: Surface, G: Fn(Point) -> Band>(
    alloc: Global,
    engine: &mut Engine<S>,
    sizing: &Sizing<G>,
    log: &mut KeptLines,
) -> Result<PassCount, Stop>
    requires ready { IsReady S.beyond S.mesh S.kept engine.old }
    requires sizing { SizesWell G.Fn sizing.now }
    ensures tells { FitTells (MaySize G.Fn sizing.now)
        (state_in S.mesh S.kept engine.old) (state_in S.mesh S.kept engine.new)
        (told_in log.old) (told_in log.new) result }
    ensures ready { IfOk result (λ _. IsReady S.beyond S.mesh S.kept engine.new) }
{
    engine.fit(alloc, sizing, log)
}

impl<S: Surface> Held<S> {
    ghost use Rattle.track_held.specs.Held.{goes_on};
    ghost use Rattle.track_held.specs.Writing.{WritesFit};

    /// Makes a pass that splits each edge that is longer than the band and collapses each that is shorter, and tells how
    /// many edits it did and how many were refused: its lines are told, or it stops in them for want of memory, and goes on
    /// no more. Asked only while it goes on, of a band whose `low` is below its `high`, which is at most `LENGTH_MAX`.
    pub fn fit(&mut self, alloc: Global, band: Band) -> Result<PassCount, Stop>
        requires band { IsBand band }
        requires goes_on { goes_on self.old ≡ true }
        ensures goes_on { IfOk result (λ _. goes_on self.new ≡ true) }
        ensures stopped { OnErr result (goes_on self.new ≡ false) }
        // There is no other cause to stop.
        ensures why { IfErr result (λ stop. stop ≡ cause.NoMemory) }
        ensures tells { WritesFit (always band) self result }
    {
        let sizing = Sizing::new(
            move |_at: Point| -> Band
                ensures { result ≡ band }
            { band },
        );
        match tell_fit(alloc, &mut self.engine, &sizing, &mut self.log) {
            Ok(count) => {
                self.engine.settle_outside_groups();
                Ok(count)
            }
            Err(_stop) => {
                self.goes_on = false;
                Err(Stop::NoMemory)
            }
        }
    }

    /// The same by a table: the band of an edge is that of the cell in which the middle of the edge lies, or of the nearest cell.
    pub fn fit_by(&mut self, alloc: Global, table: &BandTable<'_>) -> Result<PassCount, Stop>
        requires goes_on { goes_on self.old ≡ true }
        ensures goes_on { IfOk result (λ _. goes_on self.new ≡ true) }
        ensures stopped { OnErr result (goes_on self.new ≡ false) }
        // There is no other cause to stop.
        ensures why { IfErr result (λ stop. stop ≡ cause.NoMemory) }
        ensures tells { WritesFit (by_cells table.now.cells table.now.bands.now) self result }
    {
        let sizing = Sizing::new(
            move |at: Point| -> Band
                ensures { by_cells table.entry.now.cells table.entry.now.bands.now at result }
            { table.band_at(at) },
        );
        match tell_fit(alloc, &mut self.engine, &sizing, &mut self.log) {
            Ok(count) => {
                self.engine.settle_outside_groups();
                Ok(count)
            }
            Err(_stop) => {
                self.goes_on = false;
                Err(Stop::NoMemory)
            }
        }
    }
}
