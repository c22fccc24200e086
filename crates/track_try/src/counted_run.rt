//! A job is run over a sink and a desk that only count.
ghost use Rattle.std.specs.Prelude.{◌≡◌, ◌<◌, ◌^◌, [], length, IfOk};
ghost use Rattle.mesh_base.specs.Valid.{IsValidSurface};
ghost use Rattle.mesh_field.specs.Stored.{IsWellKept};
ghost use Rattle.mesh_sizing.specs.Sizes.{IsWellKept as SizesWell};
ghost use Rattle.outside_io.specs.Tally.{told_to};
ghost use Rattle.step_text.specs.Ranges.{AreInRange};
ghost use Rattle.track_engine.specs.Answers.{NoneFits};
ghost use Rattle.track_try.specs.Told.{HasRun};

use grid_base::{NoMemory, Point, Shift};
use log_text::{LogLine, VERSION};
use log_write::write_line;
use mesh_base::Surface;
use mesh_field::Fields;
use mesh_sizing::{Band, Sizing};
use outside_io::{Ends, TallyDesk, TallySink};
use std::alloc::Global;
use step_text::Placed;
use track_engine::{Engine, RunTerms, Target};

/// Runs the job of a mesh and directives that name no stored field and go by no sizing: its whole log goes to the sink, and the engine is
/// left as it stands at the end. Neither side ever fails, so nothing but want of memory stops it.
pub(crate) fn run<'a, S: Surface + Drop, F: Fn(u8, Point) -> Shift, G: Fn(Point) -> Band>(
    alloc: Global,
    mesh: S,
    steps: &[Placed],
    told: &mut TallySink,
    fields: &'a Fields<F>,
    sizing: &'a Sizing<G>,
) -> Result<Engine<S>, NoMemory>
    requires good { IsValidSurface (S.mesh mesh) }
    requires ranges { AreInRange steps.now }
    requires count { length steps.now < 2 ^ 31 }
    requires fresh { told_to told.old ≡ [] }
    requires none { fields.now.names ≡ [] }
    requires none_fits { NoneFits steps.now }
    requires fields { IsWellKept F.Fn fields.now }
    requires sizing { SizesWell G.Fn sizing.now }
    ensures { IfOk result (λ engine.
        HasRun (S.mesh mesh) steps.now (told_to told.new) (S.mesh engine.mesh)) }
{
    let to = Target {
        prefix: "",
        decimals: 0,
    };
    let terms = RunTerms { to, fields, sizing };
    let mut desk = TallyDesk::new();
    let mut ends = Ends {
        desk: &mut desk,
        out: told,
    };
    let mut engine = Engine::new(alloc, mesh)?;
    let first = LogLine::First { version: VERSION };
    let Ok(()) = write_line(alloc, &mut ends, &first) else {
        return Err(NoMemory);
    };
    let Ok(()) = engine.save(alloc, to, &mut ends) else {
        return Err(NoMemory);
    };
    match engine.follow(alloc, &terms, steps, &mut ends) {
        Ok(_) => Ok(engine),
        Err(_) => Err(NoMemory),
    }
}
