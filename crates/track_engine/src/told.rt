//! What a step and a pass tell of themselves.
ghost use Rattle.std.specs.Prelude.{◌≡◌};
ghost use Rattle.track_engine.specs.Told.{step_untold, pass_untold};

use mesh_base::{How, UseWhy};
use outside_io::Stop;
use pass_run::PassCount;

/// What a step tells of itself.
#[derive(Clone, Copy, Debug, PartialEq, Eq)]
pub struct StepTold {
    /// How it is taken.
    pub how: How,
    /// How many pairs do not pass in the asked step.
    pub hits: usize,
}

/// What a step answers, with nothing told.
pub(crate) fn step_untold(
    told: Result<Result<StepTold, UseWhy>, Stop>,
) -> Result<Option<UseWhy>, Stop>
    ensures { result ≡ step_untold told }
{
    match told {
        Ok(Ok(_)) => Ok(None),
        Ok(Err(why)) => Ok(Some(why)),
        Err(stop) => Err(stop),
    }
}

/// What a pass answers, with nothing told. It is never refused.
pub(crate) fn pass_untold(told: Result<PassCount, Stop>) -> Result<Option<UseWhy>, Stop>
    ensures { result ≡ pass_untold told }
{
    match told {
        Ok(_) => Ok(None),
        Err(stop) => Err(stop),
    }
}
