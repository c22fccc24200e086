//! Why a run stops.
ghost use Rattle.std.specs.Prelude.{◌≡◌};
ghost use Rattle.outside_io.specs.declared.stop.Stop.TheVariants as stops;

use crate::Failed;
use grid_base::NoMemory;
use thiserror::Error;

/// Why a run stops before its end.
#[derive(Clone, Copy, Debug, PartialEq, Eq, Error)]
pub enum Stop {
    /// There was no memory.
    #[error("out of memory")]
    NoMemory,
    /// The desk failed.
    #[error("the desk failed")]
    DeskFault,
    /// The sink failed.
    #[error("the sink failed")]
    SinkFault,
}

impl From<NoMemory> for Stop {
    ghost from_gives = { λ _ stop. stop ≡ stops.NoMemory };

    fn from(_: NoMemory) -> Stop {
        Stop::NoMemory
    }
}

impl From<Failed> for Stop {
    ghost from_gives = { λ _ stop. stop ≡ stops.SinkFault };

    fn from(_: Failed) -> Stop {
        Stop::SinkFault
    }
}
