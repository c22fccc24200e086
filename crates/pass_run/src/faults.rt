//! Why a pass stops.
ghost use Rattle.std.specs.Prelude.{◌≡◌};

use outside_io::Stop;
use thiserror::Error;

/// Why a pass stopped before its end.
#[derive(Clone, Copy, Debug, PartialEq, Eq, Error)]
pub enum PassFault {
    /// There was no memory left: for what the pass asks, for an edit, or for the text of a line.
    #[error("out of memory")]
    NoMemory = 1,
    /// The sink failed. A part of a line that is not all of it is written, perhaps nothing.
    #[error("the sink failed")]
    SinkFault = 2,
}

impl PassFault {
    /// Why a pass stopped that has no desk.
    pub(crate) fn of(stop: Stop) -> PassFault
        requires { stop ≡ Stop.DeskFault → ⊥ }
        ensures memory { result ≡ PassFault.NoMemory → stop ≡ Stop.NoMemory }
        ensures sink { result ≡ PassFault.SinkFault → stop ≡ Stop.SinkFault }
    {
        match stop {
            Stop::NoMemory => PassFault::NoMemory,
            Stop::SinkFault => PassFault::SinkFault,
            Stop::DeskFault => unreachable!(),
        }
    }
}
