ghost use Rattle.std.specs.Prelude.{◌≡◌};
ghost use Rattle.track_check.specs.Check.{refusal_of};

use log_text::Refusal;
use mesh_base::{PairName, ShapeFault};

/// The greatest number of faults that a check tells.
pub const FAULTS_MAX: usize = 1_000_000;

/// What is wrong with a mesh, one of perhaps many.
#[derive(Clone, Copy, Debug, PartialEq, Eq)]
pub enum Fault {
    /// The points and faces are no closed mesh within the limits.
    Shape(ShapeFault),
    /// An edge and a face meet that share no vertex.
    Meets(PairName),
}

/// A fault as the refusal of a run that finds it first.
pub(crate) fn refusal_of(fault: Fault) -> Refusal
    ensures { result ≡ refusal_of fault }
{
    match fault {
        Fault::Shape(fault) => Refusal::Shape(fault),
        Fault::Meets(pair) => Refusal::Meets(pair),
    }
}
