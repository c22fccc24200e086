//! What holds of all runs. Each law is the contract of a function that does nothing.

ghost use Rattle.track_run.specs.Complete.{AllLawfulJobsAreDone, TriesAreDone};

use grid_base::{Point, Shift};
use mesh_sizing::Band;

/// A job whose files are there and are read without a fault, whose mesh is of good shape and clear, and whose directives are all taken,
/// whatever the stored fields and the sizing may answer, is done, where neither the desk nor the sink fails and there is memory.
pub fn jobs_of_which_nothing_is_refused_are_done<F: Fn(u8, Point) -> Shift, G: Fn(Point) -> Band>()
    ensures { AllLawfulJobsAreDone F.Fn G.Fn }
{}

/// A try is done, where the sink does not fail and there is memory.
pub fn tries_are_done()
    ensures { TriesAreDone }
{}
