//! A tracker is made, and put into a handle.
ghost use Rattle.std.specs.Prelude.{◌≡◌, None};
ghost use Rattle.topo_library.specs.Codes.{HolderHasMade};

use crate::codes::{DONE, NO_MEMORY, REFUSED};
use crate::fault::{TopoFault, make_place};
use crate::handle::Topo;
use crate::tracker::Tracker;
use std::alloc::Global;
use track_held::{GivenFace, GivenPoint, MakeRefusal, track};

// Makes a tracker of the surface of these points and faces, and puts it into a handle that holds none.
fn put_new(
    alloc: Global,
    points: &[GivenPoint],
    faces: &[GivenFace],
    out: &mut Topo,
    fault: &mut TopoFault,
) -> u32
    requires { out.old.owned.value ≡ None }
    ensures { HolderHasMade points.now faces.now out.new.owned.value fault.old fault.new result }
{
    match track(alloc, points, faces) {
        Ok(held) => match Box::new(alloc, Tracker { held }) {
            Ok(b) => {
                out.give(b);
                DONE
            }
            Err(_) => NO_MEMORY,
        },
        Err(MakeRefusal::NoMemory) => NO_MEMORY,
        Err(MakeRefusal::Fault(why)) => {
            *fault = make_place(why);
            REFUSED
        }
    }
}

/// Makes a tracker of the surface of these points and faces, and puts it into the handle, or none. What the handle held is freed first.
pub(crate) fn make(
    alloc: Global,
    points: &[GivenPoint],
    faces: &[GivenFace],
    out: &mut Topo,
    fault: &mut TopoFault,
) -> u32
    ensures { HolderHasMade points.now faces.now out.new.owned.value fault.old fault.new result }
{
    drop(out.take(alloc));
    put_new(alloc, points, faces, out, fault)
}
