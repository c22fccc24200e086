//! A tracker of vertices and faces with their ids is made, and put into a handle.
ghost use Rattle.std.specs.Prelude.{◌≡◌, None};
ghost use Rattle.track_held.specs.Numbered.{given_rows};
ghost use Rattle.topo_library.specs.Codes.{HolderHasMadeNumbered};

use crate::codes::{DONE, NO_MEMORY, REFUSED};
use crate::fault::{TopoFault, numbered_place};
use crate::handle::Topo;
use crate::tracker::Tracker;
use std::alloc::Global;
use track_held::{NamedFace, NamedPoint, NumberedRefusal, track_numbered};

/// All that a caller gives: vertices and faces with their ids, the ids of the solid vertices, and the next ids.
#[derive(Clone, Copy)]
pub(crate) struct NumberedRows<'a> {
    pub points: &'a [NamedPoint],
    pub faces: &'a [NamedFace],
    pub solids: &'a [u32],
    pub next_vertex: u32,
    pub next_face: u32,
}

// Makes a tracker of these, and puts it into a handle that holds none.
fn put_numbered(
    alloc: Global,
    given: &NumberedRows<'_>,
    out: &mut Topo,
    fault: &mut TopoFault,
) -> u32
    requires { out.old.owned.value ≡ None }
    ensures { let rows = given_rows given.now.points.now given.now.faces.now given.now.solids.now
        given.now.next_vertex given.now.next_face in
        HolderHasMadeNumbered given.now.points.now rows
        out.new.owned.value fault.old fault.new result }
{
    let next_vertex = given.next_vertex;
    let next_face = given.next_face;
    match track_numbered(
        alloc,
        given.points,
        given.faces,
        given.solids,
        next_vertex,
        next_face,
    ) {
        Ok(held) => match Box::new(alloc, Tracker { held }) {
            Ok(b) => {
                out.give(b);
                DONE
            }
            Err(_) => NO_MEMORY,
        },
        Err(NumberedRefusal::NoMemory) => NO_MEMORY,
        Err(NumberedRefusal::Fault(why)) => {
            *fault = numbered_place(why);
            REFUSED
        }
    }
}

/// Makes a tracker of these, and puts it into the handle, or none. What the handle held is freed first.
pub(crate) fn make_numbered(
    alloc: Global,
    given: &NumberedRows<'_>,
    out: &mut Topo,
    fault: &mut TopoFault,
) -> u32
    ensures { let rows = given_rows given.now.points.now given.now.faces.now given.now.solids.now
        given.now.next_vertex given.now.next_face in
        HolderHasMadeNumbered given.now.points.now rows
        out.new.owned.value fault.old fault.new result }
{
    drop(out.take(alloc));
    put_numbered(alloc, given, out, fault)
}
