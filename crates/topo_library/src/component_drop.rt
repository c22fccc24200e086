//! A component is dropped by the tracker of a handle.
ghost use Rattle.track_held.specs.Dropping.{drop_effect, drop_told};
ghost use Rattle.topo_library.specs.Codes.{tracker_state, HasWritten, HasTold, HolderHasWritten, HolderHasTold};

use crate::codes::{DONE, EMPTY, NO_MEMORY, SPENT, STOPPED};
use crate::handle::Topo;
use crate::tracker::Tracker;
use mesh_base::VertexId;
use std::alloc::Global;
use track_held::ToldAnswer;

// Drops a component with a tracker, and tells what came of it.
fn drop_with(alloc: Global, tracker: &mut Tracker, v: VertexId, answer: &mut ToldAnswer) -> u32
    ensures writes { HasWritten (drop_effect v (tracker_state tracker.old))
        tracker.old tracker.new result }
    ensures tells { HasTold (λ t. drop_told v (tracker_state t)) tracker.old
        answer.old answer.new result }
{
    if !tracker.held.goes_on() {
        return STOPPED;
    }
    if !tracker.held.has_room() {
        return SPENT;
    }
    match tracker.held.drop_component(alloc, v) {
        Ok(told) => {
            *answer = told;
            DONE
        }
        Err(_) => NO_MEMORY,
    }
}

/// Drops the component of a vertex of the tracker of a handle, and tells what came of it.
pub(crate) fn drop_component(
    alloc: Global,
    topo: &mut Topo,
    v: VertexId,
    answer: &mut ToldAnswer,
) -> u32
    ensures does { HolderHasWritten (drop_effect v)
        topo.old.owned.value topo.new.owned.value result }
    ensures tells { HolderHasTold (λ t. drop_told v (tracker_state t)) topo.old.owned.value
        answer.old answer.new result }
{
    let Some(mut tracker) = topo.take(alloc) else {
        return EMPTY;
    };
    let code = drop_with(alloc, tracker.as_mut(), v, answer);
    topo.give(tracker);
    code
}
