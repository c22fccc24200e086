//! A fold is closed by the tracker of a handle.
ghost use Rattle.std.specs.Prelude.{◌≡◌, Some, None, MatchOption};
ghost use Rattle.track_held.specs.Editing.{ends};
ghost use Rattle.track_held.specs.Folding.{fold_effect, fold_told};
ghost use Rattle.topo_library.specs.Codes.{tracker_state, HasWritten, HasTold};
ghost use Rattle.topo_library.specs.Folded.{HolderHasClosedFold};

use crate::codes::{DONE, EMPTY, NO_MEMORY, RANGE, SPENT, STOPPED};
use crate::handle::Topo;
use crate::tracker::Tracker;
use mesh_base::VertexId;
use std::alloc::Global;
use track_held::{ToldAnswer, edge_ends};

// Closes a fold with a tracker, and tells what came of it.
fn close_with(
    alloc: Global,
    tracker: &mut Tracker,
    a: VertexId,
    b: VertexId,
    answer: &mut ToldAnswer,
) -> u32
    ensures writes { HasWritten (fold_effect a b (tracker_state tracker.old))
        tracker.old tracker.new result }
    ensures tells { HasTold (λ t. fold_told a b (tracker_state t)) tracker.old
        answer.old answer.new result }
{
    if !tracker.held.goes_on() {
        return STOPPED;
    }
    if !tracker.held.has_room() {
        return SPENT;
    }
    match tracker.held.close_fold(alloc, a, b) {
        Ok(told) => {
            *answer = told;
            DONE
        }
        Err(_) => NO_MEMORY,
    }
}

/// Closes the fold at an edge of the tracker of a handle, and tells what came of it.
pub(crate) fn close_fold(
    alloc: Global,
    topo: &mut Topo,
    a: u32,
    b: u32,
    answer: &mut ToldAnswer,
) -> u32
    ensures { HolderHasClosedFold (ends a b) topo.old.owned.value topo.new.owned.value
        answer.old answer.new result }
{
    let Some((first, second)) = edge_ends(a, b) else {
        return RANGE;
    };
    let Some(mut tracker) = topo.take(alloc) else {
        return EMPTY;
    };
    let code = close_with(
        alloc,
        tracker.as_mut(),
        VertexId(first),
        VertexId(second),
        answer,
    );
    topo.give(tracker);
    code
}
