//! A log is begun, a mesh is saved in it, and it is ended, with the tracker of a handle.
ghost use Rattle.step_text.specs.declared.Directive.TheVariants.{Save};
ghost use Rattle.track_engine.specs.Answers.{Nothing};
ghost use Rattle.track_engine.specs.Effects.{effect_of};
ghost use Rattle.topo_library.specs.Codes.{tracker_state, HolderHasWritten, HolderHasTold};
ghost use Rattle.topo_library.specs.Logged.{HolderHasBegunLog, HolderHasEndedLog};

use crate::codes::EMPTY;
use crate::handle::Topo;
use std::alloc::Global;

/// Begins a log with the tracker of a handle.
pub(crate) fn begin_log(alloc: Global, topo: &mut Topo) -> u32
    ensures { HolderHasBegunLog topo.old.owned.value topo.new.owned.value result }
{
    let Some(mut b) = topo.take(alloc) else {
        return EMPTY;
    };
    let code = b.begin_log(alloc);
    topo.give(b);
    code
}

/// Saves the mesh of the tracker of a handle, as far as its line goes, and tells its number.
pub(crate) fn save(alloc: Global, topo: &mut Topo, number: &mut u32) -> u32
    ensures does { HolderHasWritten (effect_of Nothing Save)
        topo.old.owned.value topo.new.owned.value result }
    ensures tells { HolderHasTold (λ t. (tracker_state t).saved) topo.old.owned.value
        number.old number.new result }
{
    let Some(mut b) = topo.take(alloc) else {
        return EMPTY;
    };
    let code = b.save(alloc, number);
    topo.give(b);
    code
}

/// Ends a log with the tracker of a handle.
pub(crate) fn end_log(alloc: Global, topo: &mut Topo) -> u32
    ensures { HolderHasEndedLog topo.old.owned.value topo.new.owned.value result }
{
    let Some(mut b) = topo.take(alloc) else {
        return EMPTY;
    };
    let code = b.end_log(alloc);
    topo.give(b);
    code
}
