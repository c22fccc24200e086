//! A directive is done with the tracker of a handle.
ghost use Rattle.std.specs.Prelude.{◌≡◌};
ghost use Rattle.mesh_sizing.specs.Sizes.{IsBand};
ghost use Rattle.step_choose.specs.Settings.{AreWithinLimits};
ghost use Rattle.step_text.specs.Ranges.{IsInRange};
ghost use Rattle.step_text.specs.declared.Directive.TheVariants.{Step, Pass, Close};
ghost use Rattle.track_engine.specs.Told.{step_told, pass_told};
ghost use Rattle.track_held.specs.Asking.{AsksNothing};
ghost use Rattle.track_held.specs.Fitting.{always};
ghost use Rattle.track_held.specs.Tables.{by_cells};
ghost use Rattle.topo_library.specs.Codes.{tracker_state, HolderHasDone, HolderHasTold, HolderHasSet, HolderHasRenumbered, HolderHasFitted, HolderHasShifted, HolderHasShiftedAll, HasShiftedEach, HolderHasShiftedEach};
ghost use Rattle.topo_library.specs.Tellings.{way_told, edits_told, closing_of};

use crate::codes::{DONE, EMPTY, RANGE};
use crate::fault::TopoFault;
use crate::handle::Topo;
use crate::results::{TopoEdits, TopoWay};
use crate::tracker::Tracker;
use edit_base::PassKind;
use mesh_sizing::Band;
use std::alloc::Global;
use step_choose::Settings;
use step_text::Directive;
use track_held::{BandTable, NamedPoint, shift_all_directive, shift_directive};

/// Does a directive with the tracker of a handle.
pub(crate) fn advance(
    alloc: Global,
    topo: &mut Topo,
    what: &Directive,
    fault: &mut TopoFault,
) -> u32
    requires range { IsInRange what.now }
    requires asks { AsksNothing what.now }
    ensures { HolderHasDone what.now topo.old.owned.value topo.new.owned.value
        fault.old fault.new result }
{
    let Some(mut b) = topo.take(alloc) else {
        return EMPTY;
    };
    let code = b.advance(alloc, what, fault);
    topo.give(b);
    code
}

/// Adds a shift to what is asked of a vertex.
pub(crate) fn shift_one(
    alloc: Global,
    topo: &mut Topo,
    row: &NamedPoint,
    fault: &mut TopoFault,
) -> u32
    ensures { HolderHasShifted row.now topo.old.owned.value topo.new.owned.value
        fault.old fault.new result }
{
    match shift_directive(row) {
        Some(what) => advance(alloc, topo, &what, fault),
        None => RANGE,
    }
}

// Adds each shift to what is asked of its vertex, up to the first that cannot be asked or is refused.
fn shift_all(
    alloc: Global,
    tracker: &mut Tracker,
    rows: &[NamedPoint],
    fault: &mut TopoFault,
) -> u32
    ensures { HasShiftedEach rows.now tracker.old tracker.new fault.old fault.new result }
{
    for row in rows {
        let Some(what) = shift_directive(row) else {
            return RANGE;
        };
        let code = tracker.advance(alloc, &what, fault);
        if code != DONE {
            return code;
        }
    }
    DONE
}

/// The same with the tracker of a handle.
pub(crate) fn shift_each(
    alloc: Global,
    topo: &mut Topo,
    rows: &[NamedPoint],
    fault: &mut TopoFault,
) -> u32
    ensures { HolderHasShiftedEach rows.now topo.old.owned.value topo.new.owned.value
        fault.old fault.new result }
{
    let Some(mut b) = topo.take(alloc) else {
        return EMPTY;
    };
    let code = shift_all(alloc, b.as_mut(), rows, fault);
    topo.give(b);
    code
}

/// Adds a shift to what is asked of each vertex.
pub(crate) fn shift_every(
    alloc: Global,
    topo: &mut Topo,
    row: &NamedPoint,
    fault: &mut TopoFault,
) -> u32
    ensures { HolderHasShiftedAll row.now topo.old.owned.value topo.new.owned.value
        fault.old fault.new result }
{
    match shift_all_directive(row) {
        Some(what) => advance(alloc, topo, &what, fault),
        None => RANGE,
    }
}

/// Takes a step with the tracker of a handle, and tells how.
pub(crate) fn step(alloc: Global, topo: &mut Topo, way: &mut TopoWay, fault: &mut TopoFault) -> u32
    ensures does { HolderHasDone Step topo.old.owned.value topo.new.owned.value
        fault.old fault.new result }
    ensures tells { HolderHasTold (λ t. way_told (step_told (tracker_state t))) topo.old.owned.value
        way.old way.new result }
{
    let Some(mut b) = topo.take(alloc) else {
        return EMPTY;
    };
    let code = b.step(alloc, way, fault);
    topo.give(b);
    code
}

/// Makes a pass with the tracker of a handle, and tells how many edits it did and how many were refused.
pub(crate) fn pass_with(
    alloc: Global,
    topo: &mut Topo,
    kind: PassKind,
    edits: &mut TopoEdits,
    fault: &mut TopoFault,
) -> u32
    ensures does { HolderHasDone (Pass kind) topo.old.owned.value topo.new.owned.value
        fault.old fault.new result }
    ensures tells { HolderHasTold (λ t. edits_told (pass_told kind (tracker_state t)))
        topo.old.owned.value edits.old edits.new result }
{
    let Some(mut b) = topo.take(alloc) else {
        return EMPTY;
    };
    let code = b.pass(alloc, kind, edits, fault);
    topo.give(b);
    code
}

/// Closes a group with the tracker of a handle, and tells what became of it.
pub(crate) fn close(alloc: Global, topo: &mut Topo, kept: &mut u32, fault: &mut TopoFault) -> u32
    ensures does { HolderHasDone Close topo.old.owned.value topo.new.owned.value
        fault.old fault.new result }
    ensures tells { HolderHasTold (λ t. closing_of (tracker_state t).groups) topo.old.owned.value
        kept.old kept.new result }
{
    let Some(mut b) = topo.take(alloc) else {
        return EMPTY;
    };
    let code = b.close(alloc, kept, fault);
    topo.give(b);
    code
}

/// Sets all settings of the tracker of a handle.
pub(crate) fn set(alloc: Global, topo: &mut Topo, set: Settings) -> u32
    requires { AreWithinLimits set }
    ensures { HolderHasSet set topo.old.owned.value topo.new.owned.value result }
{
    let Some(mut b) = topo.take(alloc) else {
        return EMPTY;
    };
    let code = b.set(set);
    topo.give(b);
    code
}

/// Numbers vertices and faces of the tracker of a handle anew.
pub(crate) fn renumber(alloc: Global, topo: &mut Topo) -> u32
    ensures { HolderHasRenumbered topo.old.owned.value topo.new.owned.value result }
{
    let Some(mut b) = topo.take(alloc) else {
        return EMPTY;
    };
    let code = b.renumber(alloc);
    topo.give(b);
    code
}

/// Makes a pass by a band of lengths with the tracker of a handle, and tells how many edits it did and how many were refused.
pub(crate) fn fit(alloc: Global, topo: &mut Topo, band: Band, edits: &mut TopoEdits) -> u32
    requires { IsBand band }
    ensures { HolderHasFitted (always band) topo.old.owned.value topo.new.owned.value
        edits.old edits.new result }
{
    let Some(mut b) = topo.take(alloc) else {
        return EMPTY;
    };
    let code = b.fit(alloc, band, edits);
    topo.give(b);
    code
}

/// Makes a pass by a table of bands with the tracker of a handle, and tells the same.
pub(crate) fn fit_by(
    alloc: Global,
    topo: &mut Topo,
    table: &BandTable<'_>,
    edits: &mut TopoEdits,
) -> u32
    ensures { HolderHasFitted (by_cells table.now.cells table.now.bands.now)
        topo.old.owned.value topo.new.owned.value edits.old edits.new result }
{
    let Some(mut b) = topo.take(alloc) else {
        return EMPTY;
    };
    let code = b.fit_by(alloc, table, edits);
    topo.give(b);
    code
}
