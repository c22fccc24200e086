//! Edits are asked of the tracker of a handle, or its group is taken back.
ghost use Rattle.std.specs.Prelude.{◌≡◌, ◌≤◌, length};
ghost use Rattle.track_engine.specs.Effects.{edits_effect, undo_effect};
ghost use Rattle.topo_library.specs.Codes.{tracker_state, HasWritten, HasAnswered, HasEdited, HolderHasEdited, HolderHasWritten, HolderHasTold};
ghost use Rattle.topo_library.specs.Tellings.{undone_of};

use crate::codes::{DONE, EMPTY, NO_MEMORY, RANGE};
use crate::handle::Topo;
use crate::tracker::Tracker;
use pass_run::Answers;
use std::alloc::Global;
use track_held::{AskedEdits, GivenEdit, ToldAnswer, edits_asked, put_answers};

// Asks edits of a tracker, of which there is room for as many answers.
fn ask(
    alloc: Global,
    tracker: &mut Tracker,
    asked: &AskedEdits,
    into: &mut [ToldAnswer],
    taken: &mut usize,
) -> u32
    requires { length asked.now ≤ length into.old }
    ensures writes { HasWritten (edits_effect asked.now (tracker_state tracker.old))
        tracker.old tracker.new result }
    ensures answers { HasAnswered asked.now tracker.old
        into.old into.new taken.old taken.new result }
{
    let mut answers = Answers::new(alloc);
    let code = tracker.edits(alloc, asked.as_slice(), &mut answers);
    if code == DONE {
        put_answers(answers.as_slice(), into);
        *taken = answers.len();
    }
    code
}

// Asks the edits of rows of a tracker.
fn ask_rows(
    alloc: Global,
    tracker: &mut Tracker,
    rows: &[GivenEdit],
    into: &mut [ToldAnswer],
    taken: &mut usize,
) -> u32
    ensures { HasEdited rows.now tracker.old tracker.new
        into.old into.new taken.old taken.new result }
{
    if into.len() < rows.len() {
        return RANGE;
    }
    match edits_asked(alloc, rows) {
        Err(_) => NO_MEMORY,
        Ok(None) => RANGE,
        Ok(Some(asked)) => ask(alloc, tracker, &asked, into, taken),
    }
}

/// Asks edits of the tracker of a handle, and tells what came of each.
pub(crate) fn edit_each(
    alloc: Global,
    topo: &mut Topo,
    rows: &[GivenEdit],
    into: &mut [ToldAnswer],
    taken: &mut usize,
) -> u32
    ensures { HolderHasEdited rows.now topo.old.owned.value topo.new.owned.value
        into.old into.new taken.old taken.new result }
{
    let Some(mut b) = topo.take(alloc) else {
        return EMPTY;
    };
    let code = ask_rows(alloc, b.as_mut(), rows, into, taken);
    topo.give(b);
    code
}

/// Takes the group of a handle's tracker back that was opened last, and tells whether one was open.
pub(crate) fn undo(alloc: Global, topo: &mut Topo, became: &mut u32) -> u32
    ensures does { HolderHasWritten (λ s. undo_effect s.groups s)
        topo.old.owned.value topo.new.owned.value result }
    ensures tells { HolderHasTold (λ t. undone_of (tracker_state t).groups) topo.old.owned.value
        became.old became.new result }
{
    let Some(mut b) = topo.take(alloc) else {
        return EMPTY;
    };
    let code = b.undo(alloc, became);
    topo.give(b);
    code
}
