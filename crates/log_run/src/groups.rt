//! The lines of groups.
ghost use Rattle.std.specs.Prelude.{Ok};
ghost use Rattle.log_text.specs.declared.LogLine.TheVariants.{Group, Close};
ghost use Rattle.log_run.specs.Parts.{Holds, Takes};

use crate::replay_state::ReplayState;
use grid_base::NoMemory;
use mesh_base::Surface;
use step_text::GROUPS_MAX;

/// Takes the line of a group that is opened.
pub(crate) fn open_group<S: Surface>(mesh: &mut S, at: &mut ReplayState) -> Result<bool, NoMemory>
    requires { Holds S.beyond (S.mesh mesh.old) (S.kept mesh.old) at.old }
    ensures { Takes S.beyond Group
        (S.mesh mesh.old) (S.kept mesh.old) at.old
        (S.mesh mesh.new) (S.kept mesh.new) at.new result }
{
    if at.begun {
        return Ok(false);
    }
    if at.marks.len() >= GROUPS_MAX {
        return Ok(false);
    }
    let Ok(mark) = mesh.mark() else {
        return Err(NoMemory);
    };
    let Ok(()) = at.marks.open(mark) else {
        return Err(NoMemory);
    };
    Ok(true)
}

/// Takes the line of a group that is closed: kept, or taken back. Takes no memory.
pub(crate) fn close_group<S: Surface>(mesh: &mut S, at: &mut ReplayState, kept: bool) -> bool
    requires { Holds S.beyond (S.mesh mesh.old) (S.kept mesh.old) at.old }
    ensures { Takes S.beyond (Close kept)
        (S.mesh mesh.old) (S.kept mesh.old) at.old
        (S.mesh mesh.new) (S.kept mesh.new) at.new (Ok result) }
{
    if at.begun {
        return false;
    }
    let Some(mark) = at.marks.close() else {
        return false;
    };
    if !kept {
        mesh.back_to(mark);
    }
    true
}
