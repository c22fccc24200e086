//! One line that is taken.
ghost use Rattle.std.specs.Prelude.{◌≡◌, ◌↔◌, ℕ, true, false, Ok, IfOk, IsTrue};
ghost use Rattle.std.specs.FinMap as map;
ghost use Rattle.mesh_journal.specs.Journal.{mesh_in, kept_in};
ghost use Rattle.log_text.specs.declared.LogLine.TheVariants.{Solid};
ghost use Rattle.log_run.specs.States.{with_line};
ghost use Rattle.log_run.specs.Fits.{FitsFirst, LineFits, MayBeTried};
ghost use Rattle.log_run.specs.Parts.{state_now, state_of, Holds, Takes};

use crate::edits::take_edit;
use crate::groups::{close_group, open_group};
use crate::new_ids::{take_faces, take_vertices};
use crate::replay_state::ReplayState;
use crate::settlement::settle_if_none;
use crate::step_lines::{begin_step, end_step, take_move};
use grid_base::NoMemory;
use log_text::LogLine;
use mesh_base::{Surface, VertexId};
use mesh_journal::JournalMesh;
use std::alloc::Global;

// Whether the mesh has so many vertices and faces, and no step is begun.
fn has_counts<S: Surface>(mesh: &S, at: &ReplayState, vertices: u32, faces: u32) -> bool
    ensures { IsTrue result ↔ ((at.now.begun ≡ false)
        × (vertices ≡ map.len (S.mesh mesh.now).points)
        × (faces ≡ map.len (S.mesh mesh.now).faces)) }
{
    !at.begun && mesh.vertices() == vertices && mesh.faces() == faces
}

// Takes the line of a vertex that is solid from here on.
fn take_solid<S: Surface>(mesh: &mut S, at: &ReplayState, v: VertexId) -> Result<bool, NoMemory>
    requires { Holds S.beyond (S.mesh mesh.old) (S.kept mesh.old) at.now }
    ensures { Takes S.beyond (Solid v)
        (S.mesh mesh.old) (S.kept mesh.old) at.now
        (S.mesh mesh.new) (S.kept mesh.new) at.now result }
{
    if at.begun {
        return Ok(false);
    }
    if mesh.point(v).is_none() {
        return Ok(false);
    }
    settle_if_none(mesh, &at.marks);
    let Ok(()) = mesh.make_solid(v) else {
        return Err(NoMemory);
    };
    Ok(true)
}

// Takes a line after others, where it fits.
fn take_later(
    alloc: Global,
    mesh: &mut JournalMesh,
    at: &mut ReplayState,
    line: &LogLine,
) -> Result<bool, NoMemory>
    requires holds { Holds 1 (mesh_in mesh.old) (kept_in mesh.old) at.old }
    requires tried { MayBeTried (mesh_in mesh.old) line.now }
    ensures takes { Takes 1 line.now
        (mesh_in mesh.old) (kept_in mesh.old) at.old
        (mesh_in mesh.new) (kept_in mesh.new) at.new result }
    ensures left { MayBeTried (mesh_in mesh.new) line.now }
{
    match line {
        LogLine::First { .. } => Ok(false),
        LogLine::Mesh {
            vertices,
            faces,
            ..
        } => Ok(has_counts(mesh, at, *vertices, *faces)),
        LogLine::Step { .. } => begin_step(alloc, mesh, at),
        LogLine::Vertices(new) => take_vertices(alloc, mesh, at, new),
        LogLine::Faces(new) => take_faces(alloc, mesh, at, new),
        LogLine::Solid { v } => take_solid(mesh, at, *v),
        LogLine::Move(s) => take_move(mesh, at, s),
        LogLine::Moved(_) => end_step(alloc, mesh, at),
        LogLine::Did(change) => take_edit(alloc, mesh, at, change),
        LogLine::Group => open_group(mesh, at),
        LogLine::Close { kept } => Ok(close_group(mesh, at, *kept)),
        LogLine::Hit(_) => Ok(true),
        LogLine::Block(_) => Ok(true),
        LogLine::Pass(_) => Ok(true),
        LogLine::PassFit => Ok(true),
        LogLine::No { .. } => Ok(true),
        LogLine::Refused(_) => Ok(true),
        LogLine::End => Ok(true),
    }
}

// Whether it is the line with the version of a log.
fn is_first(line: &LogLine) -> bool
    ensures { IsTrue result ↔ FitsFirst line.now }
{
    match line {
        LogLine::First { .. } => true,
        _ => false,
    }
}

/// Takes a line, where it fits the lines before it; `taken` says whether there are any.
pub(crate) fn take_line(
    alloc: Global,
    mesh: &mut JournalMesh,
    at: &mut ReplayState,
    taken: bool,
    line: &LogLine,
) -> Result<bool, NoMemory>
    requires holds { Holds 1 (mesh_in mesh.old) (kept_in mesh.old) at.old }
    requires tried { MayBeTried (mesh_in mesh.old) line.now }
    ensures fits { let from = state_of (mesh_in mesh.old) (kept_in mesh.old) at.old taken false in
        IfOk result (λ fits. IsTrue fits ↔ LineFits from line.now) }
    ensures made { result ≡ Ok true → state_now (mesh_in mesh.new) (kept_in mesh.new) at.new
        ≡ with_line (state_now (mesh_in mesh.old) (kept_in mesh.old) at.old) line.now }
    ensures holds { result ≡ Ok true → Holds 1 (mesh_in mesh.new) (kept_in mesh.new) at.new }
    ensures left { MayBeTried (mesh_in mesh.new) line.now }
{
    if taken {
        take_later(alloc, mesh, at, line)
    } else {
        Ok(is_first(line))
    }
}
