//! Rounds of collapses over the edges of some vertices.
ghost use Rattle.std.specs.Prelude.{◌≡◌, ◌≤◌, ◌++◌, slice_get, IfOk, OnOk};
ghost use Rattle.grid_base.specs.declared.TheConstants.{DEPTH_MAX};
ghost use Rattle.mesh_base.specs.Sides.{IsClosed};
ghost use Rattle.mesh_base.specs.Placements.{IsClearMesh};
ghost use Rattle.mesh_base.specs.Kept.{BeginsWith};
ghost use Rattle.edit_drop.specs.Drop.{answer_at, after_one, if_done, after_each, done_of, after_round, done_in_round, does_some, after_rounds, done_in_rounds, why_in, first_why, why_left};

use crate::collapses::{AskedEdits, any_live, collapses_among};
use edit_any::edit;
use edit_base::{Asked, Edit, Why};
use grid_base::{DEPTH_MAX, NoMemory};
use mesh_base::Surface;
use std::alloc::Global;

// Puts an edit at the end of a list, if it is done.
fn put_if_done(done: &mut AskedEdits, what: &Asked, answer: &Edit) -> Result<(), NoMemory>
    ensures { OnOk result (done.new ≡ done.old ++ if_done what.now answer.now) }
{
    match answer {
        Edit::Done(_change) => done.push(*what),
        Edit::No(_why) => Ok(()),
    }
}

// Tries an edit, which is put at the end of the list where it is done.
fn try_one<S: Surface>(
    alloc: Global,
    mesh: &mut S,
    depth: u8,
    what: &Asked,
    done: &mut AskedEdits,
) -> Result<(), NoMemory>
    requires closed { IsClosed (S.mesh mesh.old) }
    requires clear { IsClearMesh (S.mesh mesh.old) }
    requires depth { depth ≤ DEPTH_MAX }
    ensures mesh { OnOk result (S.mesh mesh.new ≡ after_one depth (S.mesh mesh.old) what.now) }
    ensures done { let answer = answer_at depth (S.mesh mesh.old) what.now in
        OnOk result (done.new ≡ done.old ++ if_done what.now answer) }
    ensures closed { IsClosed (S.mesh mesh.new) }
    ensures clear { IsClearMesh (S.mesh mesh.new) }
    ensures marks { BeginsWith (S.kept mesh.new) (S.kept mesh.old) }
{
    mesh.index();
    let answer = edit(alloc, mesh, depth, *what)?;
    put_if_done(done, what, &answer)
}

// Tries edits, one after another.
fn try_each<S: Surface>(
    alloc: Global,
    mesh: &mut S,
    depth: u8,
    asked: &[Asked],
    done: &mut AskedEdits,
) -> Result<(), NoMemory>
    requires closed { IsClosed (S.mesh mesh.old) }
    requires clear { IsClearMesh (S.mesh mesh.old) }
    requires depth { depth ≤ DEPTH_MAX }
    ensures mesh { OnOk result (S.mesh mesh.new ≡ after_each depth (S.mesh mesh.old) asked.now) }
    ensures done { let more = done_of depth (S.mesh mesh.old) asked.now in
        OnOk result (done.new ≡ done.old ++ more) }
    ensures closed { IsClosed (S.mesh mesh.new) }
    ensures clear { IsClearMesh (S.mesh mesh.new) }
    ensures marks { BeginsWith (S.kept mesh.new) (S.kept mesh.old) }
{
    for what in asked {
        try_one(alloc, mesh, depth, what, done)?;
    }
    Ok(())
}

// Tries the collapse of each edge that leads from one of these vertices to one above it, and tells whether one is done.
fn try_round<S: Surface>(
    alloc: Global,
    mesh: &mut S,
    depth: u8,
    vs: &[u32],
    done: &mut AskedEdits,
) -> Result<bool, NoMemory>
    requires closed { IsClosed (S.mesh mesh.old) }
    requires clear { IsClearMesh (S.mesh mesh.old) }
    requires depth { depth ≤ DEPTH_MAX }
    ensures mesh { OnOk result (S.mesh mesh.new ≡ after_round depth vs.now (S.mesh mesh.old)) }
    ensures done { let more = done_in_round depth vs.now (S.mesh mesh.old) in
        OnOk result (done.new ≡ done.old ++ more) }
    ensures some { IfOk result (λ some. some ≡ does_some depth vs.now (S.mesh mesh.old)) }
    ensures closed { IsClosed (S.mesh mesh.new) }
    ensures clear { IsClearMesh (S.mesh mesh.new) }
    ensures marks { BeginsWith (S.kept mesh.new) (S.kept mesh.old) }
{
    let asked = collapses_among(alloc, mesh, vs)?;
    let before = done.len();
    try_each(alloc, mesh, depth, asked.as_slice(), done)?;
    Ok(done.len() > before)
}

/// Rounds follow each other until one does nothing, and no more than there are vertices.
pub(crate) fn try_rounds<S: Surface>(
    alloc: Global,
    mesh: &mut S,
    depth: u8,
    vs: &[u32],
    done: &mut AskedEdits,
) -> Result<(), NoMemory>
    requires closed { IsClosed (S.mesh mesh.old) }
    requires clear { IsClearMesh (S.mesh mesh.old) }
    requires depth { depth ≤ DEPTH_MAX }
    ensures mesh { let end = after_rounds vs.now depth vs.now (S.mesh mesh.old) in
        OnOk result (S.mesh mesh.new ≡ end) }
    ensures done { let more = done_in_rounds vs.now depth vs.now (S.mesh mesh.old) in
        OnOk result (done.new ≡ done.old ++ more) }
    ensures closed { IsClosed (S.mesh mesh.new) }
    ensures clear { IsClearMesh (S.mesh mesh.new) }
    ensures marks { BeginsWith (S.kept mesh.new) (S.kept mesh.old) }
{
    for _turn in vs {
        let some = try_round(alloc, mesh, depth, vs, done)?;
        if !some {
            return Ok(());
        }
    }
    Ok(())
}

// The first of some edits.
fn first_of(asked: &[Asked]) -> Option<Asked>
    ensures { result ≡ slice_get asked.now 0 }
{
    match asked.first() {
        Some(what) => Some(*what),
        None => None,
    }
}

// The reason that an answer has.
fn why_in(answer: Edit) -> Why
    ensures { result ≡ why_in answer }
{
    match answer {
        Edit::Done(_change) => Why::NoEdge,
        Edit::No(why) => why,
    }
}

// The reason against the first of some edits.
fn first_why<S: Surface>(
    alloc: Global,
    mesh: &mut S,
    depth: u8,
    asked: &[Asked],
) -> Result<Why, NoMemory>
    requires closed { IsClosed (S.mesh mesh.old) }
    requires clear { IsClearMesh (S.mesh mesh.old) }
    requires depth { depth ≤ DEPTH_MAX }
    ensures why { IfOk result (λ why. why ≡ first_why depth (S.mesh mesh.old) asked.now) }
    ensures marks { BeginsWith (S.kept mesh.new) (S.kept mesh.old) }
{
    let Some(what) = first_of(asked) else {
        return Ok(Why::NoEdge);
    };
    let answer = edit(alloc, mesh, depth, what)?;
    Ok(why_in(answer))
}

/// The reason against the first collapse that is left, where one of the vertices lives.
pub(crate) fn why_left<S: Surface>(
    alloc: Global,
    mesh: &mut S,
    depth: u8,
    vs: &[u32],
) -> Result<Option<Why>, NoMemory>
    requires closed { IsClosed (S.mesh mesh.old) }
    requires clear { IsClearMesh (S.mesh mesh.old) }
    requires depth { depth ≤ DEPTH_MAX }
    ensures why { IfOk result (λ why. why ≡ why_left depth vs.now (S.mesh mesh.old)) }
    ensures marks { BeginsWith (S.kept mesh.new) (S.kept mesh.old) }
{
    if !any_live(mesh, vs) {
        return Ok(None);
    }
    let asked = collapses_among(alloc, mesh, vs)?;
    let why = first_why(alloc, mesh, depth, asked.as_slice())?;
    Ok(Some(why))
}
