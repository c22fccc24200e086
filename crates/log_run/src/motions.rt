//! The motions of which lines tell: what the rule makes of them, and what is found of certificates for them. No line is taken.
ghost use Rattle.std.specs.Prelude.{◌≡◌, ◌↔◌, true, map, IfOk, IsTrue};
ghost use Rattle.grid_base.specs.declared.TheConstants.{BOX};
ghost use Rattle.grid_base.specs.Points.{is_within};
ghost use Rattle.mesh_base.specs.declared.How.{How};
ghost use Rattle.mesh_base.specs.Kept.{BeginsWith};
ghost use Rattle.mesh_base.specs.Shifts.{end_in_box};
ghost use Rattle.mesh_base.specs.Valid.{IsValidSurface};
ghost use Rattle.motion_proof.specs.Acceptance.{IsWay, AreWays};
ghost use Rattle.log_text.specs.declared.LogLine.TheVariants.{Moved, Did};
ghost use Rattle.log_replay.specs.Moves.{end_of};
ghost use Rattle.log_run.specs.Fits.{FitsLater};
ghost use Rattle.log_run.specs.Motions.{way_of, IsCertified, IsJudged};
ghost use Rattle.log_run.specs.Parts.{state_now, Holds};

use crate::edits::redo;
use crate::replay_state::ReplayState;
use edit_base::Change;
use edit_proof::{certify_edit, judge_edit};
use grid_base::{Items, NoMemory, moved};
use log_text::LogLine;
use mesh_base::{ShiftOf, Surface, point_of};
use motion_proof::{Certificate, Claim, Made, Verdict, Way, accepts, certify};
use std::alloc::Global;

// The way of the vertex of a shift, which ends in the box.
fn way_of<S: Surface>(mesh: &S, s: &ShiftOf) -> Way
    requires { is_within BOX (end_of (S.mesh mesh.now) s.now) ≡ true }
    ensures way { result ≡ way_of (S.mesh mesh.now) s.now }
    ensures fits { IsWay result }
{
    let here = point_of(mesh, s.v);
    let Some(there) = moved(here, s.by) else {
        unreachable!()
    };
    Way {
        v: s.v,
        start: here.doubled(),
        end: there.doubled(),
    }
}

// The ways of the vertices of shifts, each of which ends in the box.
fn ways_of<S: Surface>(alloc: Global, mesh: &S, shifts: &[ShiftOf]) -> Result<Items<Way>, NoMemory>
    requires { end_in_box (S.mesh mesh.now) shifts.now ≡ true }
    ensures ways { IfOk result (λ ways. ways ≡ map (way_of (S.mesh mesh.now)) shifts.now) }
    ensures fit { IfOk result (λ ways. AreWays ways) }
{
    let mut ways = Items::new(alloc);
    for s in shifts {
        ways.push(way_of(mesh, s))?;
    }
    Ok(ways)
}

// What the rule makes of the motion of a step that ends, if one is begun.
fn certify_step<S: Surface>(
    alloc: Global,
    mesh: &S,
    at: &ReplayState,
) -> Result<Option<Made>, NoMemory>
    requires { Holds S.beyond (S.mesh mesh.now) (S.kept mesh.now) at.now }
    ensures { (how : How) → let s = state_now (S.mesh mesh.now) (S.kept mesh.now) at.now in
        IfOk result (IsCertified s (Moved how)) }
{
    if !at.begun {
        return Ok(None);
    }
    let ways = ways_of(alloc, mesh, at.step.shifts.as_slice())?;
    match certify(alloc, mesh, ways.as_slice(), Claim::Along) {
        Ok(made) => Ok(Some(made)),
        Err(fault) => Err(fault),
    }
}

// What is found of a certificate for the motion of a step that ends, if one is begun.
fn judge_step<S: Surface>(
    alloc: Global,
    mesh: &S,
    at: &ReplayState,
    proof: &Certificate,
) -> Result<Option<Verdict>, NoMemory>
    requires { Holds S.beyond (S.mesh mesh.now) (S.kept mesh.now) at.now }
    ensures { (how : How) → let s = state_now (S.mesh mesh.now) (S.kept mesh.now) at.now in
        IfOk result (IsJudged s (Moved how) proof.now.claim proof.now.entries) }
{
    if !at.begun {
        return Ok(None);
    }
    if proof.claim != Claim::Along {
        return Ok(Some(Verdict::NoMotion));
    }
    let ways = ways_of(alloc, mesh, at.step.shifts.as_slice())?;
    match accepts(alloc, mesh, ways.as_slice(), proof) {
        Ok(verdict) => Ok(Some(verdict)),
        Err(fault) => Err(fault),
    }
}

// Whether the line of a done edit fits: no step is begun, and the edit, done once more, comes out as told. The mesh is as it was.
fn does_edit_fit<S: Surface>(
    alloc: Global,
    mesh: &mut S,
    at: &ReplayState,
    change: &Change,
) -> Result<bool, NoMemory>
    requires { IsValidSurface (S.mesh mesh.old) }
    ensures fits { let s = state_now (S.mesh mesh.old) (S.kept mesh.old) at.now in
        IfOk result (λ fits. IsTrue fits ↔ FitsLater s (Did change.now)) }
    ensures same { S.mesh mesh.new ≡ S.mesh mesh.old }
    ensures marks { BeginsWith (S.kept mesh.new) (S.kept mesh.old) }
{
    if at.begun {
        return Ok(false);
    }
    mesh.index();
    let mark = mesh.mark()?;
    let told = redo(alloc, mesh, change);
    mesh.back_to(mark);
    told
}

// What the rule makes of the motion of a done edit, if its line fits. The mesh is as it was.
fn certify_change<S: Surface>(
    alloc: Global,
    mesh: &mut S,
    at: &ReplayState,
    change: &Change,
) -> Result<Option<Made>, NoMemory>
    requires { IsValidSurface (S.mesh mesh.old) }
    ensures made { let s = state_now (S.mesh mesh.old) (S.kept mesh.old) at.now in
        IfOk result (IsCertified s (Did change.now)) }
    ensures same { S.mesh mesh.new ≡ S.mesh mesh.old }
    ensures marks { BeginsWith (S.kept mesh.new) (S.kept mesh.old) }
{
    if !does_edit_fit(alloc, mesh, at, change)? {
        return Ok(None);
    }
    certify_edit(alloc, mesh, change)
}

// What is found of a certificate for the motion of a done edit, if its line fits. The mesh is as it was.
fn judge_change<S: Surface>(
    alloc: Global,
    mesh: &mut S,
    at: &ReplayState,
    change: &Change,
    proof: &Certificate,
) -> Result<Option<Verdict>, NoMemory>
    requires { IsValidSurface (S.mesh mesh.old) }
    ensures verdict { let s = state_now (S.mesh mesh.old) (S.kept mesh.old) at.now in
        IfOk result (IsJudged s (Did change.now) proof.now.claim proof.now.entries) }
    ensures same { S.mesh mesh.new ≡ S.mesh mesh.old }
    ensures marks { BeginsWith (S.kept mesh.new) (S.kept mesh.old) }
{
    if !does_edit_fit(alloc, mesh, at, change)? {
        return Ok(None);
    }
    judge_edit(alloc, mesh, change, proof)
}

/// What the rule makes of the motion of a line after others, if it fits and tells of one. The mesh is as it was.
pub(crate) fn certify_line<S: Surface>(
    alloc: Global,
    mesh: &mut S,
    at: &ReplayState,
    line: &LogLine,
) -> Result<Option<Made>, NoMemory>
    requires holds { Holds S.beyond (S.mesh mesh.old) (S.kept mesh.old) at.now }
    requires valid { IsValidSurface (S.mesh mesh.old) }
    ensures made { let s = state_now (S.mesh mesh.old) (S.kept mesh.old) at.now in
        IfOk result (IsCertified s line.now) }
    ensures same { S.mesh mesh.new ≡ S.mesh mesh.old }
    ensures marks { BeginsWith (S.kept mesh.new) (S.kept mesh.old) }
{
    match line {
        LogLine::Moved(_) => certify_step(alloc, mesh, at),
        LogLine::Did(change) => certify_change(alloc, mesh, at, change),
        _ => Ok(None),
    }
}

/// What is found of a certificate for the motion of a line after others, if it fits and tells of one. The mesh is as it was.
pub(crate) fn judge_line<S: Surface>(
    alloc: Global,
    mesh: &mut S,
    at: &ReplayState,
    line: &LogLine,
    proof: &Certificate,
) -> Result<Option<Verdict>, NoMemory>
    requires holds { Holds S.beyond (S.mesh mesh.old) (S.kept mesh.old) at.now }
    requires valid { IsValidSurface (S.mesh mesh.old) }
    ensures verdict { let s = state_now (S.mesh mesh.old) (S.kept mesh.old) at.now in
        IfOk result (IsJudged s line.now proof.now.claim proof.now.entries) }
    ensures same { S.mesh mesh.new ≡ S.mesh mesh.old }
    ensures marks { BeginsWith (S.kept mesh.new) (S.kept mesh.old) }
{
    match line {
        LogLine::Moved(_) => judge_step(alloc, mesh, at, proof),
        LogLine::Did(change) => judge_change(alloc, mesh, at, change, proof),
        _ => Ok(None),
    }
}
