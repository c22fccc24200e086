//! The turns of a zip, tried one after another.
ghost use Rattle.std.specs.Prelude.{◌≡◌, ◌≤◌, ◌==◌, true, not, IfOk, IsNone};
ghost use Rattle.std.specs.Option.{option_map};
ghost use Rattle.grid_decided.specs.Decided.{meets_exactly};
ghost use Rattle.mesh_base.specs.Sides.{IsClosed};
ghost use Rattle.mesh_base.specs.Placements.{IsClearMesh};
ghost use Rattle.mesh_base.specs.Kept.{BeginsWith};
ghost use Rattle.edit_base.specs.declared.answers.Why.TheVariants.{Doubled, Hit};
ghost use Rattle.edit_base.specs.Edges.{doubles_a_face};
ghost use Rattle.edit_zip.specs.Zip.{zip_mesh, turn_reason, turns, tried, turns_of_rank};
ghost use Rattle.edit_zip.specs.Ready.{MayBeTried};
ghost use Rattle.edit_zip.specs.Trying.{after_turns, left_by_turn, left_by_turns};
ghost use Rattle.edit_zip.specs.Trying.{KeepsUnlessTaken, KeepsWhereNoneIsTaken};
ghost use Rattle.edit_base.specs.Clauses.{OnOkIs};

use crate::new_faces::make_unless_doubled;
use crate::tunnel::tunnel;
use crate::turns::rank;
use edit_base::{EdgeFaces, Why};
use edit_check::check_still;
use grid_base::NoMemory;
use mesh_base::{PairName, Surface};
use std::alloc::Global;

/// What came of turns that were tried.
#[derive(Clone, Copy)]
pub(crate) enum Attempt {
    /// This turn is taken.
    Taken(u8),
    /// None is, and what is wrong with the last.
    Failed(Why),
}

/// Drops the four faces at the two edges, and makes the eight of a turn, unless it doubles a face. Says whether all is made.
/// Where it is not, or memory is wanting, some of it may be.
fn put_turn<S: Surface>(
    mesh: &mut S,
    s: &EdgeFaces,
    t: &EdgeFaces,
    turn: u8,
) -> Result<bool, NoMemory>
    requires closed { IsClosed (S.mesh mesh.old) }
    requires tried { MayBeTried (S.mesh mesh.old) s.now t.now }
    requires turn { turn ≤ 3 }
    ensures doubled { let zipped = zip_mesh (S.mesh mesh.old) s.now t.now turn in
        IfOk result (λ all. not all ≡ doubles_a_face zipped) }
    ensures made { let zipped = zip_mesh (S.mesh mesh.old) s.now t.now turn in
        IfOk result (λ all. all ≡ true → S.mesh mesh.new ≡ zipped) }
    ensures marks { BeginsWith (S.kept mesh.new) (S.kept mesh.old) }
{
    mesh.drop_face(s.left_face)?;
    mesh.drop_face(s.right_face)?;
    mesh.drop_face(t.left_face)?;
    mesh.drop_face(t.right_face)?;
    make_unless_doubled(mesh, &tunnel(s, t, turn))
}

fn hit(found: Option<PairName>) -> Option<Why>
    ensures { result ≡ option_map (λ p. Hit p) found }
{
    found.map(|p| Why::Hit(p))
}

/// Makes the changes of a turn, and says what is wrong with it. Where something is, or memory is wanting, some of them may be
/// made.
fn put_and_check<S: Surface>(
    alloc: Global,
    mesh: &mut S,
    s: &EdgeFaces,
    t: &EdgeFaces,
    turn: u8,
) -> Result<Option<Why>, NoMemory>
    requires closed { IsClosed (S.mesh mesh.old) }
    requires clear { IsClearMesh (S.mesh mesh.old) }
    requires tried { MayBeTried (S.mesh mesh.old) s.now t.now }
    requires turn { turn ≤ 3 }
    ensures reason { OnOkIs result (turn_reason meets_exactly (S.mesh mesh.old) s.now t.now turn) }
    ensures made { let zipped = zip_mesh (S.mesh mesh.old) s.now t.now turn in
        IfOk result (λ why. IsNone why → S.mesh mesh.new ≡ zipped) }
    ensures marks { BeginsWith (S.kept mesh.new) (S.kept mesh.old) }
{
    let fresh_from = mesh.next_face();
    if put_turn(mesh, s, t, turn)? {
        let found = check_still(alloc, mesh, fresh_from)?;
        Ok(hit(found))
    } else {
        Ok(Some(Why::Doubled))
    }
}

/// Tries one turn, and says what is wrong with it. Where nothing is, it is taken, and else the mesh and what was
/// kept are left as they were.
fn try_turn<S: Surface>(
    alloc: Global,
    mesh: &mut S,
    s: &EdgeFaces,
    t: &EdgeFaces,
    turn: u8,
) -> Result<Option<Why>, NoMemory>
    requires closed { IsClosed (S.mesh mesh.old) }
    requires clear { IsClearMesh (S.mesh mesh.old) }
    requires tried { MayBeTried (S.mesh mesh.old) s.now t.now }
    requires turn { turn ≤ 3 }
    ensures reason { OnOkIs result (turn_reason meets_exactly (S.mesh mesh.old) s.now t.now turn) }
    ensures mesh { S.mesh mesh.new ≡ left_by_turn (S.mesh mesh.old) s.now t.now turn result }
    ensures marks { BeginsWith (S.kept mesh.new) (S.kept mesh.old) }
    ensures kept { KeepsUnlessTaken result (S.kept mesh.new) (S.kept mesh.old) }
{
    let mark = mesh.mark()?;
    match put_and_check(alloc, mesh, s, t, turn) {
        Ok(None) => Ok(None),
        Ok(Some(why)) => {
            mesh.back_to(mark);
            Ok(Some(why))
        }
        Err(fault) => {
            mesh.back_to(mark);
            Err(fault)
        }
    }
}

/// Tries the turns of one rank, in order, where others may have failed before.
fn try_of_rank<S: Surface>(
    alloc: Global,
    mesh: &mut S,
    s: &EdgeFaces,
    t: &EdgeFaces,
    place: u8,
    before: Why,
) -> Result<Attempt, NoMemory>
    requires closed { IsClosed (S.mesh mesh.old) }
    requires clear { IsClearMesh (S.mesh mesh.old) }
    requires tried { MayBeTried (S.mesh mesh.old) s.now t.now }
    ensures tried { let m = S.mesh mesh.old in
        OnOkIs result (after_turns m s.now t.now (turns_of_rank m s.now t.now place) before) }
    ensures mesh { S.mesh mesh.new ≡ left_by_turns (S.mesh mesh.old) s.now t.now result }
    ensures marks { BeginsWith (S.kept mesh.new) (S.kept mesh.old) }
    ensures kept { KeepsWhereNoneIsTaken result (S.kept mesh.new) (S.kept mesh.old) }
{
    let mut last = before;
    for turn in 0..4_u8 {
        if rank(mesh, s, t, turn) == place {
            match try_turn(alloc, mesh, s, t, turn)? {
                None => return Ok(Attempt::Taken(turn)),
                Some(why) => last = why,
            }
        }
    }
    Ok(Attempt::Failed(last))
}

/// Tries the turns in their order, until one is taken.
pub(crate) fn try_turns<S: Surface>(
    alloc: Global,
    mesh: &mut S,
    s: &EdgeFaces,
    t: &EdgeFaces,
) -> Result<Attempt, NoMemory>
    requires closed { IsClosed (S.mesh mesh.old) }
    requires clear { IsClearMesh (S.mesh mesh.old) }
    requires tried { MayBeTried (S.mesh mesh.old) s.now t.now }
    ensures tried { let m = S.mesh mesh.old in
        OnOkIs result (after_turns m s.now t.now (tried m s.now t.now) Doubled) }
    ensures mesh { S.mesh mesh.new ≡ left_by_turns (S.mesh mesh.old) s.now t.now result }
    ensures marks { BeginsWith (S.kept mesh.new) (S.kept mesh.old) }
    ensures kept { KeepsWhereNoneIsTaken result (S.kept mesh.new) (S.kept mesh.old) }
{
    // Some turn is tried, so this is never told.
    let mut last = Why::Doubled;
    for place in 0..4_u8 {
        match try_of_rank(alloc, mesh, s, t, place, last)? {
            Attempt::Taken(turn) => return Ok(Attempt::Taken(turn)),
            Attempt::Failed(why) => last = why,
        }
    }
    Ok(Attempt::Failed(last))
}
