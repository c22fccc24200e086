//! What makes of a mesh the one on which an edit of it is tested.
ghost use Rattle.std.specs.Prelude.{◌≡◌, ◌∷◌, [], false, true, is_some, IfOk, OnOk};
ghost use Rattle.mesh_base.specs.Kept.{BeginsWith};
ghost use Rattle.mesh_base.specs.Limits.{is_over_limits};
ghost use Rattle.mesh_base.specs.Sides.{IsClosed};
ghost use Rattle.edit_base.specs.Edges.{exact_mid};
ghost use Rattle.edit_base.specs.Required.{HasEdge};
ghost use Rattle.edit_base.specs.Scaffold.{move_from_rest};
ghost use Rattle.edit_split.specs.Split.{split_mesh, split_point, split_scaffold};
ghost use Rattle.edit_flip.specs.Flip.{flip_scaffold};
ghost use Rattle.edit_collapse.specs.Collapse.{collapse_scaffold};
ghost use Rattle.edit_pinch.specs.Pinch.{first_point, later_copies, moves_from, pinch_scaffold};
ghost use Rattle.edit_pinch.specs.Tried.{MayBeTried};
ghost use Rattle.edit_any.specs.Dispatch.{scaffold_of};
ghost use Rattle.edit_scaffold.specs.Made.{IsDone, ArePartsOf, IsTestedOn};

use crate::scaffold::Motion;
use edit_acts::exact_mid;
use edit_base::{Change, CopyAt, EdgeFaces, edge_beside};
use edit_pinch::put_pinch;
use edit_split::{apply_split, split_point};
use grid_base::{Items, NoMemory, Point, Wide};
use mesh_base::{Surface, VertexId, point_of};
use motion_proof::{Claim, Way};
use std::alloc::Global;

// The way of the new vertex of a split from the middle of the edge, alone.
fn way_from_mid<S: Surface>(
    alloc: Global,
    mesh: &S,
    e: &EdgeFaces,
    end: Wide,
) -> Result<Items<Way>, NoMemory>
    ensures { let m = S.mesh mesh.now in IfOk result (λ ways. ways ≡ record {
      v = m.next_vertex;
      start = exact_mid m e.now.a e.now.b;
      end = end;
    } ∷ []) }
{
    let mut ways = Items::new(alloc);
    ways.push(Way {
        v: VertexId(mesh.next_vertex()),
        start: exact_mid(mesh, e.a, e.b),
        end,
    })?;
    Ok(ways)
}

// Splits an edge at its midpoint, rounded down.
fn put_split<S: Surface>(mesh: &mut S, e: &EdgeFaces) -> Result<(), NoMemory>
    requires closed { IsClosed (S.mesh mesh.old) }
    requires edge { HasEdge (S.mesh mesh.old) e.now }
    requires fits { is_over_limits (split_scaffold (S.mesh mesh.old) e.now).mesh ≡ false }
    ensures made { let m = S.mesh mesh.old in
        OnOk result (S.mesh mesh.new ≡ split_mesh m e.now (split_point m e.now)) }
    ensures marks { BeginsWith (S.kept mesh.new) (S.kept mesh.old) }
{
    let at = split_point(mesh, e);
    apply_split(mesh, e, at)
}

// On what the split of an edge is tested.
fn put_for_split<S: Surface>(alloc: Global, mesh: &mut S, e: &EdgeFaces) -> Result<Motion, NoMemory>
    requires closed { IsClosed (S.mesh mesh.old) }
    requires edge { HasEdge (S.mesh mesh.old) e.now }
    requires fits { is_over_limits (split_scaffold (S.mesh mesh.old) e.now).mesh ≡ false }
    ensures made { let s = split_scaffold (S.mesh mesh.old) e.now in
        IfOk result (λ motion. ArePartsOf s (S.mesh mesh.new) motion.ways motion.claim) }
    ensures marks { BeginsWith (S.kept mesh.new) (S.kept mesh.old) }
{
    let end = split_point(mesh, e).doubled();
    let ways = way_from_mid(alloc, mesh, e, end)?;
    put_split(mesh, e)?;
    Ok(Motion {
        ways,
        claim: Claim::Along,
    })
}

// On what the flip of an edge is tested.
fn put_for_flip<S: Surface>(alloc: Global, mesh: &mut S, e: &EdgeFaces) -> Result<Motion, NoMemory>
    requires closed { IsClosed (S.mesh mesh.old) }
    requires edge { HasEdge (S.mesh mesh.old) e.now }
    requires fits { is_over_limits (split_scaffold (S.mesh mesh.old) e.now).mesh ≡ false }
    ensures made { let s = flip_scaffold (S.mesh mesh.old) e.now in
        IfOk result (λ motion. ArePartsOf s (S.mesh mesh.new) motion.ways motion.claim) }
    ensures marks { BeginsWith (S.kept mesh.new) (S.kept mesh.old) }
{
    let end = exact_mid(mesh, e.c, e.d);
    let ways = way_from_mid(alloc, mesh, e, end)?;
    put_split(mesh, e)?;
    Ok(Motion {
        ways,
        claim: Claim::Along,
    })
}

// The way of a vertex from where it stands.
fn way_from_rest<S: Surface>(mesh: &S, v: VertexId, end: Wide) -> Way
    ensures { result ≡ move_from_rest (S.mesh mesh.now) v end }
{
    Way {
        v,
        start: point_of(mesh, v).doubled(),
        end,
    }
}

// How the ends of an edge move on what its collapse to a point is tested, which is the mesh itself.
fn of_collapse<S: Surface>(
    alloc: Global,
    mesh: &S,
    a: VertexId,
    b: VertexId,
    at: Point,
) -> Result<Motion, NoMemory>
    ensures { let m = S.mesh mesh.now in IfOk result (λ motion.
        ArePartsOf (collapse_scaffold m a b at) m motion.ways motion.claim) }
{
    let end = at.doubled();
    let mut ways = Items::new(alloc);
    ways.push(way_from_rest(mesh, a, end))?;
    ways.push(way_from_rest(mesh, b, end))?;
    Ok(Motion {
        ways,
        claim: Claim::Before,
    })
}

// The ways of a vertex and its copies from where it stands.
fn ways_apart(
    alloc: Global,
    here: Wide,
    v: VertexId,
    at: Point,
    copies: &[CopyAt],
) -> Result<Items<Way>, NoMemory>
    ensures { IfOk result (λ ways. ways ≡ moves_from here v at copies.now) }
{
    let mut ways = Items::new(alloc);
    ways.push(Way {
        v,
        start: here,
        end: at.doubled(),
    })?;
    for copy in copies {
        ways.push(Way {
            v: copy.w,
            start: here,
            end: copy.at.doubled(),
        })?;
    }
    Ok(ways)
}

// On what the pinch of a vertex is tested, of which the points are known.
fn put_for_pinch<S: Surface>(
    alloc: Global,
    mesh: &mut S,
    v: VertexId,
    at: Point,
    copies: &[CopyAt],
) -> Result<Motion, NoMemory>
    requires closed { IsClosed (S.mesh mesh.old) }
    requires tried { MayBeTried (S.mesh mesh.old) v }
    requires point { at ≡ first_point (S.mesh mesh.old) v }
    requires copies { copies.now ≡ later_copies (S.mesh mesh.old) v }
    ensures made { let s = pinch_scaffold (S.mesh mesh.old) v in
        IfOk result (λ motion. ArePartsOf s (S.mesh mesh.new) motion.ways motion.claim) }
    ensures marks { BeginsWith (S.kept mesh.new) (S.kept mesh.old) }
{
    let here = point_of(mesh, v).doubled();
    let ways = ways_apart(alloc, here, v, at, copies)?;
    put_pinch(alloc, mesh, v, at, copies)?;
    Ok(Motion {
        ways,
        claim: Claim::After,
    })
}

// Makes of a mesh the one on which an edit of it is tested, and answers how its vertices move there. Where memory is
// wanting, some of it may be done.
pub(crate) fn put<S: Surface>(
    alloc: Global,
    mesh: &mut S,
    change: &Change,
) -> Result<Motion, NoMemory>
    requires closed { IsClosed (S.mesh mesh.old) }
    requires done { IsDone (S.mesh mesh.old) change.now }
    requires moves { is_some (scaffold_of (S.mesh mesh.old) change.now) ≡ true }
    ensures made { let scaffold = scaffold_of (S.mesh mesh.old) change.now in
        IfOk result (λ motion. IsTestedOn scaffold (S.mesh mesh.new) motion.ways motion.claim) }
    ensures marks { BeginsWith (S.kept mesh.new) (S.kept mesh.old) }
{
    match change {
        Change::Split { a, b, .. } => {
            let Some(e) = edge_beside(mesh, *a, *b) else {
                unreachable!()
            };
            put_for_split(alloc, mesh, &e)
        }
        Change::Flip { a, b } => {
            let Some(e) = edge_beside(mesh, *a, *b) else {
                unreachable!()
            };
            put_for_flip(alloc, mesh, &e)
        }
        Change::Collapse { a, b, at } => of_collapse(alloc, mesh, *a, *b, *at),
        Change::Zip { .. } => unreachable!(),
        Change::Pinch { v, at, copies } => {
            put_for_pinch(alloc, mesh, *v, *at, copies.as_slice())
        }
    }
}
