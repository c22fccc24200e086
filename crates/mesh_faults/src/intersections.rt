//! All edges and faces that meet.
ghost use Rattle.std.specs.Prelude.{◌≡◌, take, slice_get, IfOk};
ghost use Rattle.pair_scan.specs.Answers.{IsFirstMeeting};
ghost use Rattle.mesh_faults.specs.MeetingPairs.{meeting_pairs, AreMeeting};

use grid_base::{Items, NoMemory};
use mesh_base::{PairName, Surface};
use pair_candidates::told_of_mesh;
use pair_scan::{Meets, RestingVertices};
use std::alloc::Global;

// The pairs of a mesh that meet, up to the edge with which there are so many.
fn met_in<S: Surface>(alloc: Global, mesh: &S, most: usize) -> Result<Items<PairName>, NoMemory>
    ensures { IfOk result
        (λ found. take most found ≡ take most (meeting_pairs (S.mesh mesh.now))) }
{
    let found = told_of_mesh(
        alloc,
        &Meets,
        mesh,
        &RestingVertices { mesh },
        &[],
        Some(most),
    )?;
    Ok(found)
}

/// The first pairs, so many at most, of an edge and a face of a mesh that meet where its vertices stand and share no vertex, in order of
/// the edge and then of the face. A tree of boxes leaves out the pairs that are far apart (a broad phase, as in El Topo, Brochu and
/// Bridson 2009), and an edge behind the one with which there are so many is not looked at. Refuses only where there is no memory.
pub fn meeting_pairs<S: Surface>(
    alloc: Global,
    mesh: &S,
    most: usize,
) -> Result<Vec<PairName>, NoMemory>
    ensures found { IfOk result
        (λ found. found.items ≡ take most (meeting_pairs (S.mesh mesh.now))) }
    // All of them: each pair that meets, and no other, in order; the first is the one that a scan for one pair finds.
    ensures each { AreMeeting (S.mesh mesh.now) (meeting_pairs (S.mesh mesh.now)) }
    ensures first { IsFirstMeeting (S.mesh mesh.now) (slice_get (meeting_pairs (S.mesh mesh.now)) 0) }
{
    let found = met_in(alloc, mesh, most)?;
    let mut pairs = found.into_vec();
    pairs.truncate(most);
    Ok(pairs)
}
