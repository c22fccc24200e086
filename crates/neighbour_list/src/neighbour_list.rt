//! The list.
ghost use Rattle.std.specs.Prelude.{◌≡◌, ◌≤◌, IfOk};
ghost use Rattle.grid_base.specs.declared.TheConstants.{HALF_MAX};
ghost use Rattle.neighbour_list.specs.Listed.{HasReferences, IsListOf};

use crate::clusters::clusters_of;
use crate::construction::near_pairs;
use crate::listed::ListedPair;
use crate::reference::Reference;
use grid_base::{HALF_MAX, Items, NoMemory};
use mesh_base::{Surface, edges_in_order};
use pair_paths::{KnownPaths, Paths, moving_faces, paths_of};
use std::alloc::Global;

/// The pairs of a mesh that are near at reference points, with these points, in clusters, and the skin.
#[derive(Drop)]
pub struct NeighbourList {
    /// The skin, in grid units.
    pub skin: u32,
    /// Clusters of vertices, with their reference points: the corners of each face are in one of them.
    pub clusters: Items<Items<Reference>>,
    /// The pairs, in order of the edge and then of the face.
    pub pairs: Items<ListedPair>,
}

/// A cluster has about so many vertices: few, so that they drift alike, and many, so that the clusters are few.
const CLUSTER_SIZE: usize = 24;

impl NeighbourList {
    /// The list of a mesh with this skin, its reference points where the vertices start in this motion: each pair whose edge
    /// and face have at these points a gap of at most the skin along each axis. Any points serve; a list is short where they
    /// are near the vertices, and lasts where they are where the vertices go. Its clusters have the corners of faces that
    /// mostly stand near one another. Refuses only where there is no memory.
    pub fn of<S: Surface, P: Paths>(
        alloc: Global,
        mesh: &S,
        at: &P,
        skin: u32,
    ) -> Result<NeighbourList, NoMemory>
        requires { skin ≤ HALF_MAX }
        ensures list { IfOk result (IsListOf (S.mesh mesh.now)) }
        ensures skin { IfOk result (λ l. l.skin ≡ skin) }
        ensures references { IfOk result (HasReferences (P.motion at.now).start) }
    {
        let known = paths_of(alloc, mesh, at)?;
        let paths = KnownPaths {
            paths: at,
            known: known.as_slice(),
        };
        let edges = edges_in_order(alloc, mesh)?;
        let faces = moving_faces(alloc, mesh, &paths)?;
        let pairs = near_pairs(alloc, skin, edges.as_slice(), faces.as_slice(), &paths)?;
        let clusters = clusters_of(alloc, faces.as_slice(), CLUSTER_SIZE, &paths)?;
        Ok(NeighbourList {
            skin,
            clusters,
            pairs,
        })
    }
}
