//! Paths of vertices that are kept in a list.
ghost use Rattle.std.specs.Prelude.{◌≡◌, map, Contains, IfOk, IfSome};
ghost use Rattle.pair_paths.specs.Paths.{AreKnown, AreAllPaths, path_along, path_in};

use crate::path::{Path, Paths};
use grid_base::{Items, NoMemory};
use mesh_base::{Surface, VertexId, live_vertices};
use std::alloc::Global;

/// A vertex and its path.
#[derive(Clone, Copy)]
pub struct PathOf {
    pub v: VertexId,
    pub path: Path,
}

/// Paths of which some are kept in a list, mostly by rising id. What is not found there is asked for anew.
#[derive(Drop)]
pub struct KnownPaths<'a, P: Paths> {
    pub paths: &'a P,
    pub known: &'a [PathOf],
    pub ghost exact: { AreKnown (P.motion paths.now) known.now },
}

impl<'a, P: Paths> Paths for KnownPaths<'a, P> {
    ghost motion = { λ s. P.motion s.paths.now };

    #[inline(always)]
    fn path_of(&self, v: VertexId) -> Path {
        match known_path(self.known, v) {
            Some(path) => *path,
            None => asked_path(self.paths, v),
        }
    }
}

// The path of a vertex that is not in the list.
#[cold]
#[inline(never)]
fn asked_path<P: Paths>(paths: &P, v: VertexId) -> Path
    ensures { result ≡ path_along (P.motion paths.now) v }
{
    paths.path_of(v)
}

// The path at a place of the list, if it is the vertex's.
#[inline(always)]
fn path_at(known: &[PathOf], place: usize, v: VertexId) -> Option<&Path>
    ensures { IfSome result (λ path. Contains known.now (record { v = v; path = path.now })) }
{
    match known.get(place) {
        Some(k) => { if k.v.0 == v.0 { Some(&k.path) } else { None } }
        None => None,
    }
}

// The path of a vertex, if a search finds it.
#[inline(never)]
fn find_known(known: &[PathOf], v: VertexId) -> Option<&Path>
    ensures { IfSome result (λ path. Contains known.now (record { v = v; path = path.now })) }
{
    match known.binary_search_by_key(&v.0, |k| k.v.0) {
        Ok(place) => path_at(known, place, v),
        Err(_) => None,
    }
}

/// The path of a vertex, if it is found in the list. Where the ids have no gap, it stands at the place before its id; else it is
/// found where the ids rise.
#[inline(always)]
pub fn known_path(known: &[PathOf], v: VertexId) -> Option<&Path>
    ensures { IfSome result (λ path. Contains known.now (record { v = v; path = path.now })) }
{
    match path_at(known, v.0.wrapping_sub(1) as usize, v) {
        Some(path) => Some(path),
        None => find_known(known, v),
    }
}

// The paths of these vertices, in their order.
fn paths_among<P: Paths>(
    alloc: Global,
    ids: &[VertexId],
    paths: &P,
) -> Result<Items<PathOf>, NoMemory>
    ensures { IfOk result (λ known. known ≡ map (path_in (P.motion paths.now)) ids.now) }
{
    let mut known = Items::new(alloc);
    for v in ids {
        known.push(PathOf {
            v: *v,
            path: paths.path_of(*v),
        })?;
    }
    Ok(known)
}

/// The paths of the live vertices, by rising id. Refuses only where there is no memory.
pub fn paths_of<S: Surface, P: Paths>(
    alloc: Global,
    mesh: &S,
    paths: &P,
) -> Result<Items<PathOf>, NoMemory>
    ensures known { IfOk result (AreKnown (P.motion paths.now)) }
    ensures all { IfOk result (AreAllPaths (S.mesh mesh.now) (P.motion paths.now)) }
{
    let ids = live_vertices(alloc, mesh)?;
    paths_among(alloc, ids.as_slice(), paths)
}
