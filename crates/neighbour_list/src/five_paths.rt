//! The five paths of a listed pair.
ghost use Rattle.std.specs.Prelude.{◌≡◌, IfSome};
ghost use Rattle.mesh_base.specs.Placements.{Motion, positions};
ghost use Rattle.pair_paths.specs.Paths.{AreKnown};
ghost use Rattle.neighbour_list.specs.FivePaths.{starts_of, ends_of};
ghost use Rattle.neighbour_list.specs.Listed.{pair_of};

use crate::listed::ListedPair;
use pair_paths::{Path, PathOf, known_path};

/// The paths of the ends of an edge and of the corners of a face.
#[derive(Clone, Copy)]
pub(crate) struct FivePaths<'a> {
    pub(crate) a: &'a Path,
    pub(crate) b: &'a Path,
    pub(crate) c: &'a Path,
    pub(crate) d: &'a Path,
    pub(crate) e: &'a Path,
}

/// The paths of a listed pair, where the list has those of its vertices.
#[inline(always)]
pub(crate) fn paths_of_pair<'a>(p: &ListedPair, known: &'a [PathOf]) -> Option<FivePaths<'a>>
    ensures starts { (w : Motion) → AreKnown w known.now →
        IfSome result (λ five. starts_of five ≡ positions w.start (pair_of p.now)) }
    ensures ends { (w : Motion) → AreKnown w known.now →
        IfSome result (λ five. ends_of five ≡ positions w.end (pair_of p.now)) }
{
    let a = known_path(known, p.name.a)?;
    let b = known_path(known, p.name.b)?;
    let c = known_path(known, p.corners.first)?;
    let d = known_path(known, p.corners.second)?;
    let e = known_path(known, p.corners.third)?;
    Some(FivePaths { a, b, c, d, e })
}
