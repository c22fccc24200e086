//! Vertices where a motion ends.
ghost use Rattle.step_lists.specs.EndPositions.{at_end};

use mesh_base::VertexId;
use pair_paths::{Path, Paths};

/// The vertices of a motion where they end, at rest.
#[derive(Drop)]
pub(crate) struct EndPositions<'a, P: Paths> {
    pub paths: &'a P,
}

impl<'a, P: Paths> Paths for EndPositions<'a, P> {
    ghost motion = { λ s. at_end (P.motion s.paths.now) };

    fn path_of(&self, v: VertexId) -> Path {
        let path = self.paths.path_of(v);
        Path {
            start: path.end,
            end: path.end,
        }
    }
}
