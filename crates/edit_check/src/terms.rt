//! What is required of pairs.
ghost use Rattle.std.specs.Prelude.{◌≤◌};
ghost use Rattle.grid_base.specs.declared.TheConstants.{DEPTH_MAX};

use edit_base::Touch;
use mesh_base::VertexId;

/// What is required of the pairs, and to which depth.
#[derive(Clone, Copy)]
pub(crate) struct Terms<'a> {
    pub(crate) touch: Touch,
    pub(crate) together: &'a [VertexId],
    pub(crate) depth: u8,
    ghost shallow: { depth ≤ DEPTH_MAX },
}
