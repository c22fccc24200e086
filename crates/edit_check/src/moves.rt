//! Which vertices are moved.
ghost use Rattle.std.specs.Prelude.{◌≡◌};
ghost use Rattle.edit_check.specs.Touched.{is_moved};

use edit_base::Move;
use mesh_base::VertexId;
use pair_scan::Moves;

/// Whether a vertex is named by a move.
pub(crate) fn is_moved(moves: &[Move], v: VertexId) -> bool
    ensures { result ≡ is_moved moves.now v }
{
    moves.move_of(v).is_some()
}
