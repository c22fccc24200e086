//! The move of a vertex, looked up among moves.
ghost use Rattle.std.specs.Prelude.{◌≡◌};
ghost use Rattle.edit_base.specs.Scaffold.{move_of};

use edit_base::Move;
use mesh_base::VertexId;

/// Moves of vertices, among which that of a vertex is looked up.
pub trait Moves {
    ghost use Rattle.std.specs.Prelude.{◌≡◌, List};
    ghost use Rattle.edit_base.specs.declared.Move.{Move};
    ghost use Rattle.edit_base.specs.Scaffold.{move_of};

    /// The moves, in their order.
    ghost moves: { Self → List Move };

    /// The move of a vertex, if it is named.
    fn move_of(&self, v: VertexId) -> Option<Move>
        ensures { result ≡ move_of (moves self.now) v };
}

/// Moves in any order: the first of the vertex is found in time in proportion to their number.
impl<'a> Moves for &'a [Move] {
    ghost moves = { λ s. s.now };

    #[inline(always)]
    fn move_of(&self, v: VertexId) -> Option<Move> {
        move_among(self, v)
    }
}

// The move of a vertex, if it is named.
#[inline(always)]
fn move_among(moves: &[Move], v: VertexId) -> Option<Move>
    ensures { result ≡ move_of moves.now v }
{
    for m in moves {
        if m.v == v {
            return Some(*m);
        }
    }
    None
}
