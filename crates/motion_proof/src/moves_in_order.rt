//! Moves by rising id, among which that of a vertex is found by a search.
ghost use Rattle.std.specs.Prelude.{◌≡◌, ◌↔◌, ◌<◌, map, IsTrue};
ghost use Rattle.std.specs.List.Sorted.{IsStrictlySortedBy, IsStrictlySortedBy-prop, IsBinarySearchResult};
ghost use Rattle.std.specs.Ordering.{nat_cmp};
ghost use Rattle.edit_base.specs.Scaffold.{move_of};

use edit_base::Move;
use mesh_base::VertexId;
use pair_scan::Moves;

/// Moves by rising id. That of a vertex is found in time in proportion to the logarithm of their number.
#[derive(Drop)]
pub(crate) struct MovesInOrder<'a> {
    pub(crate) moves: &'a [Move],
    ghost rising: { IsStrictlySortedBy nat_cmp (map (λ move. move.v) moves.now) } by { IsStrictlySortedBy-prop nat_cmp (map (λ move. move.v) moves.now) },
}

impl<'a> Moves for MovesInOrder<'a> {
    ghost moves = { λ s. s.moves.now };

    #[inline(always)]
    fn move_of(&self, v: VertexId) -> Option<Move> {
        found_move(self.moves, v)
    }
}

/// Whether the moves stand by rising id.
pub(crate) fn are_in_order(moves: &[Move]) -> bool
    ensures { IsTrue result → IsStrictlySortedBy nat_cmp (map (λ move. move.v) moves.now) }
{
    for i in 1..moves.len() {
        if !comes_before(&moves[i - 1], &moves[i]) {
            return false;
        }
    }
    true
}

// Whether the one move's id is below the other's.
fn comes_before(a: &Move, b: &Move) -> bool
    ensures { IsTrue result ↔ a.now.v < b.now.v }
{
    a.v.0 < b.v.0
}

// The place of a vertex among the moves, or where it would stand.
fn search(moves: &[Move], v: VertexId) -> Result<usize, usize>
    ensures { IsBinarySearchResult (λ move. nat_cmp move.v v) moves.now result }
{
    moves.binary_search_by_key(&v.0, |m| m.v.0)
}

// The move of a vertex, if it is named.
fn found_move(moves: &[Move], v: VertexId) -> Option<Move>
    requires { IsStrictlySortedBy nat_cmp (map (λ move. move.v) moves.now) }
    ensures { result ≡ move_of moves.now v }
{
    match search(moves, v) {
        Ok(place) => match moves.get(place) {
            Some(m) => Some(*m),
            None => None,
        },
        Err(_) => None,
    }
}
