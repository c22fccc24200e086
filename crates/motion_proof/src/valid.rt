ghost use Rattle.std.specs.Prelude.{◌↔◌, ◌*◌, ◌^◌, ◌-◌, ◌≤◌, IsTrue};
ghost use Rattle.grid_base.specs.Triples.{IsWithin};
ghost use Rattle.grid_base.specs.Meeting.{AreWithin};
ghost use Rattle.motion_proof.specs.Trees.{IsValid, FitsIn, Separates, Serves};

use crate::certificate::{Claim, Tree};
use crate::directions::serves;
use crate::halves::{first_claim, second_claim};
use grid_base::{DEPTH_MAX, DIRECTION_MAX, HALF_MAX, Positions, WIDE_MAX, Wide};
use motion_test::{double, middle};

/// Whether the tree is valid for the claim, over the interval from the start to the end.
pub fn is_valid(tree: &Tree, start: &Positions, end: &Positions, claim: Claim) -> bool
    requires start_fits { AreWithin HALF_MAX start.now }
    requires end_fits { AreWithin HALF_MAX end.now }
    ensures { IsTrue result ↔ IsValid claim tree.now start.now end.now }
{
    is_valid_at(tree, start, end, claim, DEPTH_MAX)
}

// Whether the tree has so much depth at most, its directions are within the limit, and its leaves serve.
fn is_valid_at(tree: &Tree, s: &Positions, t: &Positions, claim: Claim, depth: u8) -> bool
    requires depth_fits { depth ≤ DEPTH_MAX }
    requires s_fits { AreWithin (HALF_MAX * 2 ^ (DEPTH_MAX - depth)) s.now }
    requires t_fits { AreWithin (HALF_MAX * 2 ^ (DEPTH_MAX - depth)) t.now }
    ensures { IsTrue result ↔ (FitsIn depth tree.now × Separates claim tree.now s.now t.now) }
{
    match tree {
        Tree::Leaf(n) => leaf_serves(*n, s, t, claim),
        Tree::Halves(first, second) => {
            if depth == 0 {
                return false;
            }
            let m = middle(s, t);
            if !is_valid_at(first, &double(s), &m, first_claim(claim), depth - 1) {
                return false;
            }
            is_valid_at(second, &m, &double(t), second_claim(claim), depth - 1)
        }
    }
}

// Whether the direction is within the limit, and serves.
fn leaf_serves(n: Wide, s: &Positions, t: &Positions, claim: Claim) -> bool
    requires s_fits { AreWithin WIDE_MAX s.now }
    requires t_fits { AreWithin WIDE_MAX t.now }
    ensures { IsTrue result ↔ (IsWithin DIRECTION_MAX n × Serves claim s.now t.now n) }
{
    if !is_direction(n) {
        return false;
    }
    serves(n, s, t, claim)
}

/// Whether the direction is within the limit.
pub(crate) fn is_direction(n: Wide) -> bool
    ensures { IsTrue result ↔ IsWithin DIRECTION_MAX n }
{
    n.x.unsigned_abs() <= DIRECTION_MAX
        && n.y.unsigned_abs() <= DIRECTION_MAX
        && n.z.unsigned_abs() <= DIRECTION_MAX
}
