//! The tree that the rule makes for a pair.
ghost use Rattle.std.specs.Prelude.{◌*◌, ◌^◌, ◌-◌, ◌≤◌, IfOk};
ghost use Rattle.grid_base.specs.Meeting.{AreWithin};
ghost use Rattle.motion_proof.specs.Trees.{IsFoundTree, AreHalvesOf};

use crate::certificate::{Claim, Tree};
use crate::directions::first_serving;
use crate::halves::{first_claim, second_claim};
use grid_base::{DEPTH_MAX, HALF_MAX, NoMemory, Positions};
use motion_test::{double, middle};
use std::alloc::Global;

/// The tree that the rule makes for the claim, over the interval from the start to the end: None exactly where the written
/// test does not hold to the greatest depth.
pub(crate) fn tree_of(
    alloc: Global,
    start: &Positions,
    end: &Positions,
    claim: Claim,
) -> Result<Option<Tree>, NoMemory>
    requires start_fits { AreWithin HALF_MAX start.now }
    requires end_fits { AreWithin HALF_MAX end.now }
    ensures { IfOk result (IsFoundTree claim DEPTH_MAX start.now end.now) }
{
    tree_at(alloc, start, end, claim, DEPTH_MAX)
}

// The same to so much depth.
fn tree_at(
    alloc: Global,
    s: &Positions,
    t: &Positions,
    claim: Claim,
    depth: u8,
) -> Result<Option<Tree>, NoMemory>
    requires depth_fits { depth ≤ DEPTH_MAX }
    requires s_fits { AreWithin (HALF_MAX * 2 ^ (DEPTH_MAX - depth)) s.now }
    requires t_fits { AreWithin (HALF_MAX * 2 ^ (DEPTH_MAX - depth)) t.now }
    ensures { IfOk result (IsFoundTree claim depth s.now t.now) }
{
    if let Some(n) = first_serving(s, t, claim) {
        return Ok(Some(Tree::Leaf(n)));
    }
    if depth == 0 {
        return Ok(None);
    }
    let m = middle(s, t);
    match tree_at(alloc, &double(s), &m, first_claim(claim), depth - 1)? {
        None => Ok(None),
        Some(first) => match tree_at(alloc, &m, &double(t), second_claim(claim), depth - 1)? {
            None => Ok(None),
            Some(second) => joined(alloc, first, second),
        },
    }
}

// The two as the halves of one.
fn joined(alloc: Global, first: Tree, second: Tree) -> Result<Option<Tree>, NoMemory>
    ensures { IfOk result (AreHalvesOf first second) }
{
    let first = Box::new(alloc, first)?;
    let second = Box::new(alloc, second)?;
    Ok(Some(Tree::Halves(first, second)))
}
