//! A tree of boxes that keeps the last question.
ghost use Rattle.std.specs.Prelude.{◌≡◌, ℕ, ◌++◌, IsTrue, IfOk, OnOk, slice_get};
ghost use Rattle.std.specs.List.{filter};
ghost use Rattle.std.specs.Map.{keys_of};
ghost use Rattle.std.specs.FinMap as map;
ghost use Rattle.grid_base.specs.Ordered.{IsUnder};
ghost use Rattle.box_tree.specs.Overlapping.{overlaps_apart, overlapping_apart};
ghost use Rattle.pair_candidates.specs.Asked.{IsAround};

use crate::still_faces::rising;
use box_tree::{BoxTree, LabelledBox, SmallBox};
use grid_base::{NoMemory, Wide};
use std::alloc::Global;
use std::marker::Model;

// An answer of more places than these is not kept: to go through it takes longer than to ask anew.
const MANY: usize = 64;

/// A list of labelled boxes in a tree, the last box that it was asked for, and the boxes that were answered, beside their
/// places: they serve each box that stands in that one. A contract sees it as the tree, which is the map from the places to
/// the boxes.
#[derive(Drop)]
pub(crate) struct AskedTree {
    tree: BoxTree,
    asked: Option<SmallBox>,
    near: Vec<(u64, LabelledBox)>,
}

impl Model for AskedTree {
    ghost use Rattle.std.specs.Ordering.{nat_cmp};
    ghost use Rattle.std.specs.Coded.{coded_ℕ};
    ghost use Rattle.std.specs.FinMap as map;
    ghost use Rattle.box_tree.specs.declared.LabelledBox.{LabelledBox};

    ghost Value = { map.FinMap nat_cmp LabelledBox };

    ghost use Rattle.box_tree.specs.contracts.LabelledBox as labelled;

    ghost coded = { map.code coded_ℕ labelled.the_row.coded };

    ghost use Rattle.pair_candidates.specs.Asked.{IsKept};

    ghost view = { λ t. t.tree };

    ghost invariant = { λ t. IsKept t.tree t.asked t.near.items };
}

// Whether the one is at or below the other in each component.
fn is_under(a: Wide, b: Wide) -> bool
    ensures { IsTrue result → IsUnder a b }
{
    a.x <= b.x && a.y <= b.y && a.z <= b.z
}

// Whether the one box has all of the other.
fn is_around(outer: &SmallBox, inner: &SmallBox) -> bool
    ensures { IsTrue result → IsAround outer.now inner.now }
{
    let outer = outer.extent();
    let inner = inner.extent();
    is_under(outer.low, inner.low) && is_under(inner.high, outer.high)
}

// Whether the box has a common point with this one, and neither of the labels.
fn is_near(e: &LabelledBox, at: &SmallBox, a: u32, b: u32) -> bool
    ensures { result ≡ overlaps_apart at.now a b e.now }
{
    e.at.overlaps(at) && e.labels.is_apart(a, b)
}

// Adds the places of those boxes that have a common point with this one, and neither of the labels.
fn pick(
    near: &[(u64, LabelledBox)],
    at: &SmallBox,
    a: u32,
    b: u32,
    into: &mut Vec<u64>,
) -> Result<(), NoMemory>
    ensures { OnOk result (into.new.items
        ≡ into.old.items ++ keys_of (filter (λ e. overlaps_apart at.now a b e.1) near.now)) }
{
    for e in near {
        if is_near(&e.1, at, a, b) {
            into.push(e.0)?;
        }
    }
    Ok(())
}

impl AskedTree {
    /// The tree of these boxes.
    pub(crate) fn of(alloc: Global, boxes: &[LabelledBox]) -> Result<AskedTree, NoMemory>
        ensures { IfOk result (λ t. (i : ℕ) → map.get t i ≡ slice_get boxes.now i) }
    {
        let tree = BoxTree::of(alloc, boxes)?;
        Ok(AskedTree {
            tree,
            asked: None,
            near: Vec::new(alloc),
        })
    }

    /// Whether the last answer serves this box.
    pub(crate) fn serves(&self, at: &SmallBox) -> bool {
        match &self.asked {
            Some(asked) => is_around(asked, at),
            None => false,
        }
    }

    /// Asks for the boxes that have a common point with this one, and keeps the answer, unless there are many. Answers
    /// whether it is kept.
    pub(crate) fn ask(&mut self, at: SmallBox) -> Result<bool, NoMemory>
        ensures { self.new ≡ self.old }
    {
        self.asked = None;
        let kept = self.tree.near_up_to(at, MANY, &mut self.near)?;
        if kept {
            self.asked = Some(at);
        }
        Ok(kept)
    }

    /// Sets the list to the places of the boxes that have a common point with this one, and neither of the labels, rising:
    /// by the last answer, where that serves.
    pub(crate) fn overlapping_apart(
        &self,
        at: SmallBox,
        a: u32,
        b: u32,
        into: &mut Vec<u64>,
    ) -> Result<(), NoMemory>
        ensures { OnOk result (into.new.items ≡ overlapping_apart self.now at a b) }
    {
        if let Some(asked) = &self.asked {
            if is_around(asked, &at) {
                into.clear();
                pick(&self.near, &at, a, b, into)?;
                rising(into);
                return Ok(());
            }
        }
        self.tree.overlapping_apart(at.extent(), a, b, into)
    }
}
