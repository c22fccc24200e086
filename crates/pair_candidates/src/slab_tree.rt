//! A tree of faces, each node of which knows how far those below it reach.
ghost use Rattle.std.specs.Prelude.{◌≡◌, ℕ, List, [], ◌∷◌, true, ◌⊎◌, IfOk, OnOk};
ghost use Rattle.cell_grid.specs.Filed.{has};
ghost use Rattle.pair_paths.specs.declared.MovingFace.{MovingFace};
ghost use Rattle.pair_paths.specs.Bounds.{AreBoxesOf};
ghost use Rattle.pair_paths.specs.FaceBoxes.{IsFaceBoxIn};
ghost use Rattle.pair_candidates.specs.declared.across.Across.{Across};
ghost use Rattle.pair_candidates.specs.Slabs.{HasPlace, HasFaceAt, IsSound, IsTreeOf, HasPlaceIf, IsSoundIf, AreFoundIn, AreFoundInIf};

use crate::across::Across;
use crate::separation::SlabQuery;
use crate::slabs::Slabs;
use box_tree::LabelledBox;
use grid_base::NoMemory;
use pair_paths::{Frame, MovingFace};
use std::alloc::Global;

/// A face by its place, or two trees of faces; and how far they reach.
#[derive(Drop)]
pub(crate) enum SlabTree {
    Face(Slabs, u64),
    Halves(Slabs, Box<SlabTree>, Box<SlabTree>),
}

/// Faces, their boxes in a frame, and two directions.
#[derive(Drop)]
pub(crate) struct SlabBuilder<'a> {
    pub(crate) faces: &'a [MovingFace],
    pub(crate) boxes: &'a [LabelledBox],
    pub(crate) frame: &'a Frame,
    pub(crate) across: &'a Across,
}

impl SlabTree {
    // How far its faces reach.
    fn slabs(&self) -> Slabs
        ensures { (across : Across) (faces : List MovingFace) (i : ℕ)
            → IsSound across faces self.now → HasPlace self.now i → HasFaceAt across faces result i }
    {
        match self {
            SlabTree::Face(s, _) => *s,
            SlabTree::Halves(s, _, _) => *s,
        }
    }
}

// The two as the halves of one.
fn joined(alloc: Global, first: SlabTree, second: SlabTree) -> Result<SlabTree, NoMemory>
    ensures sound { IfOk result (λ t. (across : Across) (faces : List MovingFace)
        → IsSound across faces first → IsSound across faces second → IsSound across faces t) }
    ensures places { IfOk result (λ t. (i : ℕ) → HasPlace first i ⊎ HasPlace second i → HasPlace t i) }
{
    let slabs = first.slabs().united(&second.slabs());
    let first = Box::new(alloc, first)?;
    let second = Box::new(alloc, second)?;
    Ok(SlabTree::Halves(slabs, first, second))
}

// The same where there are such.
fn joined_if(
    alloc: Global,
    first: Option<SlabTree>,
    second: Option<SlabTree>,
) -> Result<Option<SlabTree>, NoMemory>
    ensures sound { IfOk result (λ t. (across : Across) (faces : List MovingFace)
        → IsSoundIf across faces first → IsSoundIf across faces second → IsSoundIf across faces t) }
    ensures places { IfOk result
        (λ t. (i : ℕ) → HasPlaceIf first i ⊎ HasPlaceIf second i → HasPlaceIf t i) }
{
    match first {
        None => Ok(second),
        Some(one) => match second {
            None => Ok(Some(one)),
            Some(other) => Ok(Some(joined(alloc, one, other)?)),
        },
    }
}

// The face at a place, where there is one.
fn one_of(g: &SlabBuilder, i: u64) -> Option<SlabTree>
    requires { AreBoxesOf (IsFaceBoxIn g.now.frame.now) g.now.faces.now g.now.boxes.now }
    ensures { IsTreeOf g.now.across.now g.now.faces.now (i ∷ []) result }
{
    match g.faces.get(i as usize) {
        None => None,
        Some(f) => match g.boxes.get(i as usize) {
            None => None,
            Some(at) => Some(SlabTree::Face(Slabs::of(f, at, g.across), i)),
        },
    }
}

/// The tree of the faces at these places.
pub(crate) fn grow(
    alloc: Global,
    g: &SlabBuilder,
    places: &[u64],
) -> Result<Option<SlabTree>, NoMemory>
    requires { AreBoxesOf (IsFaceBoxIn g.now.frame.now) g.now.faces.now g.now.boxes.now }
    ensures { IfOk result (IsTreeOf g.now.across.now g.now.faces.now places.now) }
{
    if places.len() == 0 {
        return Ok(None);
    }
    if places.len() == 1 {
        return Ok(one_of(g, places[0]));
    }
    let (front, back) = places.split_at(places.len() / 2);
    let first = grow(alloc, g, front)?;
    let second = grow(alloc, g, back)?;
    joined_if(alloc, first, second)
}

/// Adds the places of the faces that may not be left out of those of the edge.
pub(crate) fn find(tree: &SlabTree, q: &SlabQuery, into: &mut Vec<u64>) -> Result<(), NoMemory>
    ensures kept { OnOk result ((i : ℕ) → has i into.old.items ≡ true → has i into.new.items ≡ true) }
    ensures found { OnOk result ((faces : List MovingFace) → IsSound q.now.across.now faces tree.now
        → AreFoundIn faces q.now.edge.now tree.now into.new.items) }
{
    match tree {
        SlabTree::Face(s, i) => {
            if !q.leaves_out(s) {
                into.push(*i)?;
            }
            Ok(())
        }
        SlabTree::Halves(s, first, second) => {
            if q.leaves_out(s) {
                return Ok(());
            }
            find(first, q, into)?;
            find(second, q, into)
        }
    }
}

/// The same, where there is a tree.
pub(crate) fn find_if(
    tree: &Option<SlabTree>,
    q: &SlabQuery,
    into: &mut Vec<u64>,
) -> Result<(), NoMemory>
    ensures { OnOk result ((faces : List MovingFace) → IsSoundIf q.now.across.now faces tree.now
        → AreFoundInIf faces q.now.edge.now tree.now into.new.items) }
{
    match tree {
        None => Ok(()),
        Some(t) => find(t, q, into),
    }
}
