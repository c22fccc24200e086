//! What the answers of a tree mean. Each is the contract of a function that does nothing.

ghost use Rattle.std.specs.Prelude.{◌≡◌};
ghost use Rattle.grid_base.specs.declared.Extent.{Extent};
ghost use Rattle.box_tree.specs.Overlapping.{LabelledBoxes, overlapping, overlapping_apart, AnswersRise, AnswersHaveItemsApart};

/// The answer to a question rises, and has exactly the items whose boxes have a common point with the one asked for and
/// neither of the two labels.
pub fn overlapping_items_have_neither_label()
    ensures rising { AnswersRise }
    ensures items { AnswersHaveItemsApart }
{}

/// Where no label is named, none is left out.
pub fn no_label_leaves_none_out()
    ensures { (m : LabelledBoxes) (at : Extent) → overlapping_apart m at 0 0 ≡ overlapping m at }
{}
