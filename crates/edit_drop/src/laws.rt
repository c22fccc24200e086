//! Laws of dropped components. Each is the contract of a function that does nothing.
ghost use Rattle.edit_drop.specs.Laws.{NoneIsLeft, CollapsesAreDoneAgain};

/// Where there is no reason against it, the collapses leave none of the vertices of the component. Asked for one after another, without those
/// that were tried and refused between them, each is done, and they leave the same mesh.
pub fn dropped_components_are_gone()
    ensures gone { NoneIsLeft }
    ensures again { CollapsesAreDoneAgain }
{}
