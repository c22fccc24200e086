//! The faces among which a check looks for a pair that is not as required.
ghost use Rattle.edit_check.specs.Neighbourhood.{HaveNoneApart};

use crate::boxed::BoxedFace;
use crate::terms::Terms;
use box_tree::SmallBox;

/// The faces near a box that has each touched face, and the touched ones among them. Where an edge of the faces is apart
/// from the box, none of its pairs is to be found.
#[derive(Clone, Copy)]
pub(crate) struct Neighbourhood<'a> {
    pub(crate) terms: Terms<'a>,
    pub(crate) reach: SmallBox,
    pub(crate) faces: &'a [BoxedFace],
    pub(crate) touched: &'a [BoxedFace],
    ghost apart: { HaveNoneApart terms reach faces.now touched.now faces.now },
}
