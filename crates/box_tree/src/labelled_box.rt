use crate::{Labels, SmallBox};

/// A box along the axes, and the numbers that it is known by.
#[derive(Clone, Copy)]
pub struct LabelledBox {
    pub at: SmallBox,
    pub labels: Labels,
}
