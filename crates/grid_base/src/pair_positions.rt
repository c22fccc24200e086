use crate::Wide;

/// The positions of an edge from `a` to `b`, and of a triangle with the corners `c`, `d` and `e`.
// It has no ghost field, as `Wide` has none.
#[derive(Clone, Copy)]
pub struct Positions {
    pub a: Wide,
    pub b: Wide,
    pub c: Wide,
    pub d: Wide,
    pub e: Wide,
}
