//! What a pass goes by.
use edit_base::PassKind;

/// What a pass goes by.
#[derive(Clone, Copy)]
pub struct PassTerms {
    /// What it asks, and the length that it goes by.
    pub kind: PassKind,
    /// The number of time halvings of the written test, at most `DEPTH_MAX`.
    pub depth: u8,
    /// Whether its first `no` line ends it.
    pub grouped: bool,
}

/// What the candidates of a pass go by at their turns.
#[derive(Drop)]
pub struct Turns<'a, C> {
    /// What chooses the edit that is asked, if any.
    pub by: &'a C,
    /// The number of time halvings of the written test, at most `DEPTH_MAX`.
    pub depth: u8,
    /// Whether the first `no` line ends the pass.
    pub grouped: bool,
}
