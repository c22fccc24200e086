//! What the functions answer.

/// It is done.
pub(crate) const DONE: u32 = 0;
/// There was no memory.
pub(crate) const NO_MEMORY: u32 = 1;
/// It was refused, for the reason that the fault tells.
pub(crate) const REFUSED: u32 = 2;
/// An argument is beyond its limit, or a buffer too short.
pub(crate) const RANGE: u32 = 3;
/// The handle holds no tracker.
pub(crate) const EMPTY: u32 = 4;
/// An earlier directive had no memory: the tracker can be read and freed, and no more.
pub(crate) const STOPPED: u32 = 5;
/// So many steps were taken as may be.
pub(crate) const SPENT: u32 = 6;
/// A group is open.
pub(crate) const GROUPED: u32 = 7;
