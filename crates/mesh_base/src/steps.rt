use crate::ids::VertexId;
use grid_base::Shift;

/// The shift of a vertex.
#[derive(Clone, Copy, Debug, PartialEq, Eq)]
pub struct ShiftOf {
    pub v: VertexId,
    pub by: Shift,
}

/// How a step is taken.
#[derive(Clone, Copy, Debug, PartialEq, Eq)]
pub enum How {
    /// By the asked shifts.
    Whole,
    /// By the shifts after so many impulse passes.
    Impulse { passes: u8 },
    /// By the shifts of so many rounds of impact zones.
    Zones { rounds: u32 },
    /// By the asked shifts, halved so many times.
    Halved { times: u8 },
    /// Not at all.
    Zero,
}
