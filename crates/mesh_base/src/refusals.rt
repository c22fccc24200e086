/// Which of the files that a command reads.
#[derive(Clone, Copy, Debug, PartialEq, Eq)]
pub enum FileWord {
    /// The mesh.
    Mesh,
    /// The steps.
    Steps,
    /// A log.
    Log,
    /// The proof of a log.
    Proof,
}

/// Why a directive is refused, with the least vertex that it is refused for, if it is refused for one.
#[derive(Clone, Copy, Debug, PartialEq, Eq)]
pub enum UseWhy {
    /// A directive names a vertex that doesn't live.
    NoVertex { v: u32 },
    /// The summed shift has a component above its limit.
    ShiftRange { v: u32 },
    /// The asked end of a step is outside the box.
    Box { v: u32 },
    /// A drive names no field.
    NoField,
    /// A shift names a solid vertex.
    Solid { v: u32 },
}
