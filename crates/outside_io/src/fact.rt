//! What a run lets those know who watch it.

/// What a line of a log tells, as far as those look who watch it.
#[derive(Clone, Copy, Debug, PartialEq, Eq)]
pub enum LineKind {
    /// That a step begins.
    Step,
    /// That a group is opened.
    Group,
    /// That the innermost group is kept.
    Kept,
    /// That the innermost group is taken back.
    Undone,
    /// That a collapse took this vertex away.
    Gone { v: u32 },
    /// Something else.
    Other,
}

/// What may be amiss in the surface of a mesh.
#[derive(Clone, Copy, Debug, PartialEq, Eq)]
pub struct SurfaceFacts {
    /// Whether the mesh has no vertex.
    pub is_empty: bool,
    /// Whether the volume that its faces enclose is below zero.
    pub is_inside_out: bool,
    /// How many edges are crowded: more than one face runs along them one way.
    pub crowded: u64,
    /// How many faces have an opposite: a face of the same corners the other way round.
    pub opposite: u64,
}

/// How the directives of a run ended, all of which were done.
#[derive(Clone, Copy, Debug, PartialEq, Eq)]
pub struct Ending {
    /// Whether there was none.
    pub is_empty: bool,
    /// Whether something was moved or edited after the last mesh was saved, so that no mesh that is stored has it.
    pub is_unsaved: bool,
    /// Whether shifts are requested that no step has taken.
    pub asks_in_vain: bool,
    /// What may be amiss in the mesh that was stored last, where it was still at hand and there was memory to look at it.
    pub surface: Option<SurfaceFacts>,
}

/// What a run lets those know who watch it, beside the bytes that it writes. Nothing that is written, stored or answered depends on who
/// hears it.
#[derive(Clone, Copy, Debug, PartialEq, Eq)]
pub enum Fact {
    /// So many lines of a log were taken, of work that writes only at its end.
    Taken { lines: u32 },
    /// A line of a log was written, whole.
    Line(LineKind),
    /// All directives were done.
    Ended(Ending),
}
