use edit_base::PassKind;
use grid_base::{Items, Shift};
use mesh_plain::FieldName;

/// What one line of a step text asks for.
#[derive(Debug, Drop, PartialEq, Eq)]
pub enum Directive {
    /// Test motions to this depth of time halving from here on.
    SetDepth(u8),
    /// Try so many impulse passes in each step from here on.
    SetPasses(u8),
    /// Whether impact zones are tried in each step from here on.
    SetZones(bool),
    /// Try so many halvings of the asked shifts in each step from here on.
    SetHalvings(u8),
    /// Add the shift to the asked shift of one vertex.
    ShiftOne { v: u32, by: Shift },
    /// Add the shift to the asked shift of every live vertex that is not solid.
    ShiftAll { by: Shift },
    /// Add what the field of this name answers at each live vertex that is not solid to the vertex's asked shift.
    Drive { name: FieldName },
    /// Mark a vertex as solid from here on, and ask no shift of it.
    Solid { v: u32 },
    /// Take the asked shifts.
    Step,
    /// Make a pass over the edges, the pairs of edges or the vertices of the mesh.
    Pass(PassKind),
    /// Make a pass over the edges of the mesh by the sizing.
    Fit,
    /// Store the mesh as it is.
    Save,
    /// Open a group of directives, which is kept whole or taken back whole.
    Group,
    /// Close the group that was opened last.
    Close,
}

/// A directive and its line, counted from 1.
#[derive(Debug, Drop, PartialEq, Eq)]
pub struct Placed {
    /// The line, from 1.
    pub line: u32,
    /// What it asks for.
    pub what: Directive,
}

/// The directives of a step text, in the order of their lines.
pub type Directives = Items<Placed>;
