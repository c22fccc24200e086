use crate::blocks::Blocks;
use mesh_base::Shifts;

/// A zone round in which no pair fails.
#[derive(Drop)]
pub struct Zoned {
    /// Its number, from 0.
    pub rounds: u32,
    /// What each vertex moves by in it.
    pub taken: Shifts,
    /// Its blocks of two or more vertices.
    pub blocks: Blocks,
}
