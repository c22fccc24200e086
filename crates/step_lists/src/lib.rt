//! The pairs that do not pass in a step, by a neighbour list that is kept from step to step where it serves.
#![tactic(auto)]

mod ahead;
mod backoff;
mod end_positions;
mod faces;
mod kept;
mod kept_calls;
mod lengths;
mod list_of_mesh;
mod lists;
mod spread;
mod vertices;

pub use kept::KeptList;
pub use list_of_mesh::ListOfMesh;
pub use lists::StepLists;
