//! What all edits of a mesh share: what is asked, on what it is tested, what it answers, and an edge with the faces beside it.
#![tactic(auto)]

mod answers;
mod asked;
mod edge_faces;
pub mod laws;
mod scaffold;

pub use answers::{Change, Copies, CopyAt, Edit, Why};
pub use asked::{Asked, PassKind};
pub use edge_faces::{EdgeFaces, edge_beside, is_crowded, is_edge};
pub use scaffold::{Move, Touch};
