//! A mesh with a journal: marks take no memory, and a return undoes what was done since.
#![tactic(auto)]

mod boxes;
mod entries;
mod face_boxes;
mod index;
mod journal;
mod mesh;
mod near;
mod undoable;

pub use journal::Journal;
pub use mesh::JournalMesh;
pub use undoable::Undoable;
