//! Meshes as Wavefront OBJ texts: read, written, and what is written is read again.
#![tactic(auto)]

mod corner;
mod law;
mod list_writer;
mod parser;
mod ranking;
mod writer;

pub use law::{lists_are_read, written_is_read, written_stays_good};
pub use list_writer::obj_of_lists;
pub use parser::read_obj;
pub use ranking::{lists_by_rank, rank_of};
pub use writer::obj_of;
