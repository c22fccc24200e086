//! A tracked surface that is held between two calls of its owner: an engine, and the lines that it has told since they were last taken.
//!
//! The tracker is that of Brochu and Bridson, "Robust topological operations for dynamic explicit surfaces" (2009).
#![tactic(auto)]

mod asked;
mod band_pass;
mod band_table;
mod drops;
mod edits;
mod events;
mod fold_closure;
mod folds;
mod given;
mod given_edits;
mod group_end;
mod held;
mod id_lines;
mod log_head;
mod new_tracker;
mod numbered_tracker;
mod queries;
mod renumbering;
mod steps;

pub use asked::{shift_all_directive, shift_directive};
pub use band_table::{
    BandTable, Cells, GivenBand, TableFault, cells_have_their_bands, ends_are_nearest,
};
pub use events::{Event, Events, events_of};
pub use folds::folds_ask_in_range;
pub use given::{GivenFace, GivenPoint, NamedFace, NamedPoint};
pub use given_edits::{
    AskedEdits, GivenEdit, ToldAnswer, answer_told, edge_ends, edit_asked, edits_asked,
    put_answers, rows_ask_in_range,
};
pub use group_end::Closing;
pub use held::Held;
pub use log_head::dense_ids_are_those_of_a_file;
pub use new_tracker::{MakeFault, MakeRefusal, track};
pub use numbered_tracker::{NumberedFault, NumberedRefusal, track_numbered};
pub use queries::{
    NamedFaces, NamedPoints, beside_edge, named_faces, named_points, put_rows, solid_vertices,
    star_of,
};
