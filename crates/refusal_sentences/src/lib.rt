//! Why a job did not end as done, and what may be amiss in one that did, in sentences for people. They are made from a
//! refusal and from the texts that it speaks of.
#![tactic(auto)]

mod desk_reasons;
mod face_lines;
mod finer_numbers;
mod groups;
mod log_end;
mod log_reasons;
mod long_numbers;
mod manifold;
mod mesh_reasons;
mod other_reasons;
mod overwritten;
mod places;
mod proof_reasons;
mod shape_reasons;
mod step_reasons;
mod terminal;
mod warnings;
mod word_reasons;

pub use desk_reasons::{
    long_card_reason, long_reason, missing_reason, output_reason, trouble_reason,
};
pub use finer_numbers::has_finer_number;
pub use log_end::log_end_warning;
pub use log_reasons::{log_text_reason, replay_reason};
pub use long_numbers::has_long_number;
pub use manifold::{manifold_warning, surface_facts};
pub use mesh_reasons::mesh_text_reason;
pub use other_reasons::{off_text_reason, ply_text_reason};
pub use overwritten::{
    output_read_reason, output_stored_reason, overwriting_warning, prefix_warning,
};
pub use proof_reasons::{Unproved, motion_reason, proof_text_reason};
pub use shape_reasons::{meeting_reason, shape_reason};
pub use step_reasons::{gone_reason, step_text_reason, use_reason};
pub use terminal::plain;
pub use warnings::{is_inside_out, rounding_warning};
pub use word_reasons::words_reason;
