//! The pinch of a vertex at which several fans of faces meet.
#![tactic(auto)]

mod changes;
mod copy_points;
pub mod laws;
mod operation;
mod vertex_fans;

pub use changes::apply_pinch;
pub use copy_points::{copies_for, fan_point};
pub use operation::{pinch, put_pinch};
pub use vertex_fans::{Fan, Fans, fan_count, fans};
