//! The engine: a mesh, the shifts that are asked of its vertices, and the settings, which directives change one after another.
//! Each directive writes its lines to a log, from which all meshes can be replayed, and saves meshes to a desk. Directives
//! between `group` and `close` are kept whole or taken back whole, and a solid vertex does not move.
//!
//! The tracker is that of Brochu and Bridson, "Robust topological operations for dynamic explicit surfaces" (2009).
#![tactic(auto)]

mod asked_shifts;
mod directive_list;
mod directives;
mod edits;
mod engine;
mod field_shifts;
mod groups;
pub mod laws;
mod lines;
mod mesh_files;
mod open_group;
mod open_groups;
mod placement;
mod run_state;
mod shift_sums;
mod sizing_pass;
mod solids;
mod step_lines;
mod target;
mod terms;
mod told;

pub use asked_shifts::AskedShifts;
pub use engine::Engine;
pub use lines::finish;
pub use mesh_files::file_name;
pub use open_group::OpenGroup;
pub use open_groups::OpenGroups;
pub use run_state::RunState;
pub use shift_sums::asked_in;
pub use target::Target;
pub use terms::RunTerms;
pub use told::StepTold;
