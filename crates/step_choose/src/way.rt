use mesh_base::{How, Shifts};
use step_zones::Blocks;

/// A way in which a step can be taken.
#[derive(Drop)]
pub(crate) struct StepWay {
    pub how: How,
    pub taken: Shifts,
    pub blocks: Blocks,
}
