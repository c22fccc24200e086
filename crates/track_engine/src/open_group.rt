use crate::asked_shifts::AskedShifts;
use mesh_base::Mark;

/// A group of directives that is open: a mark of the mesh at its opening, what was asked of its vertices then, and whether it has
/// failed since.
#[derive(Drop)]
pub struct OpenGroup {
    pub mark: Mark,
    pub asked: AskedShifts,
    pub failed: bool,
}
