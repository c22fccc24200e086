use crate::asked_shifts::AskedShifts;
use crate::open_groups::OpenGroups;
use step_choose::Settings;

/// Where a run stands between two directives, beside its mesh: the asked shifts, the settings, how many steps were taken and
/// meshes saved, and the open groups.
#[derive(Drop)]
pub struct RunState {
    pub asked: AskedShifts,
    pub set: Settings,
    pub steps: u32,
    pub saved: u32,
    pub groups: OpenGroups,
}
