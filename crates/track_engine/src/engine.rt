ghost use Rattle.std.specs.Prelude.{◌≡◌, [], IfOk};
ghost use Rattle.track_engine.specs.State.{unsaved};
ghost use Rattle.track_engine.specs.Engines.{state_in};
ghost use Rattle.track_engine.specs.Shifting.{asks};

use crate::asked_shifts::AskedShifts;
use crate::open_groups::OpenGroups;
use crate::run_state::RunState;
use crate::shift_sums::asks;
use grid_base::NoMemory;
use mesh_base::Surface;
use std::alloc::Global;
use step_choose::Settings;
use step_lists::StepLists;

/// A mesh with what directives have asked of it so far, and what is kept so that the pairs of a step are found sooner. No answer
/// depends on the last.
#[derive(Drop)]
pub struct Engine<S> {
    pub mesh: S,
    pub run: RunState,
    pub near: StepLists,
}

impl<S: Surface + Drop> Engine<S> {
    /// An engine of the mesh, of whose vertices nothing is asked; its settings are the first, no mesh is saved, and no group is open.
    pub fn new(alloc: Global, mesh: S) -> Result<Engine<S>, NoMemory>
        ensures state { IfOk result
            (λ engine. state_in S.mesh S.kept engine ≡ unsaved (S.mesh mesh)) }
        ensures mesh { IfOk result (λ engine. engine.mesh ≡ mesh) }
        ensures groups { IfOk result (λ engine. engine.run.groups ≡ []) }
    {
        let run = RunState {
            asked: AskedShifts::none(alloc),
            set: Settings::at_first(),
            steps: 0,
            saved: 0,
            groups: OpenGroups::none(alloc),
        };
        Ok(Engine {
            mesh,
            run,
            near: StepLists::none(),
        })
    }
}

impl<S: Surface> Engine<S> {
    /// Whether a vertex is asked to move, as no step has moved it yet. Takes no memory.
    pub fn asks(&self) -> bool
        ensures { result ≡ asks (state_in S.mesh S.kept self.now).asked }
    {
        asks(&self.mesh, &self.run.asked)
    }
}
