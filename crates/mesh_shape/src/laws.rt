//! Laws of lists and their meshes. Each is the contract of a function that does nothing.

ghost use Rattle.mesh_shape.specs.Laws.{ClosedMeshHasNoFault, FaultlessIsSound, FaultlessIsClosed};

/// Lists have no fault exactly where they make a mesh within its limits that is closed.
pub fn faultless_is_sound_and_closed()
    ensures no_fault { ClosedMeshHasNoFault }
    ensures sound { FaultlessIsSound }
    ensures closed { FaultlessIsClosed }
{}
