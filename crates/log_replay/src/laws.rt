//! Laws of replays. Each is the contract of a function that does nothing.

ghost use Rattle.log_replay.specs.Laws.{LimitsStay, LimitsStayWithin, MeshesAreWithin, MeshesKeepLimits, PassesChangeTheMeshAlone, ReplaysGoOn};

/// The replay of lines after others goes on from where those lead.
pub fn replays_go_on()
    ensures { ReplaysGoOn }
{}

/// The lines of a pass, of a done edit and of one that is not done change the mesh of a replay alone, whatever else it holds.
pub fn passes_change_the_mesh_alone()
    ensures { PassesChangeTheMeshAlone }
{}

/// No line changes how many vertices and faces there may be: after any lines the meshes of a replay, the one so far and those at which its
/// open groups were opened, have the limits that they had, or are within those of a scale as they were; and the mesh that lines make of a
/// mesh has its limits. Every sound mesh is within the greatest.
pub fn limits_stay()
    ensures replays { LimitsStay }
    ensures meshes { MeshesKeepLimits }
    ensures within { LimitsStayWithin }
    ensures greatest { MeshesAreWithin }
{}
