//! Laws of replays that store. Each is the contract of a function that does nothing.
ghost use Rattle.track_replay.specs.Laws.{HasNotNoEnding, HasNoTwoEndings, StoresAllMeshes, StoresValidMeshes, WantsAllFiles};

/// Where no number is given, a replay that comes to its end and refuses nothing has stored the files that the lines of the log name. They
/// are those that a run stored that wrote these lines: under the same names, in the same order, byte for byte.
pub fn all_meshes_are_stored()
    ensures lines { WantsAllFiles }
    ensures desk { StoresAllMeshes }
{}

/// A replay of what was given has one ending: not two, and not none.
pub fn a_replay_has_one_ending()
    ensures one { HasNoTwoEndings }
    ensures some { HasNotNoEnding }
{}

/// Each mesh that a replay stores is sound, closed and clear, whatever mesh and log it was given: `Replays` has it that what is stored
/// in whole are the first of these files.
pub fn replayed_meshes_are_valid()
    ensures { StoresValidMeshes }
{}
