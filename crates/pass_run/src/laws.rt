//! Laws of passes. Each is the contract of a function that does nothing.

ghost use Rattle.pass_run.specs.Promises.{LinesTellTheMesh, PassesKeepTheMesh, EditsTellTheMesh, EditsKeepTheMesh};
ghost use Rattle.pass_run.specs.Again.{PassesAreAgain, EditsAreAgain};
ghost use Rattle.pass_run.specs.Edits.{EditsAreTold};

/// The lines of a pass, replayed one after another from its opening mesh, give the mesh that it leaves, and change nothing else
/// of the replay.
pub fn lines_tell_the_mesh()
    ensures { LinesTellTheMesh }
{}

/// A pass over a sound, closed and clear mesh: each edit that its lines tell as done is safe in the mesh that the lines before
/// it make, which means that its motion is clear; after each line the mesh is sound, closed and clear; and so is the mesh that
/// the pass leaves.
pub fn passes_keep_the_mesh()
    ensures { PassesKeepTheMesh }
{}

/// A pass over any mesh, tested to a depth within the limit: each edit that its lines tell as done, asked for again in the mesh
/// that the lines before it make, and tested to the greatest depth, is done with the same ids, points and turn.
pub fn edits_of_passes_are_done_again()
    ensures { PassesAreAgain }
{}

/// Each of edits that are asked for, up to the one that ends them, has one line, that of its answer, and there is no other line.
pub fn edits_have_their_lines()
    ensures { EditsAreTold }
{}

/// The lines of edits that are asked for, replayed one after another from the mesh where they begin, give the mesh that they leave,
/// and change nothing else of the replay.
pub fn edits_tell_the_mesh()
    ensures { EditsTellTheMesh }
{}

/// Edits that are asked for of a sound, closed and clear mesh, by whatever ids: each that is told as done is safe in the mesh that
/// the lines before it make, which means that its motion is clear; after each line the mesh is sound, closed and clear.
pub fn edits_keep_the_mesh()
    ensures { EditsKeepTheMesh }
{}

/// Each edit that was asked for and is told as done, tested to a depth within the limit, asked for again in the mesh that the lines
/// before it make, and tested to the greatest depth, is done with the same ids, points and turn. So the lines fit a log.
pub fn asked_edits_are_done_again()
    ensures { EditsAreAgain }
{}
