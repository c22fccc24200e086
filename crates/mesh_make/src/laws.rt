//! What holds of the generated job. Each law is the contract of a function that does nothing.

ghost use Rattle.std.specs.Prelude.{ℕ, ◌≡◌, ◌*◌, ◌↔◌, length};
ghost use Rattle.mesh_base.specs.Mesh.{IsLiveVertex};
ghost use Rattle.mesh_base.specs.Valid.{IsValidSurface};
ghost use Rattle.step_text.specs.Ranges.{IsFrom, AreInRange};
ghost use Rattle.mesh_make.specs.Cubes.{IsRow, cubes_lists, cubes_mesh};
ghost use Rattle.mesh_make.specs.CubeSteps.{moved_along, cubes_steps};
ghost use Rattle.mesh_make.specs.Laws.{HasNoFault, VerticesAreNumbered, ShiftsMoveAsSaid};

/// The cubes have eight vertices and twelve faces each. Their lists are of good shape, and make a valid surface: a mesh
/// within its laws and limits that is closed, and no edge of which meets a face that shares no vertex with it.
pub fn cubes_make_a_valid_surface()
    ensures points { (n : ℕ) → length (cubes_lists n).points ≡ 8 * (n * n * n) }
    ensures faces { (n : ℕ) → length (cubes_lists n).faces ≡ 12 * (n * n * n) }
    ensures vertices { VerticesAreNumbered }
    ensures shape { (n : ℕ) → IsRow n → HasNoFault (cubes_lists n) }
    ensures surface { (n : ℕ) → IsRow n → IsValidSurface (cubes_mesh n) }
{}

/// Each shift of the job moves by what is said, which is from 1 to 9 along each axis.
pub fn cubes_move_a_little()
    ensures by { ShiftsMoveAsSaid }
    ensures little { (key step number axis : ℕ) → IsFrom 1 9 (moved_along key step number axis) }
{}

/// The directives of the job are within their limits: ids are from 1 to the greatest id, and the length is below its limit.
pub fn cubes_steps_are_in_range()
    ensures { (n key : ℕ) → IsRow n → AreInRange (cubes_steps n key) }
{}
