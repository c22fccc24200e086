//! The limits of a mesh.
ghost use Rattle.std.specs.Prelude.{◌≡◌};
ghost use Rattle.mesh_base.specs.Limits.{are_over};

use grid_base::ID_MAX;
use mesh_base::Limits;

/// Whether so many vertices and faces are more than the limits allow, or next ids so great beyond the last that may be made.
pub fn are_over(limits: Limits, vertices: u32, faces: u32, next_vertex: u32, next_face: u32) -> bool
    ensures { result ≡ are_over limits vertices faces next_vertex next_face }
{
    vertices > limits.vertices
        || faces > limits.faces
        || next_vertex > ID_MAX + 1
        || next_face > ID_MAX + 1
}
