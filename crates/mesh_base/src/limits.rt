ghost use Rattle.std.specs.Prelude.{◌≡◌};
ghost use Rattle.mesh_base.specs.Limits.{limits_of, text_most};

use grid_base::{
    FACES_MAX, STANDARD_FACES, STANDARD_TEXT, STANDARD_VERTICES, TEXT_MAX, VERTICES_MAX,
};

/// How many vertices and how many faces of a mesh may be live at once.
#[derive(Clone, Copy)]
pub struct Limits {
    pub vertices: u32,
    pub faces: u32,
}

/// How large the meshes and the texts of a job may be.
#[derive(Clone, Copy, Debug, PartialEq, Eq)]
pub enum Scale {
    /// Meshes of 65,536 vertices and 131,072 faces, and texts of 64 MiB.
    Standard,
    /// Meshes of 4,194,304 vertices and 8,388,608 faces, and texts of 2,147,483,647 bytes.
    Large,
}

impl Scale {
    /// The limits of a mesh.
    pub fn limits(self) -> Limits
        ensures { result ≡ limits_of self }
    {
        match self {
            Scale::Standard => Limits {
                vertices: STANDARD_VERTICES,
                faces: STANDARD_FACES,
            },
            Scale::Large => Limits {
                vertices: VERTICES_MAX,
                faces: FACES_MAX,
            },
        }
    }

    /// The greatest length of a text in bytes.
    pub fn text_most(self) -> usize
        ensures { result ≡ text_most self }
    {
        match self {
            Scale::Standard => STANDARD_TEXT,
            Scale::Large => TEXT_MAX,
        }
    }
}
