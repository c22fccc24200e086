//! What may be wrong with rows.
ghost use Rattle.std.specs.Prelude.{◌≡◌};
ghost use Rattle.mesh_rows.specs.declared.faults.RowsRefusal.TheVariants as refusals;

use grid_base::NoMemory;
use mesh_base::{FaceId, VertexId};

/// What is wrong with rows, in the order in which it is looked for: the numbers, then row by row the vertices, the faces and the
/// solid vertices, and at last the balance. Places and corners are numbered from 1.
#[derive(Clone, Copy, Debug, PartialEq, Eq)]
pub enum RowsFault {
    /// More vertices than may live.
    TooManyVertices { count: u64 },
    /// More faces than may live.
    TooManyFaces { count: u64 },
    /// The id of the next vertex is 0, or more than one above `ID_MAX`.
    NextVertex { id: u32 },
    /// The same of the next face.
    NextFace { id: u32 },
    /// The id of the vertex at this place is 0, or not above the one before, or not below that of the next vertex.
    VertexOrder { place: u32 },
    /// The same of the face at this place.
    FaceOrder { place: u32 },
    /// A corner of the face that is no live vertex.
    NoVertex { face: FaceId, corner: u8 },
    /// A face with one vertex twice.
    Repeated { face: FaceId },
    /// A face, and one after it that is equal to it up to rotation.
    Doubled { first: FaceId, second: FaceId },
    /// A vertex that is to be solid, and is not live or not above the one before.
    NotSolid { v: VertexId },
    /// A side of a face between whose ends the faces do not run as often one way as the other.
    Unbalanced { from: VertexId, to: VertexId },
}

/// Why no mesh is made of rows.
#[derive(Clone, Copy)]
pub enum RowsRefusal {
    /// There was no memory, and nothing is said of the rows.
    NoMemory,
    /// This is the first thing wrong with them.
    Fault(RowsFault),
}

impl From<NoMemory> for RowsRefusal {
    ghost from_gives = { λ _ refusal. refusal ≡ refusals.NoMemory };

    fn from(_: NoMemory) -> RowsRefusal {
        RowsRefusal::NoMemory
    }
}
