use thiserror::Error;

/// Why nothing was added to a mesh.
#[derive(Clone, Copy, Debug, PartialEq, Eq, Error)]
pub enum AddFault {
    /// Memory is wanting.
    #[error("out of memory")]
    NoMemory = 1,
    /// So many of the kind are live, or so many ids of the kind are given, as may be.
    #[error("the mesh is full")]
    Full = 2,
}

/// What is wrong with lists of points and faces, in the order in which it is looked for, with its least place.
/// Vertices, faces and corners are numbered from 1.
#[derive(Clone, Copy, Debug, PartialEq, Eq)]
pub enum ShapeFault {
    /// More vertices than may live.
    TooManyVertices { count: u64 },
    /// More faces than may live.
    TooManyFaces { count: u64 },
    /// A corner that is no vertex.
    NoVertex { face: u32, corner: u8 },
    /// A face with one vertex twice.
    Repeated { face: u32 },
    /// Two faces that are equal up to rotation.
    Doubled { first: u32, second: u32 },
    /// Two vertices between which the faces do not run as often one way as the other.
    Unbalanced { from: u32, to: u32 },
}

/// Why lists were not found to be of good shape.
#[derive(Clone, Copy, Debug, PartialEq, Eq)]
pub enum ShapeRefusal {
    /// Memory is wanting, and nothing is said of the lists.
    NoMemory,
    /// The lists have this fault.
    Shape(ShapeFault),
}
