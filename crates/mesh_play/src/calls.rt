use grid_base::{Extent, Items, Point};
use mesh_base::{FaceId, FaceIds, VertexId};

/// A call of a surface.
#[derive(Clone, Copy)]
pub enum Call {
    /// Asks about the mesh.
    Ask { question: Question },
    /// Changes the mesh.
    Make { act: Act },
    /// Makes ready for many questions after the faces near extents.
    Index,
    /// Makes a mark.
    MakeMark,
    /// Goes back to a mark, which is named by its place, from 0, among those that were made and not taken back. The return
    /// takes back this mark and those made after it.
    BackTo { nth: usize },
    /// Gives up what is kept, and so takes back all marks.
    Settle,
}

/// A call that asks about the mesh.
#[derive(Clone, Copy)]
pub enum Question {
    CountVertices,
    CountFaces,
    NextVertex,
    NextFace,
    VertexAfter { v: u32 },
    FaceAfter { f: u32 },
    PointOf { v: VertexId },
    IsSolid { v: VertexId },
    CornersOf { f: FaceId },
    CountRuns { u: VertexId, v: VertexId },
    RunFace { u: VertexId, v: VertexId, nth: u32 },
    FacesAt { v: VertexId },
    FacesNear { at: Extent },
}

/// A call that changes the mesh.
#[derive(Clone, Copy)]
pub enum Act {
    AddVertex { p: Point },
    AddFace { c: [VertexId; 3] },
    DropFace { f: FaceId },
    DropVertex { v: VertexId },
    Place { v: VertexId, p: Point },
    MakeSolid { v: VertexId },
}

/// What a call answers.
#[derive(Drop)]
pub enum Answer {
    /// It is done, and there is nothing to tell.
    Done,
    /// Nothing was added, since the mesh is full.
    Full,
    /// A number of vertices, faces or runs, or an id that comes next.
    Number { n: u32 },
    /// Whether it is so.
    Truth { holds: bool },
    /// The vertex, if there is one.
    VertexFound { v: Option<VertexId> },
    /// The face, if there is one.
    FaceFound { f: Option<FaceId> },
    /// Where the vertex stands, if it lives.
    PointFound { p: Option<Point> },
    /// The corners of the face, if it lives.
    CornersFound { c: Option<[VertexId; 3]> },
    /// The faces at the vertex, or near the extent.
    FacesFound { faces: FaceIds },
    /// The vertex that was made.
    VertexMade { v: VertexId },
    /// The face that was made.
    FaceMade { f: FaceId },
}

/// Answers, in the order of the calls.
pub type Answers = Items<Answer>;
