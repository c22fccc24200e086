use edit_base::{Asked, Change, PassKind, Why};
use grid_base::Items;
use line_text::TextFault;
use mesh_base::{FileWord, How, Ids, PairName, ShapeFault, ShiftOf, UseWhy, VertexId};

/// Why a run was refused: a file can't be read or is not as it has to be, or a directive can't be run.
#[derive(Clone, Copy, Debug, PartialEq, Eq)]
pub enum Refusal {
    /// A file has more bytes than may be read, `seen` or more of them.
    Long { file: FileWord, seen: u64 },
    /// A file isn't there.
    Missing { file: FileWord },
    /// A line of the mesh file is outside its grammar.
    Mesh(TextFault),
    /// The mesh file's points and faces are no closed mesh.
    Shape(ShapeFault),
    /// The mesh isn't clear; its first pair that meets.
    Meets(PairName),
    /// A line of the step file is outside its grammar.
    Steps(TextFault),
    /// A directive, by its line, can't be run.
    StepUse { line: u32, why: UseWhy },
}

/// Ids that vertices, or faces, take in turn, by rising id, and the one that the next of them takes.
#[derive(Drop)]
pub struct NewIds {
    pub next: u32,
    pub ids: Items<u32>,
}

/// A line of a log.
#[derive(Drop)]
pub enum LogLine {
    /// The first line, with the version of the lines' spelling.
    First { version: u8 },
    /// Mesh `k`, with so many vertices and faces, is stored next.
    Mesh { k: u32, vertices: u32, faces: u32 },
    /// Step `k` begins, counted from 1.
    Step { k: u32 },
    /// The live vertices take these ids.
    Vertices(NewIds),
    /// The live faces take these ids.
    Faces(NewIds),
    /// A vertex is solid from here on.
    Solid { v: VertexId },
    /// A pair of the asked step that doesn't pass.
    Hit(PairName),
    /// The vertices of a block of the round of impact zones that is taken, by rising id.
    Block(Ids),
    /// A shift of the step that is taken.
    Move(ShiftOf),
    /// The step takes effect.
    Moved(How),
    /// A pass begins.
    Pass(PassKind),
    /// A pass by the sizing begins.
    PassFit,
    /// An edit is done.
    Did(Change),
    /// An edit that was asked for isn't done.
    No { what: Asked, why: Why },
    /// A group of directives begins.
    Group,
    /// The group that began last ends, and is kept whole or taken back whole.
    Close { kept: bool },
    /// The run is refused, and ends here.
    Refused(Refusal),
    /// The run ends as it should.
    End,
}

/// The lines of a log, in order.
pub type Log = Items<LogLine>;
