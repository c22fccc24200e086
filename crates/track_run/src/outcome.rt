use line_text::TextFault;
use mesh_base::{FileWord, PairName, ShapeFault, UseWhy};
use motion_proof::Verdict;

/// How a run ended.
#[derive(Clone, Copy, Debug, PartialEq, Eq)]
pub enum Outcome {
    /// What the words ask for was done, to its end.
    Done,
    /// There was no memory.
    NoMemory,
    /// The words are of no listed form. Nothing is written or stored.
    Usage,
    /// The desk failed.
    DeskFault,
    /// The sink failed.
    SinkFault,
    /// A file is longer than a text may be; so many bytes of it were seen.
    TooLong { file: FileWord, seen: u64 },
    /// The mesh file's first line that is outside its grammar.
    MeshText(TextFault),
    /// What is wrong with the mesh that was read, at its least place.
    MeshShape(ShapeFault),
    /// The first edge and face of the mesh that meet.
    MeshMeets(PairName),
    /// The step file's first line that is outside its grammar.
    StepText(TextFault),
    /// A directive that is refused, by its line.
    StepUse { line: u32, why: UseWhy },
    /// There is no such file.
    Missing { file: FileWord },
    /// The log's first line that is outside its grammar.
    LogText(TextFault),
    /// The log's first line that does not fit the lines before it.
    LogUse { line: u32 },
    /// The proof's first line that is outside its grammar.
    ProofText(TextFault),
    /// What is found against the motion of a line of the log; or, with the verdict that it is no motion, the number of a motion of the
    /// proof that no line of the log tells.
    ProofBad { line: u32, verdict: Verdict },
}

impl Outcome {
    ghost use Rattle.std.specs.Prelude.{◌≡◌};
    ghost use Rattle.track_run.specs.Status.{status_of};

    /// The exit status.
    pub fn status(&self) -> u8
        ensures { result ≡ status_of self.now }
    {
        match self {
            Outcome::Done => 0,
            Outcome::NoMemory => 1,
            Outcome::Usage => 2,
            Outcome::DeskFault => 3,
            Outcome::SinkFault => 4,
            Outcome::TooLong { .. } => 5,
            Outcome::MeshText(_) => 6,
            Outcome::MeshShape(_) => 7,
            Outcome::MeshMeets(_) => 8,
            Outcome::StepText(_) => 9,
            Outcome::StepUse { .. } => 10,
            Outcome::Missing { .. } => 11,
            Outcome::LogText(_) => 12,
            Outcome::LogUse { .. } => 13,
            Outcome::ProofText(_) => 14,
            Outcome::ProofBad { .. } => 15,
        }
    }
}
