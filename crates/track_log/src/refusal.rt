use line_text::TextFault;
use log_text::Refusal;
use motion_proof::Verdict;

/// Why a mesh, a log and what proves its motions are refused.
#[derive(Clone, Copy, Debug, PartialEq, Eq)]
pub enum LogRefusal {
    /// A file is missing or too long, or the mesh is refused, as where a mesh is tracked.
    Input(Refusal),
    /// The log's first line that is outside its grammar.
    Log(TextFault),
    /// The proof's first line that is outside its grammar.
    Proof(TextFault),
    /// The log's first line that does not fit the lines before it.
    Replay { line: u32 },
    /// What is found against the motion of a line of the log; or, with the verdict that it is no motion, the number of a motion of the
    /// proof that no line of the log tells.
    Motion { line: u32, verdict: Verdict },
}
