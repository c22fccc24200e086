// Why a job did not end as done, in one sentence.
ghost use Rattle.std.specs.Prelude.{◌≤◌, length};
ghost use Rattle.grid_base.specs.declared.TheConstants.{TEXT_MAX};

use line_text::TextFault;
use mesh_base::{PairName, Scale, ShapeFault, UseWhy};
use motion_proof::Verdict;
use outside_io::Trouble;
use refusal_sentences::{
    Unproved, gone_reason, log_text_reason, long_reason, meeting_reason, mesh_text_reason,
    missing_reason, motion_reason, off_text_reason, output_reason, ply_text_reason,
    proof_text_reason, replay_reason, shape_reason, step_text_reason, trouble_reason, use_reason,
    words_reason,
};
use std::alloc::{AllocError, Global};
use std::io;
use track_input::{CUBES_MAX, Format};
use track_run::Outcome;
use user_files::{EndedVertices, Names, Texts, Work, lists_in, name_of, rounded};

// What is wrong with a line of the mesh file.
fn mesh_sentence(
    alloc: Global,
    names: Names<'_>,
    fault: TextFault,
    texts: &Texts,
) -> Result<String, AllocError> {
    let bytes = texts.first(names.mesh);
    match names.format {
        Format::Obj => mesh_text_reason(alloc, names.mesh, bytes, names.decimals, fault),
        Format::Off => off_text_reason(alloc, names.mesh, bytes, names.decimals, fault),
        Format::Ply => ply_text_reason(alloc, names.mesh, bytes, names.decimals, fault),
    }
}

// What is wrong with a line of the step file.
fn step_sentence(
    alloc: Global,
    names: Names<'_>,
    fault: TextFault,
    texts: &Texts,
) -> Result<String, AllocError> {
    let bytes = texts.last(names.other);
    step_text_reason(alloc, names.other, bytes, names.decimals, fault)
}

// What is wrong with a line of the log.
fn log_sentence(
    alloc: Global,
    names: Names<'_>,
    fault: TextFault,
    texts: &Texts,
) -> Result<String, AllocError> {
    let bytes = texts.last(names.other);
    log_text_reason(alloc, names.other, bytes, fault)
}

// Which line of the log does not fit.
fn replay_sentence(
    alloc: Global,
    names: Names<'_>,
    line: u32,
    texts: &Texts,
) -> Result<String, AllocError> {
    let bytes = texts.last(names.other);
    replay_reason(alloc, names.other, bytes, line)
}

// What is wrong with a line of the proof.
fn proof_sentence(
    alloc: Global,
    names: Names<'_>,
    fault: TextFault,
    texts: &Texts,
) -> Result<String, AllocError> {
    let bytes = texts.last(names.proof);
    proof_text_reason(alloc, names.proof, bytes, fault)
}

// What is found against a motion, as it is told: a pair that `prove` finds has failed.
fn finding_of(words: &[String], verdict: Verdict) -> Unproved {
    let is_prove = match words.first() {
        Some(first) => first.as_str() == "prove",
        None => false,
    };
    match verdict {
        Verdict::Accepted | Verdict::NoMotion => Unproved::NoMotion,
        Verdict::Stranger(pair) => Unproved::Stranger(pair),
        Verdict::Invalid(pair) => Unproved::Invalid(pair),
        Verdict::Missing(pair) if is_prove => Unproved::Fails(pair),
        Verdict::Missing(pair) => Unproved::Missing(pair),
    }
}

// What is found against the motion of a line of the log.
fn motion_sentence(
    alloc: Global,
    names: Names<'_>,
    line: u32,
    why: Unproved,
    texts: &Texts,
) -> Result<String, AllocError> {
    let bytes = texts.last(names.other);
    motion_reason(alloc, names.other, bytes, line, why)
}

// A sentence on the mesh, and how many of its coordinates were rounded, which may be why.
fn with_rounding(
    alloc: Global,
    names: Names<'_>,
    bytes: &[u8],
    said: String,
) -> Result<String, AllocError>
    requires { length bytes.now ≤ TEXT_MAX }
{
    match rounded(alloc, names.format, bytes, names.decimals)? {
        Some(rounded) => format!(in alloc; "{said}; {rounded}"),
        None => Ok(said),
    }
}

// What is wrong with the shape of the mesh.
fn shape_sentence(
    alloc: Global,
    names: Names<'_>,
    fault: ShapeFault,
    texts: &Texts,
) -> Result<String, AllocError> {
    let bytes = texts.first(names.mesh);
    let lists = lists_in(alloc, names.format, bytes, names.decimals);
    let said = shape_reason(
        alloc,
        names.scale,
        names.mesh,
        names.format,
        bytes,
        lists.as_ref(),
        fault,
    )?;
    with_rounding(alloc, names, bytes, said)
}

// Which edge and face of the mesh meet.
fn meeting_sentence(
    alloc: Global,
    names: Names<'_>,
    pair: PairName,
    texts: &Texts,
) -> Result<String, AllocError> {
    let bytes = texts.first(names.mesh);
    let said = meeting_reason(alloc, names.mesh, pair)?;
    with_rounding(alloc, names, bytes, said)
}

// Why a directive is refused: of a vertex that was there, which line of the log took it away, if one can be told.
fn use_sentence(
    alloc: Global,
    names: Names<'_>,
    line: u32,
    why: UseWhy,
    texts: &Texts,
    ended: &EndedVertices,
) -> Result<String, AllocError> {
    if let UseWhy::NoVertex { v } = why {
        let by = ended.line_of(v);
        if by.is_some() || v > 0 && was_read(alloc, names, v, texts) {
            return gone_reason(alloc, names.other, line, v, by);
        }
    }
    use_reason(alloc, names.other, line, why)
}

// Whether a vertex is one of the mesh that was read.
fn was_read(alloc: Global, names: Names<'_>, v: u32, texts: &Texts) -> bool {
    match lists_in(alloc, names.format, texts.first(names.mesh), names.decimals) {
        Some(lists) => v as usize <= lists.points.len(),
        None => false,
    }
}

/// What a run has seen: the texts that it read, the vertices that its log ended, the last fault of the system's files, and what standard
/// output refused.
#[derive(Clone, Copy)]
pub(crate) struct Seen<'a> {
    pub(crate) texts: &'a Texts,
    pub(crate) ended: &'a EndedVertices,
    pub(crate) trouble: Option<&'a Trouble>,
    pub(crate) refused: Option<io::Error>,
}

/// Says in one sentence why a run for these words ended as it did, where it is not done, from what it has seen.
pub(crate) fn explain(
    alloc: Global,
    words: &[String],
    names: Option<Names<'_>>,
    outcome: Outcome,
    seen: &Seen<'_>,
) -> Result<String, AllocError> {
    let Seen {
        texts,
        ended,
        trouble,
        refused,
    } = *seen;
    let names = names.unwrap_or(Names {
        mesh: "the mesh",
        other: "the other file",
        proof: "the proof",
        format: Format::Obj,
        prefix: None,
        to: None,
        stored: Format::Obj,
        scale: Scale::Standard,
        decimals: 0,
        work: Work::Check,
    });
    match outcome {
        Outcome::Done => Ok(String::new(alloc)),
        Outcome::NoMemory => String::from_str(alloc, "there is not enough memory"),
        Outcome::Usage => words_reason(alloc, words, CUBES_MAX),
        Outcome::DeskFault => trouble_reason(alloc, trouble),
        Outcome::SinkFault => output_reason(alloc, refused),
        Outcome::TooLong { file, .. } => long_reason(alloc, names.scale, name_of(names, file)),
        Outcome::MeshText(fault) => mesh_sentence(alloc, names, fault, texts),
        Outcome::MeshShape(fault) => shape_sentence(alloc, names, fault, texts),
        Outcome::MeshMeets(pair) => meeting_sentence(alloc, names, pair, texts),
        Outcome::StepText(fault) => step_sentence(alloc, names, fault, texts),
        Outcome::StepUse { line, why } => use_sentence(alloc, names, line, why, texts, ended),
        Outcome::Missing { file } => missing_reason(alloc, name_of(names, file)),
        Outcome::LogText(fault) => log_sentence(alloc, names, fault, texts),
        Outcome::LogUse { line } => replay_sentence(alloc, names, line, texts),
        Outcome::ProofText(fault) => proof_sentence(alloc, names, fault, texts),
        Outcome::ProofBad { line, verdict } => {
            motion_sentence(alloc, names, line, finding_of(words, verdict), texts)
        }
    }
}
