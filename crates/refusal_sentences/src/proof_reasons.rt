// Why a proof of a log is not taken, and why a motion of a log is not proved.
ghost use Rattle.std.specs.Prelude.{◌≤◌, length};
ghost use Rattle.grid_base.specs.declared.TheConstants.{TEXT_MAX};

use crate::log_reasons::HAS_CR;
use crate::places::{encoding, line_at, place, word_at};
use line_text::{TextFault, TextWhy};
use mesh_base::PairName;
use std::alloc::{AllocError, Global};

// What a line of a proof should be, by the reason.
fn expected(why: TextWhy) -> &'static str {
    match why {
        TextWhy::Number =>
            "a word is spelled otherwise than a proof spells it: a number has no needless zero in front, a claim is along, after or before",
        TextWhy::Range => "a number is too great",
        TextWhy::Short => "there are too few words, or the last line has no end",
        TextWhy::Long => "there are too many words",
        TextWhy::Order =>
            "no such line can stand here: motions rise by their lines and pairs by their numbers, after each pair stands its tree, and the last line is `end`",
        _ => "a line of a proof begins with topo, motion, pair, dir, half or end",
    }
}

/// Says which line of a proof is outside its grammar, and what was expected.
pub fn proof_text_reason(
    alloc: Global,
    name: &str,
    bytes: &[u8],
    fault: TextFault,
) -> Result<String, AllocError>
    requires { length bytes.now ≤ TEXT_MAX }
{
    let line = line_at(bytes, fault.line);
    let mut said = place(alloc, name, fault.line, line)?;
    said.push_str("; ")?;
    match encoding(bytes) {
        Some(encoding) => said.push_str(encoding)?,
        None if bytes.contains(&b'\r') => said.push_str(HAS_CR)?,
        None if fault.line == 1 && word_at(line, 1) == b"proof".as_slice() => {
            said.push_str("its version is none that this program knows")?;
        }
        None => said.push_str(expected(fault.why))?,
    }
    Ok(said)
}

/// What is found against a motion of a log.
#[derive(Clone, Copy)]
pub enum Unproved {
    /// No certificate can be made: the pair does not pass the test.
    Fails(PairName),
    /// The log and its proof do not tell of the same motion there.
    NoMotion,
    /// The certificate has an entry for what is no pair of the mesh.
    Stranger(PairName),
    /// The entry of the pair does not keep it apart.
    Invalid(PairName),
    /// The certificate has no entry for the pair, which needs one.
    Missing(PairName),
}

// Names an edge and a face, between other words.
fn about_pair(
    alloc: Global,
    before: &str,
    pair: PairName,
    behind: &str,
) -> Result<String, AllocError> {
    let a = pair.a.0;
    let b = pair.b.0;
    let face = pair.face.0;
    format!(in alloc; "{before} the edge of the vertices {a} and {b} and face {face}{behind}")
}

// What is found against a motion.
fn finding(alloc: Global, why: Unproved) -> Result<String, AllocError> {
    match why {
        Unproved::Fails(pair) => about_pair(
            alloc,
            "it can not be proved that nothing meets on the way:",
            pair,
            " do not pass the test",
        ),
        Unproved::NoMotion => String::from_str(
            alloc,
            "the proof has a motion here and the log none, or the log has one that the proof lacks, or of which it claims another thing",
        ),
        Unproved::Stranger(pair) => about_pair(
            alloc,
            "the proof has an entry here for",
            pair,
            ", and the mesh has no such two without a common vertex",
        ),
        Unproved::Invalid(pair) => about_pair(
            alloc,
            "what the proof has here for",
            pair,
            " does not keep them apart on the way",
        ),
        Unproved::Missing(pair) => about_pair(
            alloc,
            "the proof has no entry here for",
            pair,
            ", which need one",
        ),
    }
}

/// Says of which line of a log the motion is not proved, and what is found against it.
pub fn motion_reason(
    alloc: Global,
    name: &str,
    bytes: &[u8],
    number: u32,
    why: Unproved,
) -> Result<String, AllocError>
    requires { length bytes.now ≤ TEXT_MAX }
{
    let line = line_at(bytes, number);
    let place = place(alloc, name, number, line)?;
    let finding = finding(alloc, why)?;
    format!(in alloc; "{place}; {finding}")
}
