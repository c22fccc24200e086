// Why a log is not taken.
ghost use Rattle.std.specs.Prelude.{◌≤◌, length};
ghost use Rattle.grid_base.specs.declared.TheConstants.{TEXT_MAX};

use crate::places::{encoding, line_at, place, word_at};
use line_text::{TextFault, TextWhy};
use std::alloc::{AllocError, Global};

// What is said of a text with the byte CR, which none of our own texts has.
pub(crate) const HAS_CR: &str =
    "the text has the byte CR, as where its lines end with CRLF: save it with LF alone at their ends";

// What a line of a log should be, by the reason.
fn expected(why: TextWhy) -> &'static str {
    match why {
        TextWhy::Number =>
            "a number is spelled otherwise than a log spells it, digits without a needless zero in front, or is above the limits (a log that was written with `--large` is read with it)",
        TextWhy::Range => "a number is too great",
        TextWhy::Short => "there are too few words, or the last line has no end",
        TextWhy::Long => "there are too many words",
        _ => "no line of a log begins so",
    }
}

/// Says which line of a log is outside its grammar, and what was expected.
pub fn log_text_reason(
    alloc: Global,
    name: &str,
    bytes: &[u8],
    fault: TextFault,
) -> Result<String, AllocError>
    requires { length bytes.now ≤ TEXT_MAX }
{
    let line = line_at(bytes, fault.line);
    let mut said = place(alloc, name, fault.line, line)?;
    said.push_str("; ")?;
    match encoding(bytes) {
        Some(encoding) => said.push_str(encoding)?,
        None if bytes.contains(&b'\r') => said.push_str(HAS_CR)?,
        None if fault.line == 1 && word_at(line, 1) == b"log".as_slice() => {
            said.push_str("its version is none that this program knows")?;
        }
        None => said.push_str(expected(fault.why))?,
    }
    Ok(said)
}

// Why a line of a log may not fit, by its first word.
fn misfit(line: &[u8]) -> &'static str {
    match word_at(line, 0) {
        b"move" => {
            "a move is of a step that is begun, of a living vertex that is not solid and has no move in the step yet, and ends in the box"
        }
        b"moved" => "no step is begun, or a pair of its motion fails",
        b"mesh" => "the mesh has other numbers of vertices and faces here, or a step is begun",
        b"split" | b"collapse" | b"flip" | b"zip" | b"pinch" => {
            "the edit does not come out so here, as where the log was written with `--large` and is read without it, or a step is begun"
        }
        b"close" => "no group is open, or a step is begun",
        b"topo" => "only the first line names the version",
        _ =>
            "it does not follow from the lines before it, or the mesh is not the one that the log began with",
    }
}

/// Says which line of a log does not fit the lines before it, and why that may be.
pub fn replay_reason(
    alloc: Global,
    name: &str,
    bytes: &[u8],
    number: u32,
) -> Result<String, AllocError>
    requires { length bytes.now ≤ TEXT_MAX }
{
    let line = line_at(bytes, number);
    let mut said = place(alloc, name, number, line)?;
    said.push_str(" does not fit the lines before it: ")?;
    let first_of_log = number == 1;
    if first_of_log {
        said.push_str("a log begins with the line `topo log` and its version")?;
    } else {
        said.push_str(misfit(line))?;
    }
    Ok(said)
}
