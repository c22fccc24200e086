// Why a line of a step file is outside its grammar, and why a directive is refused.
ghost use Rattle.std.specs.Prelude.{◌≤◌, length};
ghost use Rattle.grid_base.specs.declared.TheConstants.{TEXT_MAX};

use crate::places::{encoding, line_at, place, word_at};
use grid_base::{BOX, SHIFT_MAX};
use line_text::{TextFault, TextWhy};
use mesh_base::UseWhy;
use std::alloc::{AllocError, Global};

// How a directive is written, by its first word.
fn form(word: &[u8]) -> Option<&'static str> {
    match word {
        b"set" => Some("`set depth D`, `set halvings H`, `set passes P` or `set zones Z`"),
        b"shift" => Some("`shift V DX DY DZ` or `shift all DX DY DZ`"),
        b"drive" => Some("`drive NAME`"),
        b"solid" => Some("`solid V`"),
        b"split" => Some("`split L`"),
        b"collapse" => Some("`collapse L`"),
        b"zip" => Some("`zip D`"),
        b"flip" => Some("`flip` alone"),
        b"fit" => Some("`fit` alone"),
        b"pinch" => Some("`pinch` alone"),
        b"step" => Some("`step` alone"),
        b"save" => Some("`save` alone"),
        b"group" => Some("`group` alone"),
        b"close" => Some("`close` alone"),
        _ => None,
    }
}

// The limits of a directive's values, by its first word and the next.
fn limits(word: &[u8], next: &[u8]) -> &'static str {
    match (word, next) {
        (b"set", b"depth") => "a depth is 0 to 10",
        (b"set", b"halvings") => "halvings are 0 to 27",
        (b"set", b"passes") => "passes are 0 to 100",
        (b"set", b"zones") => "zones are 0 or 1",
        (b"shift", _) =>
            "a vertex is 1 to 2147483648, and a component of a shift at most 536870912 in size",
        (b"drive", _) => "a name of a field is a text of 1 to 32 bytes",
        (b"solid", _) => "a vertex is 1 to 2147483648",
        _ => "a length is 0 to 1073741824",
    }
}

// That values count units of the grid, on a grid of so many decimals.
fn whole_units(decimals: u8) -> &'static str {
    match decimals {
        0 => "a value is a whole number of grid units; with --decimals 3 write 500 for 0.5",
        1 => "a value is a whole number of grid units; with --decimals 1 write 5 for 0.5",
        2 => "a value is a whole number of grid units; with --decimals 2 write 50 for 0.5",
        3 => "a value is a whole number of grid units; with --decimals 3 write 500 for 0.5",
        4 => "a value is a whole number of grid units; with --decimals 4 write 5000 for 0.5",
        5 => "a value is a whole number of grid units; with --decimals 5 write 50000 for 0.5",
        _ => "a value is a whole number of grid units; with --decimals 6 write 500000 for 0.5",
    }
}

// What a line should be, by the reason.
fn expected(why: TextWhy, word: &[u8], next: &[u8], decimals: u8) -> &'static str {
    match why {
        TextWhy::Number => whole_units(decimals),
        TextWhy::Range => limits(word, next),
        TextWhy::Nesting => "groups may lie eight deep, and each `group` has its `close`",
        TextWhy::Short => "there are too few words",
        TextWhy::Long => "there are too many words",
        TextWhy::Unknown if word == b"v".as_slice() || word == b"f".as_slice() => {
            "this looks like a mesh: the mesh comes first, and then the steps"
        }
        _ =>
            "a line begins with set, shift, drive, solid, split, collapse, flip, zip, pinch, fit, step, save, group or close",
    }
}

// Says what was expected of a line, and how its directive is written.
fn push_expected(
    said: &mut String,
    line: &[u8],
    decimals: u8,
    why: TextWhy,
) -> Result<(), AllocError> {
    let word = word_at(line, 0);
    said.push_str(expected(why, word, word_at(line, 1), decimals))?;
    if let Some(form) = form(word) {
        said.push_str("; it is written ")?;
        said.push_str(form)?;
    }
    Ok(())
}

/// Says which line of a step file is outside its grammar, and what was expected.
pub fn step_text_reason(
    alloc: Global,
    name: &str,
    bytes: &[u8],
    decimals: u8,
    fault: TextFault,
) -> Result<String, AllocError>
    requires { length bytes.now ≤ TEXT_MAX }
{
    let line = line_at(bytes, fault.line);
    let mut said = place(alloc, name, fault.line, line)?;
    said.push_str("; ")?;
    match encoding(bytes) {
        Some(encoding) => said.push_str(encoding)?,
        None => push_expected(&mut said, line, decimals, fault.why)?,
    }
    Ok(said)
}

// Why a directive is refused.
fn what_is_refused(alloc: Global, why: UseWhy) -> Result<String, AllocError> {
    match why {
        UseWhy::NoVertex { v: 0 } => {
            String::from_str(alloc, "there is no vertex 0: vertices are numbered from 1")
        }
        UseWhy::NoVertex { v } => format!(in alloc;
            "there is no vertex {v} here: it was not made yet, or an edit has taken it away"
        ),
        UseWhy::ShiftRange { v } => format!(in alloc;
            "what is requested of vertex {v} in all is above {SHIFT_MAX} in size"
        ),
        UseWhy::Box { v } => format!(in alloc;
            "vertex {v} would leave the box, whose coordinates are at most {BOX} in size"
        ),
        UseWhy::NoField => String::from_str(alloc, "there is no field of this name"),
        UseWhy::Solid { v } => format!(in alloc;
            "vertex {v} is solid, and no shift may be requested of it"
        ),
    }
}

/// Says why a directive is refused, by its line.
pub fn use_reason(alloc: Global, name: &str, line: u32, why: UseWhy) -> Result<String, AllocError> {
    let what = what_is_refused(alloc, why)?;
    format!(in alloc; "{name}, line {line}; {what}")
}

/// Says that a directive is refused since an edit has taken its vertex away, and by which line of the log where that is known.
pub fn gone_reason(
    alloc: Global,
    name: &str,
    line: u32,
    v: u32,
    by: Option<u64>,
) -> Result<String, AllocError> {
    match by {
        Some(by) => format!(in alloc;
            "{name}, line {line}; there is no vertex {v} any more: line {by} of the log, a collapse, has taken it away"
        ),
        None => format!(in alloc;
            "{name}, line {line}; there is no vertex {v} any more: an edit has taken it away with the faces that it had"
        ),
    }
}
