// Why a line of a mesh file is outside its grammar.
ghost use Rattle.std.specs.Prelude.{◌≤◌, length};
ghost use Rattle.grid_base.specs.declared.TheConstants.{TEXT_MAX};

use crate::places::{encoding, line_at, place, word_at};
use line_text::{TextFault, TextWhy};
use std::alloc::{AllocError, Global};

// The greatest size of a coordinate on a grid of so many decimals.
pub(crate) fn greatest(decimals: u8) -> &'static str {
    match decimals {
        0 => "268435456",
        1 => "26843545.6",
        2 => "2684354.56",
        3 => "268435.456",
        4 => "26843.5456",
        5 => "2684.35456",
        _ => "268.435456",
    }
}

// What a mesh file that is no OBJ text may be.
fn other_format(line: &[u8]) -> Option<&'static str> {
    match word_at(line, 0) {
        b"OFF" | b"COFF" | b"NOFF" | b"4OFF" => {
            Some(
                "this looks like an OFF file: `topo convert FILE.off FILE.obj` makes it one that is tracked",
            )
        }
        b"ply" => Some(
            "this looks like a PLY file: `topo convert FILE.ply FILE.obj` makes it one that is tracked",
        ),
        b"solid" | b"facet" => Some("this looks like an STL file, which is not read"),
        b"set"
        | b"shift"
        | b"drive"
        | b"step"
        | b"split"
        | b"collapse"
        | b"flip"
        | b"zip"
        | b"pinch"
        | b"fit"
        | b"save"
        | b"group"
        | b"close" => {
            Some("this looks like a text of steps: the mesh comes first, and then the steps")
        }
        _ => None,
    }
}

// What a line should be, by the reason.
fn expected(why: TextWhy) -> &'static str {
    match why {
        TextWhy::Number =>
            "a coordinate is a decimal number such as -0.5 or 2.5e-3, of at most 64 bytes, and a count is one to ten digits",
        TextWhy::Corner =>
            "a corner is the number of a vertex in one to ten digits, such as 3 or 3/1/2; a negative one counts back from the last vertex before it",
        TextWhy::Range => "a coordinate is too great",
        TextWhy::Short =>
            "there are too few words: a point has three coordinates, and a face three corners or more",
        TextWhy::Long => "there are too many words",
        TextWhy::Unknown =>
            "a line of an OBJ file begins with v, f, vn, vt, vp, o, g, s, usemtl or mtllib",
        TextWhy::Continuation =>
            "a line may not go on in the next one: join the two, without the \\",
        TextWhy::Nesting => "groups are not nested",
        TextWhy::Order => "a line is out of order",
    }
}

// Says how great a coordinate may be.
fn push_limit(alloc: Global, said: &mut String, decimals: u8) -> Result<(), AllocError> {
    let most = greatest(decimals);
    let limit = format!(in alloc;
        "a coordinate is at most {most} in size with {decimals} decimals"
    )?;
    said.push_str(limit.as_str())
}

// Says what was expected of a line.
fn push_expected(
    alloc: Global,
    said: &mut String,
    line: &[u8],
    decimals: u8,
    why: TextWhy,
) -> Result<(), AllocError> {
    match (why, other_format(line)) {
        (TextWhy::Unknown, Some(format)) => said.push_str(format),
        (TextWhy::Range, _) => push_limit(alloc, said, decimals),
        (why, _) => said.push_str(expected(why)),
    }
}

/// Says which line of a mesh file is outside its grammar, and what was expected.
pub fn mesh_text_reason(
    alloc: Global,
    name: &str,
    bytes: &[u8],
    decimals: u8,
    fault: TextFault,
) -> Result<String, AllocError>
    requires { length bytes.now ≤ TEXT_MAX }
{
    let line = line_at(bytes, fault.line);
    let mut said = place(alloc, name, fault.line, line)?;
    said.push_str("; ")?;
    match encoding(bytes) {
        Some(encoding) => said.push_str(encoding)?,
        None => push_expected(alloc, &mut said, line, decimals, fault.why)?,
    }
    Ok(said)
}
