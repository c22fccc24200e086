// Why a line of an OFF or a PLY file is outside its grammar.
ghost use Rattle.std.specs.Prelude.{◌≤◌, length};
ghost use Rattle.grid_base.specs.declared.TheConstants.{TEXT_MAX};

use crate::mesh_reasons::greatest;
use crate::places::{encoding, line_at, place, word_at};
use line_text::{Lines, TextFault, TextWhy};
use std::alloc::{AllocError, Global};

// What an OFF file that is not read may be, by its first line with words.
fn other_off(line: &[u8]) -> &'static str {
    match word_at(line, 0) {
        b"OFF" =>
            "the word OFF stands on a line of its own, and the counts on the next; binary OFF is not read",
        b"COFF" | b"NOFF" | b"CNOFF" | b"STOFF" | b"4OFF" | b"nOFF" =>
            "vertices with colours, normals or a fourth coordinate are not read: store the file as plain OFF",
        b"ply" => "this looks like a PLY file: its name has to end in .ply",
        b"v" | b"f" | b"o" | b"g" | b"mtllib" =>
            "this looks like an OBJ file: its name has to end in .obj",
        b"solid" => "this looks like an STL file, which is not read",
        _ => "an OFF file begins with a line `OFF`",
    }
}

// What a line of an OFF file should be, by the reason.
fn expected_off(line: &[u8], why: TextWhy) -> &'static str {
    match why {
        TextWhy::Unknown => other_off(line),
        TextWhy::Short =>
            "there are too few words: after OFF come the counts V F E, V lines X Y Z, and F lines that begin with how many corners there are, and have them",
        _ => expected_row(why),
    }
}

// What a row of an OFF or a PLY file should be, by the reason.
fn expected_row(why: TextWhy) -> &'static str {
    match why {
        TextWhy::Number =>
            "a count is one to ten digits, and a coordinate a decimal number such as -0.5 or 2.5e-3, of at most 64 bytes",
        TextWhy::Corner =>
            "a corner is the number of a vertex, from 0 on, in one to ten digits; there are no negative ones",
        TextWhy::Long => "there are more rows or words than the counts and the head say",
        _ => "there are too few words, or too few rows for the counts",
    }
}

// Whether a PLY head may tell this kind of element.
fn is_known_element(name: &[u8]) -> bool {
    name == b"vertex".as_slice() || name == b"face".as_slice()
}

// What a line of a PLY head that is not read may be.
fn other_head(line: &[u8]) -> &'static str {
    match (word_at(line, 0), word_at(line, 1)) {
        (b"format", b"ascii") => "the second line of the head is `format ascii 1.0`",
        (b"format", _) => "binary PLY is not read: store the file as ASCII PLY",
        (b"element", name) if !is_known_element(name) =>
            "elements other than `vertex` and, after it, `face` are not read: store the file without them",
        (b"property", b"list") =>
            "the one list that is read is `property list TYPE TYPE vertex_indices`, the first property of a face",
        (b"property", _) =>
            "a property is `property TYPE NAME`, and x, y and z are among those of a vertex, once each",
        (b"OFF", _) => "this looks like an OFF file: its name has to end in .off",
        (b"v" | b"f" | b"o" | b"g" | b"mtllib", _) =>
            "this looks like an OBJ file: its name has to end in .obj",
        (b"solid", _) => "this looks like an STL file, which is not read",
        _ =>
            "a PLY head has the lines ply, format ascii 1.0, element vertex V, its properties, element face F, its properties, end_header",
    }
}

// What a line of a PLY file should be, by the reason.
fn expected_ply(line: &[u8], why: TextWhy) -> &'static str {
    match why {
        TextWhy::Unknown => other_head(line),
        TextWhy::Short =>
            "there are too few words: a vertex has one for each property, and a face how many corners there are, the corners, and one for each further property",
        _ => expected_row(why),
    }
}

// Whether a text has no line of this number.
fn is_behind(bytes: &[u8], number: u32) -> bool
    requires { length bytes.now ≤ TEXT_MAX }
{
    for line in Lines::new(bytes) {
        if line.number >= number {
            return false;
        }
    }
    true
}

// Says where a line is outside its grammar, and what was expected of it.
fn reason(
    alloc: Global,
    name: &str,
    bytes: &[u8],
    decimals: u8,
    fault: TextFault,
    expected: &str,
) -> Result<String, AllocError>
    requires { length bytes.now ≤ TEXT_MAX }
{
    if let Some(encoding) = encoding(bytes) {
        return format!(in alloc; "{name}; {encoding}");
    }
    if is_behind(bytes, fault.line) {
        let line = fault.line;
        return format!(in alloc;
            "{name} ends before line {line}; fewer rows are there than it says, or none"
        );
    }
    let at = place(alloc, name, fault.line, line_at(bytes, fault.line))?;
    if fault.why == TextWhy::Range {
        let most = greatest(decimals);
        return format!(in alloc;
            "{at}; a coordinate is at most {most} in size with {decimals} decimals, and a face has three corners or more"
        );
    }
    format!(in alloc; "{at}; {expected}")
}

/// Says which line of an OFF file is outside its grammar, and what was expected.
pub fn off_text_reason(
    alloc: Global,
    name: &str,
    bytes: &[u8],
    decimals: u8,
    fault: TextFault,
) -> Result<String, AllocError>
    requires { length bytes.now ≤ TEXT_MAX }
{
    let expected = expected_off(line_at(bytes, fault.line), fault.why);
    reason(alloc, name, bytes, decimals, fault, expected)
}

/// Says which line of a PLY file is outside its grammar, and what was expected.
pub fn ply_text_reason(
    alloc: Global,
    name: &str,
    bytes: &[u8],
    decimals: u8,
    fault: TextFault,
) -> Result<String, AllocError>
    requires { length bytes.now ≤ TEXT_MAX }
{
    let expected = expected_ply(line_at(bytes, fault.line), fault.why);
    reason(alloc, name, bytes, decimals, fault, expected)
}
