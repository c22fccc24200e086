// Where in a text something is wrong, and what stands there.
ghost use Rattle.std.specs.Prelude.{◌≤◌, length};
ghost use Rattle.grid_base.specs.declared.TheConstants.{TEXT_MAX};

use line_text::{Lines, words};
use std::alloc::{AllocError, Global};

// The greatest length of a line that is shown.
const SHOWN_MAX: usize = 100;

// The bytes of the line of a number; none where there is no such line.
pub(crate) fn line_at(bytes: &[u8], number: u32) -> &[u8]
    requires { length bytes.now ≤ TEXT_MAX }
{
    for line in Lines::new(bytes) {
        if line.number == number {
            return line.bytes;
        }
    }
    &[]
}

// The word of a line behind so many others; an empty one where there are not so many.
pub(crate) fn word_at(line: &[u8], before: usize) -> &[u8] {
    let mut left = before;
    for word in words(line) {
        if left == 0 {
            return word;
        }
        left -= 1;
    }
    &[]
}

// `NAME, line N`, and what the line says where it is short and text.
pub(crate) fn place(
    alloc: Global,
    name: &str,
    number: u32,
    line: &[u8],
) -> Result<String, AllocError> {
    if line.is_empty() || line.len() > SHOWN_MAX {
        return format!(in alloc; "{name}, line {number}");
    }
    match str::from_utf8(line) {
        Ok(text) => format!(in alloc; "{name}, line {number}: {text:?}"),
        Err(_) => format!(in alloc; "{name}, line {number}"),
    }
}

// What a text looks like whose first bytes say that it is no plain text.
pub(crate) fn encoding(bytes: &[u8]) -> Option<&'static str> {
    if bytes.starts_with(b"\xef\xbb\xbf") {
        Some("the file begins with a byte order mark: save it without one")
    } else if bytes.starts_with(b"\xff\xfe") || bytes.starts_with(b"\xfe\xff") {
        Some("the file is in UTF-16: save it as ASCII or UTF-8")
    } else if bytes.contains(&b'\r') && !bytes.contains(&b'\n') {
        Some("the lines of the file end with CR alone: save it with LF or CRLF at their ends")
    } else {
        None
    }
}
