// The lists of a mesh that this program stored. Its own OBJ text has but two kinds of lines, `v X Y Z` with so many decimals in each
// coordinate, and `f I J K`, with one space between their words: such a text is read in one go, and any other as every text is.
ghost use Rattle.std.specs.Prelude.{◌≤◌, length, unsigned_abs, IfSome};
ghost use Rattle.grid_base.specs.declared.TheConstants.{BOX, TEXT_MAX, DECIMALS_MAX};

use crate::rounding::lists_in;
use grid_base::{BOX, Point};
use line_text::Lines;
use mesh_base::{MeshLists, Points, Triangles};
use std::alloc::Global;
use track_input::Format;

// The most digits of a number, so that it is not followed beyond 64 bits.
const DIGITS: usize = 9;

// What stands behind some digits: the number that they write behind another, how many there are, and the rest.
#[derive(Clone, Copy)]
struct Front<'a> {
    number: u64,
    digits: usize,
    rest: &'a [u8],
}

// The digits at the front, behind those of a number.
fn digits_at(before: u64, text: &[u8]) -> Front<'_> {
    let mut number = before;
    for (digits, b) in text.iter().enumerate() {
        if *b < b'0' || *b > b'9' {
            let rest = &text[digits..];
            return Front {
                number,
                digits,
                rest,
            };
        }
        number = number.wrapping_mul(10).wrapping_add(u64::from(*b - b'0'));
    }
    Front {
        number,
        digits: text.len(),
        rest: &[],
    }
}

// The size of a coordinate at the front, with so many decimals, and the rest.
fn size_at(text: &[u8], decimals: u8) -> Option<(u64, &[u8])>
    ensures { IfSome result (λ r. r.0 ≤ BOX) }
{
    let whole = digits_at(0, text);
    if whole.digits == 0 || whole.digits > DIGITS {
        return None;
    }
    let mut last = whole;
    if decimals > 0 {
        let [b'.', behind @ ..] = last.rest else {
            return None;
        };
        last = digits_at(last.number, behind);
        if last.digits != usize::from(decimals) {
            return None;
        }
    }
    if last.number > BOX as u64 {
        return None;
    }
    Some((last.number, last.rest))
}

// The coordinate of this sign and size.
fn with_sign(negative: bool, size: u64) -> i32
    requires { size ≤ BOX }
    ensures { unsigned_abs result ≤ BOX }
{
    let size = size as i32;
    if negative { -size } else { size }
}

// The coordinate at the front, and the rest.
fn coordinate_at(text: &[u8], decimals: u8) -> Option<(i32, &[u8])>
    ensures { IfSome result (λ r. unsigned_abs r.0 ≤ BOX) }
{
    match text {
        [b'-', text @ ..] => {
            let (size, rest) = size_at(text, decimals)?;
            Some((with_sign(true, size), rest))
        }
        _ => {
            let (size, rest) = size_at(text, decimals)?;
            Some((with_sign(false, size), rest))
        }
    }
}

// The corner at the front, and the rest.
fn corner_at(text: &[u8]) -> Option<(u32, &[u8])> {
    let found = digits_at(0, text);
    if found.digits == 0 || found.digits > DIGITS || found.number == 0 {
        return None;
    }
    let corner = u32::try_from(found.number).ok()?;
    Some((corner, found.rest))
}

// What follows a space.
fn behind_space(text: &[u8]) -> Option<&[u8]> {
    match text {
        [b' ', rest @ ..] => Some(rest),
        _ => None,
    }
}

// The point of a line, behind its first word.
fn point_of(text: &[u8], decimals: u8) -> Option<Point> {
    let (x, rest) = coordinate_at(behind_space(text)?, decimals)?;
    let (y, rest) = coordinate_at(behind_space(rest)?, decimals)?;
    let (z, rest) = coordinate_at(behind_space(rest)?, decimals)?;
    if rest.is_empty() {
        Some(Point { x, y, z })
    } else {
        None
    }
}

// The corners of a line, behind its first word.
fn corners_of(text: &[u8]) -> Option<[u32; 3]> {
    let (a, rest) = corner_at(behind_space(text)?)?;
    let (b, rest) = corner_at(behind_space(rest)?)?;
    let (c, rest) = corner_at(behind_space(rest)?)?;
    rest.is_empty().then_some([a, b, c])
}

// The lists of a text of the program's own; None where it is another, or there is no memory.
fn own_lists(alloc: Global, bytes: &[u8], decimals: u8) -> Option<MeshLists>
    requires { length bytes.now ≤ TEXT_MAX }
{
    let mut points = Points::new(alloc);
    let mut faces = Triangles::new(alloc);
    for line in Lines::new(bytes) {
        match line.bytes {
            [b'v', text @ ..] => points.push(point_of(text, decimals)?).ok()?,
            [b'f', text @ ..] => faces.push(corners_of(text)?).ok()?,
            _ => return None,
        }
    }
    Some(MeshLists { points, faces })
}

/// The lists of a text that was stored in a format, on a grid of so many decimals, as `lists_in` gives them.
pub(crate) fn stored_lists_in(
    alloc: Global,
    format: Format,
    bytes: &[u8],
    decimals: u8,
) -> Option<MeshLists>
    requires small { length bytes.now ≤ TEXT_MAX }
    requires few { decimals ≤ DECIMALS_MAX }
{
    if let Format::Obj = format {
        if let Some(lists) = own_lists(alloc, bytes, decimals) {
            return Some(lists);
        }
    }
    lists_in(alloc, format, bytes, decimals)
}
