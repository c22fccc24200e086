// The lines of a text in which its faces stand.
ghost use Rattle.std.specs.Prelude.{◌≤◌, length};
ghost use Rattle.grid_base.specs.declared.TheConstants.{TEXT_MAX};

use crate::places::word_at;
use line_text::{Lines, words};
use track_input::Format;

// How many words a line has.
fn word_count(line: &[u8]) -> u64 {
    let mut count: u64 = 0;
    for _word in words(line) {
        count = count.saturating_add(1);
    }
    count
}

// The number that digits write.
fn number_of(word: &[u8]) -> u64 {
    let mut number: u64 = 0;
    for digit in word {
        number = number
            .saturating_mul(10)
            .saturating_add(u64::from(digit.saturating_sub(b'0')));
    }
    number
}

// How many triangles a polygon of so many corners is.
fn triangles(corners: u64) -> u64 {
    corners.saturating_sub(2)
}

// The line of the face of a number, in an OBJ text; 0 where there is none.
fn line_in_obj(bytes: &[u8], face: u32) -> u32
    requires { length bytes.now ≤ TEXT_MAX }
{
    let mut count: u64 = 0;
    for line in Lines::new(bytes) {
        if word_at(line.bytes, 0) == b"f".as_slice() {
            let corners = word_count(line.bytes).saturating_sub(1);
            count = count.saturating_add(triangles(corners));
        }
        if count >= u64::from(face) {
            return line.number;
        }
    }
    0
}

// The same in an OFF text: the lines with words are `OFF`, the counts, a row for each point, and then the faces.
fn line_in_off(bytes: &[u8], face: u32) -> u32
    requires { length bytes.now ≤ TEXT_MAX }
{
    let mut rows: u64 = 0;
    let mut before_faces: u64 = u64::MAX;
    let mut count: u64 = 0;
    for line in Lines::new(bytes) {
        let first = word_at(line.bytes, 0);
        if !first.is_empty() {
            rows = rows.saturating_add(1);
            if rows == 2 {
                before_faces = number_of(first).saturating_add(2);
            }
            if rows > before_faces {
                count = count.saturating_add(triangles(number_of(first)));
            }
            if count >= u64::from(face) {
                return line.number;
            }
        }
    }
    0
}

// The same in a PLY text: behind `end_header` there is a row for each point, and then the faces.
fn line_in_ply(bytes: &[u8], face: u32) -> u32
    requires { length bytes.now ≤ TEXT_MAX }
{
    let mut in_head = true;
    let mut points_left: u64 = 0;
    let mut count: u64 = 0;
    for line in Lines::new(bytes) {
        let first = word_at(line.bytes, 0);
        if in_head {
            if first == b"end_header".as_slice() {
                in_head = false;
            } else if word_at(line.bytes, 1) == b"vertex".as_slice() {
                points_left = number_of(word_at(line.bytes, 2));
            }
        } else if !first.is_empty() && points_left > 0 {
            points_left -= 1;
        } else if !first.is_empty() {
            count = count.saturating_add(triangles(number_of(first)));
            if count >= u64::from(face) {
                return line.number;
            }
        }
    }
    0
}

/// The line of the face of a number, in a text of a format, where a polygon of k corners is k - 2 faces; 0 where there is none.
pub(crate) fn line_of_face(format: Format, bytes: &[u8], face: u32) -> u32
    requires { length bytes.now ≤ TEXT_MAX }
{
    match format {
        Format::Obj => line_in_obj(bytes, face),
        Format::Off => line_in_off(bytes, face),
        Format::Ply => line_in_ply(bytes, face),
    }
}
