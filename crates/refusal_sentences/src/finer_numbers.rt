// Numbers of a mesh's text that have a digit behind the last place of a grid.
ghost use Rattle.std.specs.Prelude.{◌≤◌, length};
ghost use Rattle.grid_base.specs.declared.TheConstants.{TEXT_MAX};

use crate::places::word_at;
use line_text::{Lines, words};
use track_input::Format;

// Whether a number has a digit other than 0 behind so many decimals. A word that is no number is looked at as one.
fn is_finer(word: &[u8], decimals: u8) -> bool {
    // How many digits it has, at which of them the last stands that is not 0, and how many stand behind the point.
    let mut digits: i64 = 0;
    let mut last: i64 = 0;
    let mut behind: i64 = 0;
    let mut has_point = false;
    let mut exponent: i64 = 0;
    let mut has_exponent = false;
    let mut is_negative = false;
    for byte in word {
        let digit = i64::from(byte.saturating_sub(b'0'));
        if has_exponent {
            is_negative = is_negative || *byte == b'-';
            if byte.is_ascii_digit() {
                exponent = exponent.saturating_mul(10).saturating_add(digit);
            }
        } else if byte.is_ascii_digit() {
            digits = digits.saturating_add(1);
            if digit > 0 {
                last = digits;
            }
            if has_point {
                behind = behind.saturating_add(1);
            }
        } else {
            has_point = has_point || *byte == b'.';
            has_exponent = *byte == b'e' || *byte == b'E';
        }
    }
    let place = behind.saturating_sub(digits.saturating_sub(last));
    let depth = if is_negative {
        place.saturating_add(exponent)
    } else {
        place.saturating_sub(exponent)
    };
    last > 0 && depth > i64::from(decimals)
}

// Whether a line has such a number; of a line of an OBJ text its coordinates are looked at alone.
fn has_finer_word(line: &[u8], format: Format, decimals: u8) -> bool {
    let first = word_at(line, 0);
    let is_obj = matches!(format, Format::Obj);
    if is_obj && first != b"v".as_slice() || first == b"comment".as_slice() {
        return false;
    }
    let mut before: u32 = 0;
    for word in words(line) {
        if word.starts_with(b"#") || is_obj && before > 3 {
            return false;
        }
        if is_finer(word, decimals) {
            return true;
        }
        before = before.saturating_add(1);
    }
    false
}

/// Whether a number of a mesh's text has a digit other than 0 behind so many decimals.
pub fn has_finer_number(bytes: &[u8], format: Format, decimals: u8) -> bool
    requires { length bytes.now ≤ TEXT_MAX }
{
    for line in Lines::new(bytes) {
        if has_finer_word(line.bytes, format, decimals) {
            return true;
        }
    }
    false
}
