//! Digits that are read up to where their word ends.
ghost use Rattle.std.specs.Prelude.{◌≡◌, ◌≤◌, ◌<◌, ◌^◌, Some, length, take, IfSome};
ghost use Rattle.std.specs.List.{position_or_len};
ghost use Rattle.line_text.specs.Numbers.{number_within};
ghost use Rattle.line_text.specs.Texts.{is_blank};

use crate::blank_words::is_blank;

// The most digits of a whole word.
const WHOLE_DIGITS: usize = 10;

// The number that the digits at the front write, and how many there are, where they are ten at most, and a blank or nothing follows.
pub(crate) fn front_number(text: &[u8]) -> Option<(u64, usize)>
    ensures value { IfSome result (λ r. 0 < r.1 → number_within 10 (take r.1 text.now) ≡ Some r.0) }
    ensures ends { IfSome result (λ r. r.1 ≡ position_or_len is_blank text.now) }
    ensures within { IfSome result (λ r. r.1 ≤ length text.now) }
    ensures below { IfSome result (λ r. r.0 < 10 ^ 10) }
{
    let mut n: u64 = 0;
    for (i, b) in text.iter().enumerate() {
        if is_blank(*b) {
            return Some((n, i));
        }
        if *b < b'0' || *b > b'9' || i >= WHOLE_DIGITS {
            return None;
        }
        n = 10 * n + u64::from(*b - b'0');
    }
    Some((n, text.len()))
}
