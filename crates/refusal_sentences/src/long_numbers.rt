// Numbers of a text that a grid may not hold.
ghost use Rattle.std.specs.Prelude.{◌≡◌};
ghost use Rattle.refusal_sentences.specs.LongNumbers.{has_long_number};

use memchr::memchr3;

/// Whether a text has a number with more than so many digits behind its point, or with an exponent. Where it has none, each of its numbers
/// lies on a grid of so many decimals. It looks at bytes alone, and so also at those of a comment.
pub fn has_long_number(bytes: &[u8], decimals: u8) -> bool
    ensures { result ≡ has_long_number decimals bytes.now }
{
    if memchr3(b'.', b'e', b'E', bytes).is_none() {
        return false;
    }
    let mut is_in_number = false;
    // from the point on one more than the digits so far
    let mut behind: u32 = 0;
    for byte in bytes {
        if byte.is_ascii_digit() {
            is_in_number = true;
            if behind > 0 {
                if behind > u32::from(decimals) {
                    return true;
                }
                behind = behind.saturating_add(1);
            }
        } else {
            if is_in_number && (*byte == b'e' || *byte == b'E') {
                return true;
            }
            let is_point = *byte == b'.';
            is_in_number = is_point;
            behind = if is_point { 1 } else { 0 };
        }
    }
    false
}
