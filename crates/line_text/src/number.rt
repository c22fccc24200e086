ghost use Rattle.std.specs.Prelude.{◌≡◌, ◌≤◌, ◌<◌, ◌^◌, IfSome, option_map};
ghost use Rattle.line_text.specs.declared.number.TheConstants.{DIGITS_MAX};
ghost use Rattle.line_text.specs.Numbers as spec;

/// Why a decimal word gives no number on the grid.
#[derive(Clone, Copy, Debug, PartialEq, Eq)]
pub enum NumberWhy {
    /// It is no decimal word.
    Form = 1,
    /// Its value on the grid is above `BOX` in size.
    Range = 2,
}

// Whether a word's first byte is this one.
pub(crate) fn begins_with(byte: u8, word: &[u8]) -> bool
    requires { 0 < byte }
    ensures { result ≡ spec.begins_with byte word.now }
{
    !word.is_empty() && word[0] == byte
}

pub(crate) fn with_sign(negative: bool, size: u64) -> i64
    requires { size < 2 ^ 63 }
    ensures { result ≡ spec.with_sign negative size }
{
    let size = size as i64;
    if negative { -size } else { size }
}

/// The most digits of a number that is read.
pub const DIGITS_MAX: usize = 38;

/// The number that one to `most` digits write; None where the word is anything else.
pub fn number_within(most: usize, word: &[u8]) -> Option<u128>
    requires { most ≤ DIGITS_MAX }
    ensures value { result ≡ spec.number_within most word.now }
    ensures below { IfSome result (λ n. n < 10 ^ most) }
{
    if word.is_empty() || word.len() > most {
        return None;
    }
    let mut n: u128 = 0;
    for b in word {
        if *b < b'0' || *b > b'9' {
            return None;
        }
        n = 10 * n + u128::from(*b - b'0');
    }
    Some(n)
}

// The same in 64 bits.
fn short_number(most: usize, word: &[u8]) -> Option<u64>
    requires { most ≤ 19 }
    ensures value { result ≡ spec.number_within most word.now }
    ensures below { IfSome result (λ n. n < 10 ^ most) }
{
    if word.is_empty() || word.len() > most {
        return None;
    }
    let mut n: u64 = 0;
    for b in word {
        if *b < b'0' || *b > b'9' {
            return None;
        }
        n = 10 * n + u64::from(*b - b'0');
    }
    Some(n)
}

/// The sign and the size of a whole word, an optional `-` and one to ten digits: whether the `-` is there, and the number
/// that the digits write. None where the word is anything else.
pub fn whole_parts(word: &[u8]) -> Option<(bool, u64)>
    ensures value { result ≡ spec.whole_parts word.now }
    ensures below { IfSome result (λ parts. parts.1 < 10 ^ 10) }
{
    let negative = begins_with(b'-', word);
    let digits = if negative { word.split_at(1).1 } else { word };
    let size = short_number(10, digits)?;
    Some((negative, size))
}

/// The number that a whole word writes, an optional `-` and one to ten digits. None where the word is anything else.
pub fn whole(word: &[u8]) -> Option<i64>
    ensures { result ≡ spec.whole_of word.now }
{
    let (negative, size) = whole_parts(word)?;
    Some(with_sign(negative, size))
}
