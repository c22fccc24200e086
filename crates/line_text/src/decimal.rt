ghost use Rattle.std.specs.Prelude.{◌≡◌, ◌≤◌, ◌<◌, ◌+◌, ◌*◌, ◌^◌, ◌++◌, min, true, length, take, unsigned_abs, IfOk, IfSome, option_map};
ghost use Rattle.std.specs.List.{prefix_len, list_all};
ghost use Rattle.grid_base.specs.declared.TheConstants.{BOX, DECIMALS_MAX};
ghost use Rattle.line_text.specs.Numbers as spec;
ghost use Rattle.line_text.specs.DecimalViews.{decimal_view, Fits, tenths_of};

use crate::number::{NumberWhy, begins_with, number_within};
use grid_base::BOX;

// The greatest size on the grid.
const SIZE_MAX: u64 = BOX as u64;
// A number is followed up to here, which is more than ten times the greatest size on the grid.
const LIMIT: u64 = 10 * SIZE_MAX + 10;

// A decimal word taken apart.
#[derive(Clone, Copy)]
struct Decimal<'a> {
    negative: bool,
    whole: &'a [u8],
    fraction: &'a [u8],
    up: u64,
    down: u64,
}

fn is_digit(b: u8) -> bool
    ensures { result ≡ spec.is_digit b }
{
    b'0' <= b && b <= b'9'
}

#[tactic(auto, using(std::proofs::lemmas::List::Sums::prefix_len_is))]
fn digit_len(word: &[u8]) -> usize
    ensures value { result ≡ prefix_len spec.is_digit word.now }
    ensures within { result ≤ length word.now }
{
    for (i, b) in word.iter().enumerate() {
        if !is_digit(*b) {
            return i;
        }
    }
    word.len()
}

// The digits at the front and what follows them.
fn split_digits(word: &[u8]) -> (&[u8], &[u8])
    ensures digits { result.0.now ≡ spec.front_digits word.now }
    ensures rest { result.1.now ≡ spec.behind_digits word.now }
    ensures all { list_all spec.is_digit result.0.now ≡ true }
    ensures parts { length result.0.now + length result.1.now ≡ length word.now }
{
    word.split_at(digit_len(word))
}

fn without_sign(word: &[u8]) -> &[u8]
    ensures { result.now ≡ spec.without_sign word.now }
{
    if begins_with(b'+', word) || begins_with(b'-', word) {
        let (_, rest) = word.split_at(1);
        rest
    } else {
        word
    }
}

// The exponent, or the size of a negative one second.
#[tactic(auto, unfolding(crate::specs::Numbers::exponent_of))]
fn exponent(word: &[u8]) -> Option<(u64, u64)>
    ensures value { result ≡ spec.exponent_of word.now }
    ensures small { IfSome result (λ e. (e.0 < 1000) × (e.1 < 1000)) }
{
    match word {
        [] => Some((0, 0)),
        [first, rest @ ..] => {
            if *first != b'e' && *first != b'E' {
                return None;
            }
            let size = number_within(3, without_sign(rest))? as u64;
            if begins_with(b'-', rest) {
                Some((0, size))
            } else {
                Some((size, 0))
            }
        }
    }
}

// The digits before a point, the digits after it, and the rest.
#[tactic(auto, unfolding(crate::specs::Numbers::mantissa_of))]
fn mantissa(word: &[u8]) -> (&[u8], &[u8], &[u8])
    ensures value { (result.0.now, result.1.now, result.2.now) ≡ spec.mantissa_of word.now }
    ensures whole { list_all spec.is_digit result.0.now ≡ true }
    ensures fraction { list_all spec.is_digit result.1.now ≡ true }
    ensures short { length result.0.now + length result.1.now ≤ length word.now }
{
    let (whole, rest) = split_digits(word);
    if begins_with(b'.', rest) {
        let (_, behind) = rest.split_at(1);
        let (fraction, rest) = split_digits(behind);
        (whole, fraction, rest)
    } else {
        (whole, &[], rest)
    }
}

#[tactic(auto, unfolding(crate::specs::Numbers::decimal_of))]
fn parse_decimal(word: &[u8]) -> Option<Decimal<'_>>
    ensures value { option_map decimal_view result ≡ spec.decimal_of word.now }
    ensures fits { IfSome result (λ d. Fits (decimal_view d)) }
{
    if word.len() > 64 {
        return None;
    }
    let (whole, fraction, last) = mantissa(without_sign(word));
    if whole.is_empty() && fraction.is_empty() {
        return None;
    }
    let (up, down) = exponent(last)?;
    Some(Decimal {
        negative: begins_with(b'-', word),
        whole,
        fraction,
        up,
        down,
    })
}

// The number that the digits write after n, up to the limit.
fn number_after(n: u64, digits: &[u8]) -> u64
    requires limited { n ≤ LIMIT }
    requires digits { list_all spec.is_digit digits.now ≡ true }
    ensures { result ≡ min LIMIT (spec.number_after n digits.now) }
{
    let mut n = n;
    for b in digits {
        n = (10 * n + u64::from(*b - b'0')).min(LIMIT);
    }
    n
}

// n with this many zeros after it, up to the limit.
fn with_zeros(n: u64, count: usize) -> u64
    requires { n ≤ LIMIT }
    ensures { result ≡ min LIMIT (n * 10 ^ count) }
{
    let mut m = n;
    if m == 0 {
        return 0;
    }
    for _ in 0..count {
        if m >= LIMIT {
            return LIMIT;
        }
        m = (10 * m).min(LIMIT);
    }
    m
}

// Ten times the size on the grid, rounded down, up to the limit. The digits that lie before the
// place after the grid's last one are enough, and zeros follow where there are too few.
fn tenths(decimals: u8, d: &Decimal<'_>) -> u64
    requires places { decimals ≤ DECIMALS_MAX }
    requires fits { Fits (decimal_view d.now) }
    ensures { result ≡ min LIMIT (tenths_of decimals (decimal_view d.now)) }
{
    let point = d.whole.len() + usize::from(decimals) + 1 + d.up as usize;
    let kept = point.saturating_sub(d.down as usize);
    let (front, _) = d.whole.split_at(kept.min(d.whole.len()));
    let left = kept - front.len();
    let (back, _) = d.fraction.split_at(left.min(d.fraction.len()));
    let number = number_after(number_after(0, front), back);
    with_zeros(number, left - back.len())
}

fn size_with_sign(negative: bool, size: u64) -> i32
    requires { size ≤ SIZE_MAX }
    ensures value { result ≡ spec.with_sign negative size }
    ensures within { unsigned_abs result ≤ BOX }
{
    let size = size as i32;
    if negative { -size } else { size }
}

/// The value of a decimal word times 10 ^ decimals, to the nearest whole number, halves away from zero. A decimal word
/// has an optional sign, digits with at most one point among, before or after them, and then optionally `e` or `E` with
/// an optional sign and one to three digits; at most 64 bytes in all. Any other word is of wrong form, and a value above
/// `BOX` in size is out of range.
pub fn grid_number(word: &[u8], decimals: u8) -> Result<i32, NumberWhy>
    requires { decimals ≤ DECIMALS_MAX }
    ensures value { result ≡ spec.grid_number_of decimals word.now }
    ensures within { IfOk result (λ n. unsigned_abs n ≤ BOX) }
{
    match parse_decimal(word) {
        None => Err(NumberWhy::Form),
        Some(d) => {
            let size = (tenths(decimals, &d) + 5) / 10;
            if size > SIZE_MAX {
                return Err(NumberWhy::Range);
            }
            Ok(size_with_sign(d.negative, size))
        }
    }
}
