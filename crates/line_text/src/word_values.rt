ghost use Rattle.std.specs.Prelude.{◌≡◌, ◌≤◌, ◌<◌, ◌+◌, ◌^◌, unsigned_abs, min, length, Some, IfOk};
ghost use Rattle.std.specs.Str.{bytes_eq};
ghost use Rattle.grid_base.specs.declared.TheConstants.{BOX, DECIMALS_MAX};
ghost use Rattle.line_text.specs.Remaining.{words_left};
ghost use Rattle.line_text.specs.Numbers as numbers;
ghost use Rattle.line_text.specs.Fields as spec;

use crate::blank_words::Words;
use crate::decimal::grid_number;
use crate::fault::TextWhy;
use crate::number::{NumberWhy, whole_parts};

/// Whether a word is this text.
pub fn is_word(word: &[u8], text: &[u8]) -> bool
    ensures { result ≡ bytes_eq word.now text.now }
{
    word == text
}

/// How many words there are, counted up to a limit.
pub fn count_up_to(most: usize, words: Words<'_>) -> usize
    ensures { result ≡ min most (length (words_left words.entry)) }
{
    let mut words = words;
    for k in 0..most {
        if words.next().is_none() {
            return k;
        }
    }
    most
}

/// That there are exactly so many words; else Short where there are fewer, and Long where there are more.
#[tactic(auto, unfolding(crate::specs::Fields::count_is))]
pub fn count_is(count: usize, words: Words<'_>) -> Result<(), TextWhy>
    requires { count < 2 ^ 63 }
    ensures { result ≡ spec.count_is count (words_left words.entry) }
{
    let found = count_up_to(count + 1, words);
    if found < count {
        return Err(TextWhy::Short);
    }
    if found > count {
        return Err(TextWhy::Long);
    }
    Ok(())
}

// The number of this sign and size, from `low` to `high`.
fn number_in(negative: bool, size: u64, low: u32, high: u32) -> Result<u32, TextWhy>
    ensures value { result ≡ spec.number_from low high (Some (negative, size)) }
    ensures above { IfOk result (λ n. low ≤ n) }
    ensures below { IfOk result (λ n. n ≤ high) }
{
    if size < u64::from(low) || size > u64::from(high) {
        return Err(TextWhy::Range);
    }
    if negative && size != 0 {
        return Err(TextWhy::Range);
    }
    Ok(size as u32)
}

/// The number that the next word writes, from `low` to `high`. Number where the word is no optional `-` and one to ten
/// digits, Range where its number is below `low` or above `high`; `-0` is 0. Short where there is no word.
#[tactic(auto, unfolding(crate::specs::Fields::number_at))]
pub fn number_at(words: &mut Words<'_>, low: u32, high: u32) -> Result<u32, TextWhy>
    ensures value { spec.TakesWords words.old words.new result (spec.number_at low high) }
    ensures above { IfOk result (λ n. low ≤ n) }
    ensures below { IfOk result (λ n. n ≤ high) }
{
    if let Some((negative, size)) = words.next_whole() {
        return number_in(negative, size, low, high);
    }
    let Some(word) = words.next() else {
        return Err(TextWhy::Short);
    };
    let Some((negative, size)) = whole_parts(word) else {
        return Err(TextWhy::Number);
    };
    number_in(negative, size, low, high)
}

/// The number that the next word writes, of a size up to `most`. Number where the word is no optional `-` and one to ten
/// digits, Range where its size is above `most`. Short where there is no word.
#[tactic(auto, unfolding(crate::specs::Fields::signed_at))]
pub fn signed_at(words: &mut Words<'_>, most: u32) -> Result<i32, TextWhy>
    requires { most < 2 ^ 31 }
    ensures value { spec.TakesWords words.old words.new result (spec.signed_at most) }
    ensures within { IfOk result (λ n. unsigned_abs n ≤ most) }
{
    if let Some((negative, size)) = words.next_whole() {
        return signed_in(negative, size, most);
    }
    let Some(word) = words.next() else {
        return Err(TextWhy::Short);
    };
    let Some((negative, size)) = whole_parts(word) else {
        return Err(TextWhy::Number);
    };
    signed_in(negative, size, most)
}

// The number of this sign and size, up to `most` in size.
fn signed_in(negative: bool, size: u64, most: u32) -> Result<i32, TextWhy>
    requires { most < 2 ^ 31 }
    ensures value { result ≡ spec.number_up_to most (Some (negative, size)) }
    ensures within { IfOk result (λ n. unsigned_abs n ≤ most) }
{
    if size > u64::from(most) {
        return Err(TextWhy::Range);
    }
    Ok(narrow_with_sign(negative, size))
}

fn narrow_with_sign(negative: bool, size: u64) -> i32
    requires { size < 2 ^ 31 }
    ensures value { result ≡ numbers.with_sign negative size }
    ensures within { unsigned_abs result ≡ size }
{
    let size = size as i32;
    if negative { -size } else { size }
}

/// The value of a decimal word on a grid of so many decimals, as `grid_number`; Number where the word is of wrong form, and
/// Range where its value is out of range.
#[tactic(auto, unfolding(crate::specs::Fields::coordinate_of))]
pub fn coordinate(word: &[u8], decimals: u8) -> Result<i32, TextWhy>
    requires { decimals ≤ DECIMALS_MAX }
    ensures value { result ≡ spec.coordinate_of decimals word.now }
    ensures within { IfOk result (λ n. unsigned_abs n ≤ BOX) }
{
    match grid_number(word, decimals) {
        Ok(n) => Ok(n),
        Err(NumberWhy::Form) => Err(TextWhy::Number),
        Err(NumberWhy::Range) => Err(TextWhy::Range),
    }
}
