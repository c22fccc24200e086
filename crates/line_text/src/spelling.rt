ghost use Rattle.std.specs.Prelude.{◌≡◌, ◌≤◌, ◌<◌, ◌^◌, unsigned_abs, min, length, IfOk, IfSome};
ghost use Rattle.line_text.specs.declared.number.TheConstants.{DIGITS_MAX};
ghost use Rattle.line_text.specs.Fields.{TakesParts};
ghost use Rattle.line_text.specs.Numbers as numbers;
ghost use Rattle.line_text.specs.Remaining.{parts_left};
ghost use Rattle.line_text.specs.Spellings as spec;

use crate::fault::TextWhy;
use crate::number::{DIGITS_MAX, begins_with, number_within};
use crate::pieces::Parts;

/// The number that a word spells: one to `DIGITS_MAX` digits, with no needless zero in front. None where the word is
/// anything else.
pub fn spelled_number(word: &[u8]) -> Option<u128>
    ensures value { result ≡ spec.spelled_number word.now }
    ensures below { IfSome result (λ n. n < 10 ^ DIGITS_MAX) }
{
    if word.len() > 1 && word[0] == b'0' {
        return None;
    }
    number_within(DIGITS_MAX, word)
}

/// The sign and the size of the number that a word spells, where `-` stands before all but 0: whether the `-` is there, and
/// the number after it. None where the word is anything else.
pub fn spelled_parts(word: &[u8]) -> Option<(bool, u128)>
    ensures value { result ≡ spec.spelled_parts word.now }
    ensures below { IfSome result (λ parts. parts.1 < 10 ^ DIGITS_MAX) }
{
    if begins_with(b'-', word) {
        let size = spelled_number(word.split_at(1).1)?;
        if size == 0 {
            return None;
        }
        Some((true, size))
    } else {
        let size = spelled_number(word)?;
        Some((false, size))
    }
}

/// The number that a word spells, from `low` to `high`; Number where the word spells none of them.
pub fn spelled_from(word: &[u8], low: u64, high: u64) -> Result<u64, TextWhy>
    ensures value { result ≡ spec.spelled_from low high (spec.spelled_number word.now) }
    ensures above { IfOk result (λ n. low ≤ n) }
    ensures below { IfOk result (λ n. n ≤ high) }
{
    let Some(n) = spelled_number(word) else {
        return Err(TextWhy::Number);
    };
    if n < u128::from(low) || n > u128::from(high) {
        return Err(TextWhy::Number);
    }
    Ok(n as u64)
}

/// The number that the next word spells, from `low` to `high`; Number where the word spells none of them, and Short where
/// there is no word.
#[tactic(auto, unfolding(crate::specs::Spellings::spelled_at))]
pub fn spelled_at(words: &mut Parts<'_>, low: u64, high: u64) -> Result<u64, TextWhy>
    ensures value { TakesParts words.old words.new result (spec.spelled_at low high) }
    ensures above { IfOk result (λ n. low ≤ n) }
    ensures below { IfOk result (λ n. n ≤ high) }
{
    let Some(word) = words.next() else {
        return Err(TextWhy::Short);
    };
    spelled_from(word, low, high)
}

/// The number that the next word spells, of a size up to `most`; Number where the word spells none of them, and Short where
/// there is no word.
#[tactic(auto, unfolding(crate::specs::Spellings::spelled_signed_at))]
pub fn spelled_signed_at(words: &mut Parts<'_>, most: u32) -> Result<i32, TextWhy>
    requires { most < 2 ^ 31 }
    ensures value { TakesParts words.old words.new result (spec.spelled_signed_at most) }
    ensures within { IfOk result (λ n. unsigned_abs n ≤ most) }
{
    let Some(word) = words.next() else {
        return Err(TextWhy::Short);
    };
    let Some((negative, size)) = spelled_parts(word) else {
        return Err(TextWhy::Number);
    };
    if size > u128::from(most) {
        return Err(TextWhy::Number);
    }
    Ok(narrow(negative, size))
}

/// The number that the next word spells, of a size up to `most`, which may have more than 32 bits; Number where the word spells
/// none of them, and Short where there is no word.
#[tactic(auto, unfolding(crate::specs::Spellings::spelled_signed_at))]
pub fn spelled_wide_at(words: &mut Parts<'_>, most: u128) -> Result<i128, TextWhy>
    requires { most < 2 ^ 127 }
    ensures value { TakesParts words.old words.new result (spec.spelled_signed_at most) }
    ensures within { IfOk result (λ n. unsigned_abs n ≤ most) }
{
    let Some(word) = words.next() else {
        return Err(TextWhy::Short);
    };
    let Some((negative, size)) = spelled_parts(word) else {
        return Err(TextWhy::Number);
    };
    if size > most {
        return Err(TextWhy::Number);
    }
    Ok(with_wide_sign(negative, size))
}

// The number of this sign and size.
fn with_wide_sign(negative: bool, size: u128) -> i128
    requires { size < 2 ^ 127 }
    ensures value { result ≡ numbers.with_sign negative size }
    ensures within { unsigned_abs result ≡ size }
{
    let size = size as i128;
    if negative { -size } else { size }
}

// The number of this sign and size.
fn narrow(negative: bool, size: u128) -> i32
    requires { size < 2 ^ 31 }
    ensures value { result ≡ numbers.with_sign negative size }
    ensures within { unsigned_abs result ≡ size }
{
    let size = size as i32;
    if negative { -size } else { size }
}

/// How many words there are, counted up to a limit.
pub fn count_parts_up_to(most: usize, words: Parts<'_>) -> usize
    ensures { result ≡ min most (length (parts_left words.entry)) }
{
    let mut words = words;
    for k in 0..most {
        if words.next().is_none() {
            return k;
        }
    }
    most
}

/// That there are exactly so many words, and LF after them (`ended`); else Short where there are fewer, or where there is
/// no LF, and then Long where there are more.
#[tactic(auto, unfolding(crate::specs::Spellings::count_with_end))]
pub fn count_with_end(ended: bool, count: usize, words: Parts<'_>) -> Result<(), TextWhy>
    requires { count < 2 ^ 32 }
    ensures { result ≡ spec.count_with_end ended count (parts_left words.entry) }
{
    let found = count_parts_up_to(count + 1, words);
    if found < count {
        return Err(TextWhy::Short);
    }
    if !ended {
        return Err(TextWhy::Short);
    }
    if found > count {
        return Err(TextWhy::Long);
    }
    Ok(())
}
