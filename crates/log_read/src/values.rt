ghost use Rattle.std.specs.Prelude.{◌≡◌, ◌≤◌, IfOk};
ghost use Rattle.line_text.specs.Fields.{TakesParts};
ghost use Rattle.line_text.specs.Remaining.{parts_left};
ghost use Rattle.line_text.specs.Spellings as spelling;
ghost use Rattle.log_read.specs.Reading as reading;
ghost use Rattle.log_read.specs.Fields.{both};
ghost use Rattle.log_read.specs.Values as spec;

use grid_base::{ID_MAX, SHIFT_MAX};
use line_text::{
    Parts, TextFault, TextWhy, count_with_end, is_word, shift_with, spelled_at, spelled_from,
    spelled_signed_at,
};
use log_text::{COUNT_MAX, LogLine, OLD_VERSION};
use mesh_base::{FaceId, FileWord, PairName, ShiftOf, VertexId};

// The number that a word spells, from low to high.
pub(crate) fn number_of(word: &[u8], low: u32, high: u32) -> Result<u32, TextWhy>
    ensures value { result ≡ spelling.spelled_from low high (spelling.spelled_number word.now) }
    ensures below { IfOk result (λ n. n ≤ high) }
{
    let n = spelled_from(word, u64::from(low), u64::from(high))?;
    Ok(n as u32)
}

// The number that the next word spells, from low to high.
pub(crate) fn count_at(words: &mut Parts<'_>, low: u32, high: u32) -> Result<u32, TextWhy>
    ensures value { TakesParts words.old words.new result (spelling.spelled_at low high) }
    ensures above { IfOk result (λ n. low ≤ n) }
    ensures below { IfOk result (λ n. n ≤ high) }
{
    let n = spelled_at(words, u64::from(low), u64::from(high))?;
    Ok(n as u32)
}

/// The pair that the next three words spell: the smaller end of an edge, its larger end, and a face; Number where a word spells
/// none of them, and Short where there are fewer.
#[tactic(auto, unfolding(crate::specs::Values::pair_at))]
pub fn pair_at(words: &mut Parts<'_>) -> Result<PairName, TextWhy>
    ensures { TakesParts words.old words.new result spec.pair_at }
{
    let a = count_at(words, 1, ID_MAX)?;
    let b = count_at(words, a + 1, ID_MAX)?;
    let face = count_at(words, 1, ID_MAX)?;
    Ok(PairName {
        a: VertexId(a),
        b: VertexId(b),
        face: FaceId(face),
    })
}

#[tactic(auto, unfolding(crate::specs::Values::shift_of_at))]
pub(crate) fn shift_of_at(words: &mut Parts<'_>) -> Result<ShiftOf, TextWhy>
    ensures { TakesParts words.old words.new result spec.shift_of_at }
{
    let v = count_at(words, 1, ID_MAX)?;
    let x = spelled_signed_at(words, SHIFT_MAX)?;
    let y = spelled_signed_at(words, SHIFT_MAX)?;
    let z = spelled_signed_at(words, SHIFT_MAX)?;
    Ok(ShiftOf {
        v: VertexId(v),
        by: shift_with(x, y, z),
    })
}

#[tactic(auto, unfolding(crate::specs::Values::why_of))]
fn why_of(groups: bool, word: &[u8]) -> Option<TextWhy>
    ensures { result ≡ spec.why_of groups word.now }
{
    if is_word(word, b"number") {
        return Some(TextWhy::Number);
    }
    if is_word(word, b"corner") {
        return Some(TextWhy::Corner);
    }
    if is_word(word, b"range") {
        return Some(TextWhy::Range);
    }
    if is_word(word, b"short") {
        return Some(TextWhy::Short);
    }
    if is_word(word, b"long") {
        return Some(TextWhy::Long);
    }
    if is_word(word, b"unknown") {
        return Some(TextWhy::Unknown);
    }
    if is_word(word, b"continuation") {
        return Some(TextWhy::Continuation);
    }
    if is_word(word, b"nesting") && groups {
        return Some(TextWhy::Nesting);
    }
    None
}

#[tactic(auto, unfolding(crate::specs::Values::why_at))]
fn why_at(groups: bool, words: &mut Parts<'_>) -> Result<TextWhy, TextWhy>
    ensures { TakesParts words.old words.new result (spec.why_at groups) }
{
    let Some(word) = words.next() else {
        return Err(TextWhy::Short);
    };
    match why_of(groups, word) {
        Some(why) => Ok(why),
        None => Err(TextWhy::Number),
    }
}

#[tactic(auto, unfolding(crate::specs::Values::fault_at))]
fn fault_at(groups: bool, words: &mut Parts<'_>) -> Result<TextFault, TextWhy>
    ensures { TakesParts words.old words.new result (spec.fault_at groups) }
{
    let line = count_at(words, 1, COUNT_MAX)?;
    let why = why_at(groups, words)?;
    Ok(TextFault { line, why })
}

// The one further word, a number from low to high.
pub(crate) fn only_count(ended: bool, low: u32, high: u32, words: Parts<'_>) -> Result<u32, TextWhy>
    ensures value { let read = spelling.spelled_at low high in
        result ≡ spec.whole ended 1 read (parts_left words.entry) }
    ensures above { IfOk result (λ n. low ≤ n) }
    ensures below { IfOk result (λ n. n ≤ high) }
{
    let mut words = words;
    count_with_end(ended, 1, words)?;
    count_at(&mut words, low, high)
}

// The two further words, numbers from 1.
pub(crate) fn two_counts(ended: bool, high: u32, words: Parts<'_>) -> Result<(u32, u32), TextWhy>
    ensures value { let first = spelling.spelled_at 1 COUNT_MAX in
        let read = both first (spelling.spelled_at 1 high) in
        result ≡ spec.whole ended 2 read (parts_left words.entry) }
    ensures below { IfOk result (λ n. n.1 ≤ high) }
{
    let mut words = words;
    count_with_end(ended, 2, words)?;
    let first = count_at(&mut words, 1, COUNT_MAX)?;
    let second = count_at(&mut words, 1, high)?;
    Ok((first, second))
}

// The three further words, a pair.
pub(crate) fn only_pair(ended: bool, words: Parts<'_>) -> Result<PairName, TextWhy>
    ensures { result ≡ spec.whole ended 3 spec.pair_at (parts_left words.entry) }
{
    let mut words = words;
    count_with_end(ended, 3, words)?;
    pair_at(&mut words)
}

// The two further words, the number of a line and the reason why it can't be read.
pub(crate) fn only_fault(groups: bool, ended: bool, words: Parts<'_>) -> Result<TextFault, TextWhy>
    ensures { result ≡ spec.whole ended 2 (spec.fault_at groups) (parts_left words.entry) }
{
    let mut words = words;
    count_with_end(ended, 2, words)?;
    fault_at(groups, &mut words)
}

pub(crate) fn without_more_words(
    ended: bool,
    line: LogLine,
    words: Parts<'_>,
) -> Result<LogLine, TextWhy>
    ensures { result ≡ spec.without_more_words ended line (parts_left words.entry) }
{
    count_with_end(ended, 0, words)?;
    Ok(line)
}

#[tactic(auto, unfolding(crate::specs::Reading::file_of))]
pub(crate) fn file_of(version: u8, word: &[u8]) -> Option<FileWord>
    ensures { result ≡ reading.file_of version word.now }
{
    if is_word(word, b"mesh") {
        return Some(FileWord::Mesh);
    }
    if is_word(word, b"steps") {
        return Some(FileWord::Steps);
    }
    if is_word(word, b"log") && version > OLD_VERSION {
        return Some(FileWord::Log);
    }
    if is_word(word, b"proof") && version > OLD_VERSION {
        return Some(FileWord::Proof);
    }
    None
}
