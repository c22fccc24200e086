ghost use Rattle.std.specs.Prelude.{◌≡◌, ◌≤◌, IfOk};
ghost use Rattle.line_text.specs.Remaining.{parts_left};
ghost use Rattle.line_text.specs.Spellings as spelling;
ghost use Rattle.log_read.specs.Values.{whole};
ghost use Rattle.log_read.specs.Reading as spec;

use crate::values::{
    count_at, file_of, number_of, only_count, only_fault, only_pair, two_counts, without_more_words,
};
use grid_base::ID_MAX;
use line_text::{Parts, TextWhy, count_with_end, is_word, spelled_at};
use log_text::{CORNER_MAX, COUNT_MAX, LogLine, OLD_VERSION, Refusal, SEEN_MAX};
use mesh_base::{ShapeFault, UseWhy};

// The one further word, how much was seen.
fn only_seen(ended: bool, words: Parts<'_>) -> Result<u64, TextWhy>
    ensures { let read = spelling.spelled_at 0 SEEN_MAX in
        result ≡ whole ended 1 read (parts_left words.entry) }
{
    let mut words = words;
    count_with_end(ended, 1, words)?;
    spelled_at(&mut words, 0, SEEN_MAX)
}

#[tactic(auto, unfolding(crate::specs::Reading::long_of))]
fn long(version: u8, ended: bool, words: Parts<'_>) -> Result<LogLine, TextWhy>
    ensures { result ≡ spec.long_of version ended (parts_left words.entry) }
{
    let mut words = words;
    let Some(word) = words.next() else {
        return Err(TextWhy::Short);
    };
    match file_of(version, word) {
        None => Err(TextWhy::Unknown),
        Some(file) => {
            let seen = only_seen(ended, words)?;
            Ok(LogLine::Refused(Refusal::Long { file, seen }))
        }
    }
}

#[tactic(auto, unfolding(crate::specs::Reading::missing_of))]
fn missing(version: u8, ended: bool, words: Parts<'_>) -> Result<LogLine, TextWhy>
    ensures { result ≡ spec.missing_of version ended (parts_left words.entry) }
{
    let mut words = words;
    let Some(word) = words.next() else {
        return Err(TextWhy::Short);
    };
    match file_of(version, word) {
        None => Err(TextWhy::Unknown),
        Some(file) => without_more_words(ended, LogLine::Refused(Refusal::Missing { file }), words),
    }
}

#[tactic(auto, unfolding(crate::specs::Reading::shape_of))]
fn shape(ended: bool, words: Parts<'_>) -> Result<LogLine, TextWhy>
    ensures { result ≡ spec.shape_of ended (parts_left words.entry) }
{
    let mut words = words;
    let Some(word) = words.next() else {
        return Err(TextWhy::Short);
    };
    if is_word(word, b"vertices") {
        let count = only_seen(ended, words)?;
        return Ok(LogLine::Refused(Refusal::Shape(ShapeFault::TooManyVertices { count })));
    }
    if is_word(word, b"faces") {
        let count = only_seen(ended, words)?;
        return Ok(LogLine::Refused(Refusal::Shape(ShapeFault::TooManyFaces { count })));
    }
    if is_word(word, b"corner") {
        let (face, n) = two_counts(ended, u32::from(CORNER_MAX), words)?;
        let corner = n as u8;
        return Ok(LogLine::Refused(Refusal::Shape(ShapeFault::NoVertex { face, corner })));
    }
    if is_word(word, b"repeated") {
        let face = only_count(ended, 1, COUNT_MAX, words)?;
        return Ok(LogLine::Refused(Refusal::Shape(ShapeFault::Repeated { face })));
    }
    if is_word(word, b"doubled") {
        let (first, second) = two_counts(ended, COUNT_MAX, words)?;
        return Ok(LogLine::Refused(Refusal::Shape(ShapeFault::Doubled { first, second })));
    }
    if is_word(word, b"unbalanced") {
        let (from, to) = two_counts(ended, COUNT_MAX, words)?;
        return Ok(LogLine::Refused(Refusal::Shape(ShapeFault::Unbalanced { from, to })));
    }
    Err(TextWhy::Unknown)
}

// The number of a directive's line, and after the reason a vertex.
#[tactic(auto, unfolding(crate::specs::Reading::use_numbers))]
fn use_numbers(ended: bool, at: &[u8], words: Parts<'_>) -> Result<(u32, u32), TextWhy>
    ensures { result ≡ spec.use_numbers ended at.now (parts_left words.entry) }
{
    let mut words = words;
    count_with_end(ended, 1, words)?;
    let line = number_of(at, 1, COUNT_MAX)?;
    let v = count_at(&mut words, 1, ID_MAX)?;
    Ok((line, v))
}

// The number of a directive's line, with no word after the reason.
#[tactic(auto, unfolding(crate::specs::Reading::use_line))]
fn use_line(ended: bool, at: &[u8], words: Parts<'_>) -> Result<u32, TextWhy>
    ensures { result ≡ spec.use_line ended at.now (parts_left words.entry) }
{
    count_with_end(ended, 0, words)?;
    number_of(at, 1, COUNT_MAX)
}

// The refusal of a directive, by the number of its line, the reason and the words after that.
#[tactic(auto, unfolding(crate::specs::Reading::why_of_use))]
fn why_of_use(
    version: u8,
    ended: bool,
    at: &[u8],
    word: &[u8],
    words: Parts<'_>,
) -> Result<LogLine, TextWhy>
    ensures { result ≡ spec.why_of_use version ended at.now word.now (parts_left words.entry) }
{
    if is_word(word, b"vertex") {
        let (line, v) = use_numbers(ended, at, words)?;
        let why = UseWhy::NoVertex { v };
        return Ok(LogLine::Refused(Refusal::StepUse { line, why }));
    }
    if is_word(word, b"range") {
        let (line, v) = use_numbers(ended, at, words)?;
        let why = UseWhy::ShiftRange { v };
        return Ok(LogLine::Refused(Refusal::StepUse { line, why }));
    }
    if is_word(word, b"box") {
        let (line, v) = use_numbers(ended, at, words)?;
        let why = UseWhy::Box { v };
        return Ok(LogLine::Refused(Refusal::StepUse { line, why }));
    }
    if is_word(word, b"field") {
        let line = use_line(ended, at, words)?;
        let why = UseWhy::NoField;
        return Ok(LogLine::Refused(Refusal::StepUse { line, why }));
    }
    if is_word(word, b"solid") && version > OLD_VERSION {
        let (line, v) = use_numbers(ended, at, words)?;
        let why = UseWhy::Solid { v };
        return Ok(LogLine::Refused(Refusal::StepUse { line, why }));
    }
    if ended {
        return Err(TextWhy::Number);
    }
    Err(TextWhy::Short)
}

#[tactic(auto, unfolding(crate::specs::Reading::use_of))]
fn directive_use(version: u8, ended: bool, words: Parts<'_>) -> Result<LogLine, TextWhy>
    ensures { result ≡ spec.use_of version ended (parts_left words.entry) }
{
    let mut words = words;
    let Some(at) = words.next() else {
        return Err(TextWhy::Short);
    };
    let Some(word) = words.next() else {
        return Err(TextWhy::Short);
    };
    why_of_use(version, ended, at, word, words)
}

#[tactic(auto, unfolding(crate::specs::Reading::refused_of))]
pub(crate) fn refused(version: u8, ended: bool, words: Parts<'_>) -> Result<LogLine, TextWhy>
    ensures { result ≡ spec.refused_of version ended (parts_left words.entry) }
{
    let mut words = words;
    let Some(word) = words.next() else {
        return Err(TextWhy::Short);
    };
    if is_word(word, b"long") {
        return long(version, ended, words);
    }
    if is_word(word, b"missing") {
        return missing(version, ended, words);
    }
    if is_word(word, b"mesh") {
        let fault = only_fault(false, ended, words)?;
        return Ok(LogLine::Refused(Refusal::Mesh(fault)));
    }
    if is_word(word, b"shape") {
        return shape(ended, words);
    }
    if is_word(word, b"meets") {
        let pair = only_pair(ended, words)?;
        return Ok(LogLine::Refused(Refusal::Meets(pair)));
    }
    if is_word(word, b"steps") {
        let fault = only_fault(version > OLD_VERSION, ended, words)?;
        return Ok(LogLine::Refused(Refusal::Steps(fault)));
    }
    if is_word(word, b"use") {
        return directive_use(version, ended, words);
    }
    Err(TextWhy::Unknown)
}
