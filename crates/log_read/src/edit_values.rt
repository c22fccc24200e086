ghost use Rattle.std.specs.Prelude.{◌≡◌, drop};
ghost use Rattle.line_text.specs.Fields.{TakesParts};
ghost use Rattle.line_text.specs.Remaining.{parts_left};
ghost use Rattle.log_read.specs.EditLines as lines;
ghost use Rattle.log_read.specs.Values as spec;

use crate::values::{count_at, pair_at};
use edit_base::{CopyAt, Why};
use grid_base::{BOX, ID_MAX, Point};
use line_text::{Parts, TextWhy, count_with_end, is_word, point_with, spelled_signed_at};
use log_text::OLD_VERSION;
use mesh_base::VertexId;

#[tactic(auto, unfolding(crate::specs::Values::edge_at))]
pub(crate) fn edge_at(words: &mut Parts<'_>) -> Result<(VertexId, VertexId), TextWhy>
    ensures { TakesParts words.old words.new result spec.edge_at }
{
    let a = count_at(words, 1, ID_MAX)?;
    let b = count_at(words, a + 1, ID_MAX)?;
    Ok((VertexId(a), VertexId(b)))
}

#[tactic(auto, unfolding(crate::specs::Values::position_at))]
pub(crate) fn position_at(words: &mut Parts<'_>) -> Result<Point, TextWhy>
    ensures { TakesParts words.old words.new result spec.position_at }
{
    let x = spelled_signed_at(words, BOX)?;
    let y = spelled_signed_at(words, BOX)?;
    let z = spelled_signed_at(words, BOX)?;
    Ok(point_with(x, y, z))
}

#[tactic(auto, unfolding(crate::specs::Values::place_at))]
pub(crate) fn place_at(words: &mut Parts<'_>) -> Result<CopyAt, TextWhy>
    ensures { TakesParts words.old words.new result spec.place_at }
{
    let w = count_at(words, 1, ID_MAX)?;
    let at = position_at(words)?;
    Ok(CopyAt { w: VertexId(w), at })
}

#[tactic(auto, unfolding(crate::specs::Values::reason_of))]
fn reason_of(version: u8, word: &[u8]) -> Option<Why>
    ensures { result ≡ spec.reason_of version word.now }
{
    if is_word(word, b"noedge") {
        return Some(Why::NoEdge);
    }
    if is_word(word, b"crowded") {
        return Some(Why::Crowded);
    }
    if is_word(word, b"edge") {
        return Some(Why::Edge);
    }
    if is_word(word, b"shared") {
        return Some(Why::Shared);
    }
    if is_word(word, b"full") {
        return Some(Why::Full);
    }
    if is_word(word, b"doubled") {
        return Some(Why::Doubled);
    }
    if is_word(word, b"onefan") {
        return Some(Why::OneFan);
    }
    if is_word(word, b"solid") && version > OLD_VERSION {
        return Some(Why::Solid);
    }
    None
}

#[tactic(auto, unfolding(crate::specs::Values::reason_at))]
pub(crate) fn reason_at(version: u8, words: &mut Parts<'_>) -> Result<Why, TextWhy>
    ensures { TakesParts words.old words.new result (spec.reason_at version) }
{
    let Some(word) = words.next() else {
        return Err(TextWhy::Short);
    };
    if is_word(word, b"hit") {
        let pair = pair_at(words)?;
        return Ok(Why::Hit(pair));
    }
    match reason_of(version, word) {
        Some(why) => Ok(why),
        None => Err(TextWhy::Number),
    }
}

// The words after so many.
pub(crate) fn words_after<'a>(count: usize, words: Parts<'a>) -> Parts<'a>
    ensures { parts_left result ≡ drop count (parts_left words.entry) }
{
    let mut words = words;
    let mut left = count;
    while left > 0 {
        left -= 1;
        if words.next().is_none() {
            return words;
        }
    }
    words
}

// As many words after the reason as it asks for, and LF.
#[tactic(auto, unfolding(crate::specs::EditLines::reason_with_end))]
pub(crate) fn reason_with_end(version: u8, ended: bool, words: Parts<'_>) -> Result<(), TextWhy>
    ensures { result ≡ lines.reason_with_end version ended (parts_left words.entry) }
{
    let mut words = words;
    let Some(word) = words.next() else {
        return Err(TextWhy::Short);
    };
    if is_word(word, b"hit") {
        return count_with_end(ended, 3, words);
    }
    if reason_of(version, word).is_some() {
        return count_with_end(ended, 0, words);
    }
    if ended { Ok(()) } else { Err(TextWhy::Short) }
}
