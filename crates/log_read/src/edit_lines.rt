ghost use Rattle.std.specs.Prelude.{◌≡◌};
ghost use Rattle.line_text.specs.Remaining.{parts_left};
ghost use Rattle.line_text.specs.Spellings.{spelled_at};
ghost use Rattle.grid_base.specs.declared.TheConstants.{ID_MAX};
ghost use Rattle.log_read.specs.Fields.{both};
ghost use Rattle.log_read.specs.Values.{edge_at};
ghost use Rattle.log_read.specs.EditLines as spec;

use crate::edit_values::{edge_at, place_at, position_at, reason_at, reason_with_end, words_after};
use crate::values::{count_at, only_count, without_more_words};
use edit_base::{Asked, Change, PassKind, Why};
use grid_base::{ID_MAX, LENGTH_MAX};
use line_text::{Parts, TextWhy, count_with_end, is_word};
use log_text::{LogLine, OLD_VERSION, TURN_MAX};
use mesh_base::VertexId;

// The length that a pass goes by.
fn length(ended: bool, words: Parts<'_>) -> Result<u32, TextWhy>
    ensures { result ≡ spec.length_of ended (parts_left words.entry) }
{
    only_count(ended, 0, LENGTH_MAX, words)
}

#[tactic(auto, unfolding(crate::specs::EditLines::pass_of))]
fn pass(version: u8, ended: bool, words: Parts<'_>) -> Result<LogLine, TextWhy>
    ensures { result ≡ spec.pass_of version ended (parts_left words.entry) }
{
    let mut words = words;
    let Some(kind) = words.next() else {
        return Err(TextWhy::Short);
    };
    if is_word(kind, b"split") {
        let over = length(ended, words)?;
        return Ok(LogLine::Pass(PassKind::Split { over }));
    }
    if is_word(kind, b"collapse") {
        let under = length(ended, words)?;
        return Ok(LogLine::Pass(PassKind::Collapse { under }));
    }
    if is_word(kind, b"flip") {
        return without_more_words(ended, LogLine::Pass(PassKind::Flip), words);
    }
    if is_word(kind, b"zip") {
        let within = length(ended, words)?;
        return Ok(LogLine::Pass(PassKind::Zip { within }));
    }
    if is_word(kind, b"pinch") {
        return without_more_words(ended, LogLine::Pass(PassKind::Pinch), words);
    }
    if is_word(kind, b"fit") && version > OLD_VERSION {
        return without_more_words(ended, LogLine::PassFit, words);
    }
    Err(TextWhy::Unknown)
}

#[tactic(auto, unfolding(crate::specs::EditLines::split_of))]
fn split(ended: bool, words: Parts<'_>) -> Result<LogLine, TextWhy>
    ensures { result ≡ spec.split_of ended (parts_left words.entry) }
{
    let mut words = words;
    count_with_end(ended, 6, words)?;
    let (a, b) = edge_at(&mut words)?;
    let place = place_at(&mut words)?;
    Ok(LogLine::Did(Change::Split {
        a,
        b,
        w: place.w,
        at: place.at,
    }))
}

#[tactic(auto, unfolding(crate::specs::EditLines::flip_of))]
fn flip(ended: bool, words: Parts<'_>) -> Result<LogLine, TextWhy>
    ensures { result ≡ spec.flip_of ended (parts_left words.entry) }
{
    let mut words = words;
    count_with_end(ended, 2, words)?;
    let (a, b) = edge_at(&mut words)?;
    Ok(LogLine::Did(Change::Flip { a, b }))
}

#[tactic(auto, unfolding(crate::specs::EditLines::collapse_of))]
fn collapse(ended: bool, words: Parts<'_>) -> Result<LogLine, TextWhy>
    ensures { result ≡ spec.collapse_of ended (parts_left words.entry) }
{
    let mut words = words;
    count_with_end(ended, 5, words)?;
    let (a, b) = edge_at(&mut words)?;
    let at = position_at(&mut words)?;
    Ok(LogLine::Did(Change::Collapse { a, b, at }))
}

#[tactic(auto, unfolding(crate::specs::EditLines::zip_of))]
fn zip(ended: bool, words: Parts<'_>) -> Result<LogLine, TextWhy>
    ensures { result ≡ spec.zip_of ended (parts_left words.entry) }
{
    let mut words = words;
    count_with_end(ended, 5, words)?;
    let (a, b) = edge_at(&mut words)?;
    let (e, f) = edge_at(&mut words)?;
    let turn = count_at(&mut words, 0, u32::from(TURN_MAX))? as u8;
    Ok(LogLine::Did(Change::Zip { a, b, e, f, turn }))
}

// An edge, and the reason.
#[tactic(auto, unfolding(crate::specs::EditLines::asked_of))]
fn asked_edge(
    version: u8,
    ended: bool,
    words: Parts<'_>,
) -> Result<((VertexId, VertexId), Why), TextWhy>
    ensures { result ≡ spec.asked_of version ended 2 edge_at (parts_left words.entry) }
{
    let mut words = words;
    reason_with_end(version, ended, words_after(2, words))?;
    let edge = edge_at(&mut words)?;
    let why = reason_at(version, &mut words)?;
    Ok((edge, why))
}

// Two edges, and the reason.
#[tactic(auto, unfolding(crate::specs::EditLines::asked_of))]
fn asked_edges(
    version: u8,
    ended: bool,
    words: Parts<'_>,
) -> Result<(((VertexId, VertexId), (VertexId, VertexId)), Why), TextWhy>
    ensures { result ≡
        spec.asked_of version ended 4 (both edge_at edge_at) (parts_left words.entry) }
{
    let mut words = words;
    reason_with_end(version, ended, words_after(4, words))?;
    let first = edge_at(&mut words)?;
    let second = edge_at(&mut words)?;
    let why = reason_at(version, &mut words)?;
    Ok(((first, second), why))
}

// A vertex, and the reason.
#[tactic(auto, unfolding(crate::specs::EditLines::asked_of))]
fn asked_vertex(version: u8, ended: bool, words: Parts<'_>) -> Result<(u32, Why), TextWhy>
    ensures { result ≡
        spec.asked_of version ended 1 (spelled_at 1 ID_MAX) (parts_left words.entry) }
{
    let mut words = words;
    reason_with_end(version, ended, words_after(1, words))?;
    let v = count_at(&mut words, 1, ID_MAX)?;
    let why = reason_at(version, &mut words)?;
    Ok((v, why))
}

#[tactic(auto, unfolding(crate::specs::EditLines::no_of))]
fn no(version: u8, ended: bool, words: Parts<'_>) -> Result<LogLine, TextWhy>
    ensures { result ≡ spec.no_of version ended (parts_left words.entry) }
{
    let mut words = words;
    let Some(edit) = words.next() else {
        return Err(TextWhy::Short);
    };
    if is_word(edit, b"split") {
        let ((a, b), why) = asked_edge(version, ended, words)?;
        let what = Asked::Split { a, b };
        return Ok(LogLine::No { what, why });
    }
    if is_word(edit, b"flip") {
        let ((a, b), why) = asked_edge(version, ended, words)?;
        let what = Asked::Flip { a, b };
        return Ok(LogLine::No { what, why });
    }
    if is_word(edit, b"collapse") {
        let ((a, b), why) = asked_edge(version, ended, words)?;
        let what = Asked::Collapse { a, b };
        return Ok(LogLine::No { what, why });
    }
    if is_word(edit, b"zip") {
        let (((a, b), (e, f)), why) = asked_edges(version, ended, words)?;
        let what = Asked::Zip { a, b, e, f };
        return Ok(LogLine::No { what, why });
    }
    if is_word(edit, b"pinch") {
        let (v, why) = asked_vertex(version, ended, words)?;
        let what = Asked::Pinch { v: VertexId(v) };
        return Ok(LogLine::No { what, why });
    }
    Err(TextWhy::Unknown)
}

#[tactic(auto, unfolding(crate::specs::EditLines::edit_of))]
pub(crate) fn edit(
    version: u8,
    ended: bool,
    form: &[u8],
    words: Parts<'_>,
) -> Result<LogLine, TextWhy>
    ensures { result ≡ spec.edit_of version ended form.now (parts_left words.entry) }
{
    if is_word(form, b"pass") {
        return pass(version, ended, words);
    }
    if is_word(form, b"split") {
        return split(ended, words);
    }
    if is_word(form, b"flip") {
        return flip(ended, words);
    }
    if is_word(form, b"collapse") {
        return collapse(ended, words);
    }
    if is_word(form, b"zip") {
        return zip(ended, words);
    }
    if is_word(form, b"no") {
        return no(version, ended, words);
    }
    Err(TextWhy::Unknown)
}
