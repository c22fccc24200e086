ghost use Rattle.std.specs.Prelude.{◌≡◌};
ghost use Rattle.line_text.specs.Faults.{GivesAt};
ghost use Rattle.line_text.specs.Remaining.{parts_left};
ghost use Rattle.line_text.specs.Spellings.{spaced_words};
ghost use Rattle.log_read.specs.Reading as spec;

use crate::edit_lines::edit;
use crate::listed::{block, new_ids, pinch};
use crate::refusals::refused;
use crate::values::{count_at, only_count, only_pair, shift_of_at, without_more_words};
use grid_base::{HALVINGS_MAX, ID_MAX};
use line_text::{Parts, ReadFault, TextFault, TextWhy, count_with_end, is_word};
use log_text::{COUNT_MAX, IDS_VERSION, LogLine, OLD_VERSION, PASSES_MAX};
use mesh_base::{How, Scale, VertexId};
use std::alloc::Global;

#[tactic(auto, unfolding(crate::specs::Reading::first_of))]
fn first(version: u8, ended: bool, words: Parts<'_>) -> Result<LogLine, TextWhy>
    ensures { result ≡ spec.first_of version ended (parts_left words.entry) }
{
    let mut words = words;
    let Some(name) = words.next() else {
        return Err(TextWhy::Short);
    };
    if is_word(name, b"log") {
        let version = only_count(ended, u32::from(version), u32::from(version), words)?;
        return Ok(LogLine::First {
            version: version as u8,
        });
    }
    Err(TextWhy::Unknown)
}

#[tactic(auto, unfolding(crate::specs::Reading::mesh_of))]
fn mesh(scale: Scale, ended: bool, words: Parts<'_>) -> Result<LogLine, TextWhy>
    ensures { result ≡ spec.mesh_of scale ended (parts_left words.entry) }
{
    let limits = scale.limits();
    let mut words = words;
    count_with_end(ended, 3, words)?;
    let k = count_at(&mut words, 0, COUNT_MAX)?;
    let vertices = count_at(&mut words, 0, limits.vertices)?;
    let faces = count_at(&mut words, 0, limits.faces)?;
    Ok(LogLine::Mesh { k, vertices, faces })
}

#[tactic(auto, unfolding(crate::specs::Reading::step_of))]
fn step(ended: bool, words: Parts<'_>) -> Result<LogLine, TextWhy>
    ensures { result ≡ spec.step_of ended (parts_left words.entry) }
{
    let k = only_count(ended, 1, COUNT_MAX, words)?;
    Ok(LogLine::Step { k })
}

#[tactic(auto, unfolding(crate::specs::Reading::hit_of))]
fn hit(ended: bool, words: Parts<'_>) -> Result<LogLine, TextWhy>
    ensures { result ≡ spec.hit_of ended (parts_left words.entry) }
{
    let pair = only_pair(ended, words)?;
    Ok(LogLine::Hit(pair))
}

#[tactic(auto, unfolding(crate::specs::Reading::move_of))]
fn move_line(ended: bool, words: Parts<'_>) -> Result<LogLine, TextWhy>
    ensures { result ≡ spec.move_of ended (parts_left words.entry) }
{
    let mut words = words;
    count_with_end(ended, 4, words)?;
    let s = shift_of_at(&mut words)?;
    Ok(LogLine::Move(s))
}

// The greatest number of rounds of impact zones.
fn rounds_most(scale: Scale) -> u32
    ensures { result ≡ spec.rounds_most scale }
{
    scale.limits().vertices.saturating_sub(1)
}

#[tactic(auto, unfolding(crate::specs::Reading::moved_of))]
fn moved(scale: Scale, ended: bool, words: Parts<'_>) -> Result<LogLine, TextWhy>
    ensures { result ≡ spec.moved_of scale ended (parts_left words.entry) }
{
    let mut words = words;
    let Some(how) = words.next() else {
        return Err(TextWhy::Short);
    };
    if is_word(how, b"whole") {
        return without_more_words(ended, LogLine::Moved(How::Whole), words);
    }
    if is_word(how, b"impulse") {
        let n = only_count(ended, 1, u32::from(PASSES_MAX), words)?;
        return Ok(LogLine::Moved(How::Impulse { passes: n as u8 }));
    }
    if is_word(how, b"zones") {
        let rounds = only_count(ended, 1, rounds_most(scale), words)?;
        return Ok(LogLine::Moved(How::Zones { rounds }));
    }
    if is_word(how, b"halved") {
        let n = only_count(ended, 1, u32::from(HALVINGS_MAX), words)?;
        return Ok(LogLine::Moved(How::Halved { times: n as u8 }));
    }
    if is_word(how, b"zero") {
        return without_more_words(ended, LogLine::Moved(How::Zero), words);
    }
    Err(TextWhy::Unknown)
}

#[tactic(auto, unfolding(crate::specs::Reading::solid_of))]
fn solid(ended: bool, words: Parts<'_>) -> Result<LogLine, TextWhy>
    ensures { result ≡ spec.solid_of ended (parts_left words.entry) }
{
    let v = only_count(ended, 1, ID_MAX, words)?;
    Ok(LogLine::Solid { v: VertexId(v) })
}

#[tactic(auto, unfolding(crate::specs::Reading::close_of))]
fn close(ended: bool, words: Parts<'_>) -> Result<LogLine, TextWhy>
    ensures { result ≡ spec.close_of ended (parts_left words.entry) }
{
    let mut words = words;
    let Some(word) = words.next() else {
        return Err(TextWhy::Short);
    };
    if is_word(word, b"kept") {
        return without_more_words(ended, LogLine::Close { kept: true }, words);
    }
    if is_word(word, b"undone") {
        return without_more_words(ended, LogLine::Close { kept: false }, words);
    }
    Err(TextWhy::Unknown)
}

#[tactic(auto, unfolding(crate::specs::Reading::plain_of))]
fn plain(
    scale: Scale,
    version: u8,
    ended: bool,
    form: &[u8],
    words: Parts<'_>,
) -> Result<LogLine, TextWhy>
    ensures { result ≡ spec.plain_of scale version ended form.now (parts_left words.entry) }
{
    if is_word(form, b"topo") {
        return first(version, ended, words);
    }
    if is_word(form, b"mesh") {
        return mesh(scale, ended, words);
    }
    if is_word(form, b"step") {
        return step(ended, words);
    }
    if is_word(form, b"hit") {
        return hit(ended, words);
    }
    if is_word(form, b"move") {
        return move_line(ended, words);
    }
    if is_word(form, b"moved") {
        return moved(scale, ended, words);
    }
    if is_word(form, b"refused") {
        return refused(version, ended, words);
    }
    if is_word(form, b"end") {
        return without_more_words(ended, LogLine::End, words);
    }
    if is_word(form, b"solid") && version > OLD_VERSION {
        return solid(ended, words);
    }
    if is_word(form, b"group") && version > OLD_VERSION {
        return without_more_words(ended, LogLine::Group, words);
    }
    if is_word(form, b"close") && version > OLD_VERSION {
        return close(ended, words);
    }
    edit(version, ended, form, words)
}

// What was read of a line, with its number at a fault.
fn placed(read: Result<LogLine, TextWhy>, number: u32) -> Result<LogLine, ReadFault>
    ensures { GivesAt number result read }
{
    match read {
        Ok(line) => Ok(line),
        Err(why) => Err(ReadFault::Text(TextFault { line: number, why })),
    }
}

#[tactic(auto, unfolding(crate::specs::Reading::line_of))]
pub(crate) fn read_line(
    alloc: Global,
    scale: Scale,
    version: u8,
    ended: bool,
    text: &[u8],
    number: u32,
) -> Result<LogLine, ReadFault>
    ensures { GivesAt number result (spec.line_of scale version ended (spaced_words text.now)) }
{
    let mut words = Parts::new(b' ', text);
    let Some(form) = words.next() else {
        return placed(Err(TextWhy::Unknown), number);
    };
    if is_word(form, b"block") {
        return block(alloc, ended, words, number);
    }
    if is_word(form, b"pinch") {
        return pinch(alloc, ended, words, number);
    }
    if is_word(form, b"vertices") && version == IDS_VERSION {
        let new = new_ids(alloc, ended, words, number)?;
        return Ok(LogLine::Vertices(new));
    }
    if is_word(form, b"faces") && version == IDS_VERSION {
        let new = new_ids(alloc, ended, words, number)?;
        return Ok(LogLine::Faces(new));
    }
    placed(plain(scale, version, ended, form, words), number)
}
