ghost use Rattle.std.specs.Prelude.{◌≡◌, ◌≤◌, ◌<◌, ◌^◌, length, IfOk};
ghost use Rattle.grid_base.specs.declared.TheConstants.{TEXT_MAX, DECIMALS_MAX};
ghost use Rattle.line_text.specs.Faults.{Gives};
ghost use Rattle.line_text.specs.Remaining.{words_left};
ghost use Rattle.line_text.specs.Texts.{words_of};
ghost use Rattle.obj_text.specs.Views.{lists_view};
ghost use Rattle.other_text.specs.Off as spec;
ghost use Rattle.other_text.specs.OffViews.{progress_of, GoesOn};

use crate::rows::{add_face, count, point};
use line_text::{Lines, ReadFault, TextFault, TextWhy, Words, is_word, words};
use mesh_base::{MeshLists, Points, Triangles};
use std::alloc::Global;

// What the next line with words has to be.
#[derive(Clone, Copy)]
pub(crate) enum LineKind {
    // The word OFF.
    Name,
    // How many vertices and faces there are.
    Counts,
    // A vertex or a face.
    Rows,
}

// How far a text was read.
#[derive(Drop)]
pub(crate) struct ParserState {
    wanted: LineKind,
    points_left: u64,
    faces_left: u64,
    lists: MeshLists,
}

// That the words are the one word OFF.
#[tactic(auto, unfolding(crate::specs::Off::name_of))]
fn name(words: Words<'_>) -> Result<(), TextWhy>
    ensures { result ≡ spec.name_of (words_left words.entry) }
{
    let mut words = words;
    let Some(word) = words.next() else {
        return Err(TextWhy::Unknown);
    };
    if words.next().is_some() {
        return Err(TextWhy::Unknown);
    }
    if is_word(word, b"OFF") {
        Ok(())
    } else {
        Err(TextWhy::Unknown)
    }
}

// How many vertices and how many faces there are.
#[tactic(auto, unfolding(crate::specs::Off::counts_of))]
fn counts(words: Words<'_>) -> Result<(u64, u64), TextWhy>
    ensures { result ≡ spec.counts_of (words_left words.entry) }
{
    let mut words = words;
    let Some(v) = words.next() else {
        return Err(TextWhy::Short);
    };
    let Some(f) = words.next() else {
        return Err(TextWhy::Short);
    };
    let v = count(v)?;
    let f = count(f)?;
    Ok((v, f))
}

// Adds a row.
#[tactic(auto, unfolding(crate::specs::Off::row_adds))]
fn add_row(
    reading: &mut ParserState,
    decimals: u8,
    words: Words<'_>,
    line: u32,
) -> Result<(), ReadFault>
    requires { decimals ≤ DECIMALS_MAX }
    ensures { GoesOn reading.old reading.new result line
        (λ p. spec.row_adds decimals p (words_left words.entry)) }
{
    if reading.points_left == 0 {
        if reading.faces_left == 0 {
            return Err(ReadFault::Text(TextFault {
                line,
                why: TextWhy::Long,
            }));
        }
        add_face(&mut reading.lists.faces, None, words, line)?;
        reading.faces_left -= 1;
        return Ok(());
    }
    match point(words, decimals) {
        Err(why) => Err(ReadFault::Text(TextFault { line, why })),
        Ok(point) => {
            reading.lists.points.push(point)?;
            reading.points_left -= 1;
            Ok(())
        }
    }
}

// Reads a line of one word or more.
#[tactic(auto, unfolding(crate::specs::Off::wanted_adds))]
fn add_wanted(
    reading: &mut ParserState,
    decimals: u8,
    words: Words<'_>,
    line: u32,
) -> Result<(), ReadFault>
    requires { decimals ≤ DECIMALS_MAX }
    ensures { GoesOn reading.old reading.new result line
        (λ p. spec.wanted_adds p.wanted decimals p (words_left words.entry)) }
{
    match reading.wanted {
        LineKind::Name => match name(words) {
            Err(why) => Err(ReadFault::Text(TextFault { line, why })),
            Ok(()) => {
                reading.wanted = LineKind::Counts;
                Ok(())
            }
        },
        LineKind::Counts => match counts(words) {
            Err(why) => Err(ReadFault::Text(TextFault { line, why })),
            Ok((v, f)) => {
                reading.wanted = LineKind::Rows;
                reading.points_left = v;
                reading.faces_left = f;
                Ok(())
            }
        },
        LineKind::Rows => add_row(reading, decimals, words, line),
    }
}

// Reads a line.
#[tactic(auto, unfolding(crate::specs::Off::words_add))]
fn add_line(
    reading: &mut ParserState,
    decimals: u8,
    bytes: &[u8],
    line: u32,
) -> Result<(), ReadFault>
    requires { decimals ≤ DECIMALS_MAX }
    ensures { GoesOn reading.old reading.new result line
        (λ p. spec.words_add decimals p (words_of bytes.now)) }
{
    let all = words(bytes);
    let mut rest = all;
    if rest.next().is_none() {
        return Ok(());
    }
    add_wanted(reading, decimals, all, line)
}

// What a text of so many lines gives.
#[tactic(auto, unfolding(crate::specs::Off::end_gives))]
fn end(reading: ParserState, count: u32) -> Result<MeshLists, ReadFault>
    requires { count ≤ TEXT_MAX }
    ensures { Gives lists_view result (spec.end_gives count (progress_of reading)) }
{
    let done = match reading.wanted {
        LineKind::Name => false,
        LineKind::Counts => false,
        LineKind::Rows => reading.points_left == 0 && reading.faces_left == 0,
    };
    if done {
        return Ok(reading.lists);
    }
    Err(ReadFault::Text(TextFault {
        line: count + 1,
        why: TextWhy::Short,
    }))
}

/// The points and faces of a text in the Object File Format (OFF, of Geomview) on a grid of so many decimals, or the first
/// line outside the grammar with its reason.
///
/// Of the lines with words the first is the one word `OFF`, and the second begins with the number of vertices and that of
/// faces. Then each vertex has a line that begins with three decimal words, and after them each face has one that begins
/// with the number of its corners, three or more, and these corners. What follows in a line is not read. A coordinate is
/// its decimal word times 10 ^ decimals, rounded; a face with more than three corners gives the triangles of its fan. The
/// text numbers vertices from 0, and the lists from 1. A corner may name a vertex that is not there: only `shape` looks.
///
/// It refuses a first line that is not `OFF` (Unknown); a line with too few words, or an end of the text before the last
/// row, at the number of lines plus one (Short); a line with words after the last row (Long); a coordinate that is no
/// decimal word, and a number of vertices, faces or corners that is not one to ten digits (Number); a coordinate outside
/// the box, and a face of fewer than three corners (Range); and a corner that is not one to ten digits up to
/// 4,294,967,294 (Corner). Within a line Short comes first, and then the words from left to right; but the number of a
/// face's corners is judged before Short, since it says how many words there have to be.
#[tactic(auto, unfolding(crate::specs::Off::lists_of))]
pub fn read_off(alloc: Global, bytes: &[u8], decimals: u8) -> Result<MeshLists, ReadFault>
    requires small { length bytes.now ≤ TEXT_MAX }
    requires places { decimals ≤ DECIMALS_MAX }
    ensures { Gives lists_view result (spec.lists_of decimals bytes.now) }
{
    let mut reading = ParserState {
        wanted: LineKind::Name,
        points_left: 0,
        faces_left: 0,
        lists: MeshLists {
            points: Points::new(alloc),
            faces: Triangles::new(alloc),
        },
    };
    let mut count: u32 = 0;
    for line in Lines::new(bytes) {
        add_line(&mut reading, decimals, line.bytes, line.number)?;
        count += 1;
    }
    end(reading, count)
}
