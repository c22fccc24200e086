ghost use Rattle.std.specs.Prelude.{◌≡◌, ◌≤◌, ◌<◌, ◌^◌, ◌-◌, length, IfOk, IfSome};
ghost use Rattle.grid_base.specs.declared.TheConstants.{DECIMALS_MAX};
ghost use Rattle.grid_base.specs.Points.{position_of};
ghost use Rattle.line_text.specs.Faults.{Leaves};
ghost use Rattle.line_text.specs.Remaining.{words_left};
ghost use Rattle.obj_text.specs.Views.{GivesWhy};
ghost use Rattle.other_text.specs.Rows as spec;
ghost use Rattle.other_text.specs.RowsViews.{fan_from, AddsFace};

use grid_base::Point;
use line_text::{
    ReadFault, TextFault, TextWhy, Words, coordinate, count_is, count_up_to, number_within,
};
use mesh_base::Triangles;

// The number that one to ten digits write.
#[tactic(auto, unfolding(crate::specs::Rows::count_of))]
pub(crate) fn count(word: &[u8]) -> Result<u64, TextWhy>
    ensures value { result ≡ spec.count_of word.now }
    ensures below { IfOk result (λ n. n < 10 ^ 10) }
{
    let Some(n) = number_within(10, word) else {
        return Err(TextWhy::Number);
    };
    Ok(n as u64)
}

// The vertex that a corner names: the text numbers from 0, and the answer from 1.
#[tactic(auto, unfolding(crate::specs::Rows::corner_of))]
fn corner(word: &[u8]) -> Result<u32, TextWhy>
    ensures { result ≡ spec.corner_of word.now }
{
    let Some(n) = number_within(10, word) else {
        return Err(TextWhy::Corner);
    };
    if n > 4_294_967_294 {
        return Err(TextWhy::Corner);
    }
    Ok(n as u32 + 1)
}

// The point of a row that begins with three coordinates.
#[tactic(auto, unfolding(crate::specs::Rows::point_of))]
pub(crate) fn point(words: Words<'_>, decimals: u8) -> Result<Point, TextWhy>
    requires { decimals ≤ DECIMALS_MAX }
    ensures { GivesWhy position_of result (spec.point_of decimals (words_left words.entry)) }
{
    let mut words = words;
    let Some(x) = words.next() else {
        return Err(TextWhy::Short);
    };
    let Some(y) = words.next() else {
        return Err(TextWhy::Short);
    };
    let Some(z) = words.next() else {
        return Err(TextWhy::Short);
    };
    let x = coordinate(x, decimals)?;
    let y = coordinate(y, decimals)?;
    let z = coordinate(z, decimals)?;
    Ok(Point { x, y, z })
}

// Adds the triangles of so many more corners of a face, after its first two.
fn add_fan(
    faces: &mut Triangles,
    a: u32,
    b: u32,
    more: u64,
    words: Words<'_>,
    line: u32,
) -> Result<(), ReadFault>
    ensures { Leaves faces.new result (fan_from more line a b faces.old (words_left words.entry)) }
{
    let mut words = words;
    let mut last = b;
    for _ in 0..more {
        let Some(word) = words.next() else {
            return Err(ReadFault::Text(TextFault {
                line,
                why: TextWhy::Short,
            }));
        };
        match corner(word) {
            Err(why) => return Err(ReadFault::Text(TextFault { line, why })),
            Ok(next) => {
                faces.push([a, last, next])?;
                last = next;
            }
        }
    }
    Ok(())
}

// Adds the triangles of a face of two corners and so many more.
#[tactic(auto, unfolding(crate::specs::Rows::ring_of))]
fn add_ring(faces: &mut Triangles, more: u64, words: Words<'_>, line: u32) -> Result<(), ReadFault>
    ensures { AddsFace faces.old faces.new result line
        (spec.ring_of more (words_left words.entry)) }
{
    let mut words = words;
    let Some(a) = words.next() else {
        return Err(ReadFault::Text(TextFault {
            line,
            why: TextWhy::Short,
        }));
    };
    let Some(b) = words.next() else {
        return Err(ReadFault::Text(TextFault {
            line,
            why: TextWhy::Short,
        }));
    };
    match corner(a) {
        Err(why) => Err(ReadFault::Text(TextFault { line, why })),
        Ok(a) => match corner(b) {
            Err(why) => Err(ReadFault::Text(TextFault { line, why })),
            Ok(b) => add_fan(faces, a, b, more, words, line),
        },
    }
}

// That there are n words and so many more after them; where it is not told how many, n or more.
#[tactic(auto, unfolding(crate::specs::Rows::has_words))]
fn has_words(behind: Option<u64>, n: u64, words: Words<'_>) -> Result<(), TextWhy>
    requires few { n < 10 ^ 10 }
    requires small { IfSome behind (λ more. more < 2 ^ 32) }
    ensures { result ≡ spec.has_words behind n (words_left words.entry) }
{
    match behind {
        Some(more) => count_is((n + more) as usize, words),
        None => {
            if count_up_to(n as usize, words) < n as usize {
                return Err(TextWhy::Short);
            }
            Ok(())
        }
    }
}

// Adds the triangles of a row of a face: n, and n corners. Behind them there are so many words; where it is not told how
// many, what follows is not read.
#[tactic(auto, unfolding(crate::specs::Rows::face_of, crate::specs::Rows::sized_ring_of))]
pub(crate) fn add_face(
    faces: &mut Triangles,
    behind: Option<u64>,
    words: Words<'_>,
    line: u32,
) -> Result<(), ReadFault>
    requires { IfSome behind (λ more. more < 2 ^ 32) }
    ensures { AddsFace faces.old faces.new result line
        (spec.face_of behind (words_left words.entry)) }
{
    let mut words = words;
    let Some(first) = words.next() else {
        return Err(ReadFault::Text(TextFault {
            line,
            why: TextWhy::Short,
        }));
    };
    match count(first) {
        Err(why) => Err(ReadFault::Text(TextFault { line, why })),
        Ok(n) => {
            if n < 3 {
                return Err(ReadFault::Text(TextFault {
                    line,
                    why: TextWhy::Range,
                }));
            }
            match has_words(behind, n, words) {
                Err(why) => Err(ReadFault::Text(TextFault { line, why })),
                Ok(()) => add_ring(faces, n - 2, words, line),
            }
        }
    }
}
