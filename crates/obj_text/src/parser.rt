ghost use Rattle.std.specs.Prelude.{◌≡◌, ◌≤◌, ◌<◌, ◌^◌, ◌+◌, ◌∷◌, [], ℕ, Ok, false, length, nat_lt, IfSome};
ghost use Rattle.std.specs.Str.{bytes_eq};
ghost use Rattle.line_text.specs.Faults.{Gives, Leaves, at_line};
ghost use Rattle.line_text.specs.Fronts.{IsWhole};
ghost use Rattle.line_text.specs.Remaining.{words_left};
ghost use Rattle.obj_text.specs.Obj as spec;
ghost use Rattle.grid_base.specs.declared.TheConstants.{TEXT_MAX, DECIMALS_MAX};
ghost use Rattle.grid_base.specs.Points.{position_of};
ghost use Rattle.obj_text.specs.Views.{lists_view, GivesWhy, fan_from, faces_after};

use crate::corner::corner;
use grid_base::Point;
use line_text::{Line, Lines, ReadFault, TextFault, TextWhy, Words, coordinate, is_word, words};
use mesh_base::{MeshLists, Points, Triangles};
use std::alloc::Global;

// Whether more than this many words are left.
fn has_more_than(most: usize, words: Words<'_>) -> bool
    requires { most ≤ 100 }
    ensures { result ≡ nat_lt most (length (words_left words.entry)) }
{
    let mut words = words;
    for _ in 0..most {
        if words.next().is_none() {
            return false;
        }
    }
    words.next().is_some()
}

#[tactic(auto, unfolding(crate::specs::Obj::point_of))]
fn point(words: Words<'_>, decimals: u8) -> Result<Point, TextWhy>
    requires { decimals ≤ DECIMALS_MAX }
    ensures { GivesWhy position_of result (spec.point_of decimals (words_left words.entry)) }
{
    let mut words = words;
    let Some(x) = words.next() else {
        return Err(TextWhy::Short);
    };
    let Some(y) = words.next() else {
        return Err(TextWhy::Short);
    };
    let Some(z) = words.next() else {
        return Err(TextWhy::Short);
    };
    if has_more_than(4, words) {
        return Err(TextWhy::Long);
    }
    let x = coordinate(x, decimals)?;
    let y = coordinate(y, decimals)?;
    let z = coordinate(z, decimals)?;
    Ok(Point { x, y, z })
}

// Adds the triangles of a face after its first two corners.
fn add_fan(
    faces: &mut Triangles,
    a: u32,
    b: u32,
    words: Words<'_>,
    read: u32,
    line: u32,
) -> Result<(), ReadFault>
    ensures { Leaves faces.new result (fan_from read line a b faces.old (words_left words.entry)) }
{
    let mut last = b;
    for word in words {
        match corner(word, read) {
            Err(why) => return Err(ReadFault::Text(TextFault { line, why })),
            Ok(next) => {
                faces.push([a, last, next])?;
                last = next;
            }
        }
    }
    Ok(())
}

// The next corner, where it is a whole number without a sign: read as it is found. None says nothing.
fn whole_corner(words: &mut Words<'_>) -> Option<u32>
    ensures taken { IfSome result
        (λ n. IsWhole (words_left words.old) (false, n) (words_left words.new)) }
    ensures some { IfSome result (λ n. 0 < n) }
    ensures small { IfSome result (λ n. n < 2 ^ 32) }
{
    let (negative, size) = words.next_whole()?;
    if negative || size == 0 || size > u64::from(u32::MAX) {
        return None;
    }
    Some(size as u32)
}

// The triangle of a face whose words are three whole numbers without a sign. None says nothing.
fn whole_triangle(words: Words<'_>) -> Option<[u32; 3]>
    ensures value { IfSome result
        (λ face. (read : ℕ) → spec.face_of read (words_left words.entry) ≡ Ok face) }
    ensures alone { IfSome result (λ face. spec.fan face ≡ face ∷ []) }
{
    let mut words = words;
    let a = whole_corner(&mut words)?;
    let b = whole_corner(&mut words)?;
    let c = whole_corner(&mut words)?;
    match words.next() {
        None => Some([a, b, c]),
        Some(_) => None,
    }
}

// Adds the triangles of a face.
#[tactic(auto, unfolding(crate::specs::Obj::face_of, crate::specs::Obj::corners_of))]
fn add_face(faces: &mut Triangles, words: Words<'_>, read: u32, line: u32) -> Result<(), ReadFault>
    ensures { Leaves faces.new result
        (at_line line (faces_after read faces.old (words_left words.entry))) }
{
    if let Some(face) = whole_triangle(words) {
        faces.push(face)?;
        return Ok(());
    }
    let mut words = words;
    let Some(a) = words.next() else {
        return Err(ReadFault::Text(TextFault {
            line,
            why: TextWhy::Short,
        }));
    };
    let Some(b) = words.next() else {
        return Err(ReadFault::Text(TextFault {
            line,
            why: TextWhy::Short,
        }));
    };
    if !has_more_than(0, words) {
        return Err(ReadFault::Text(TextFault {
            line,
            why: TextWhy::Short,
        }));
    }
    match corner(a, read) {
        Err(why) => Err(ReadFault::Text(TextFault { line, why })),
        Ok(a) => match corner(b, read) {
            Err(why) => Err(ReadFault::Text(TextFault { line, why })),
            Ok(b) => add_fan(faces, a, b, words, read, line),
        },
    }
}

fn is_skipped(word: &[u8]) -> bool
    ensures { result ≡ spec.is_skipped word.now }
{
    is_word(word, b"vn")
        || is_word(word, b"vt")
        || is_word(word, b"vp")
        || is_word(word, b"o")
        || is_word(word, b"g")
        || is_word(word, b"s")
        || is_word(word, b"usemtl")
        || is_word(word, b"mtllib")
}

// Adds what a line of these words gives.
#[tactic(auto, unfolding(crate::specs::Obj::words_add))]
fn add_words(
    lists: &mut MeshLists,
    decimals: u8,
    words: Words<'_>,
    line: u32,
) -> Result<(), ReadFault>
    requires places { decimals ≤ DECIMALS_MAX }
    requires few { length lists.old.points < 2 ^ 32 }
    ensures value { Leaves (lists_view lists.new) result
        (at_line line (spec.words_add decimals (lists_view lists.old) (words_left words.entry))) }
    ensures more { length lists.new.points ≤ length lists.old.points + 1 }
{
    let mut words = words;
    let Some(first) = words.next() else {
        return Ok(());
    };
    if is_word(first, b"v") {
        return match point(words, decimals) {
            Err(why) => Err(ReadFault::Text(TextFault { line, why })),
            Ok(point) => {
                lists.points.push(point)?;
                Ok(())
            }
        };
    }
    if is_word(first, b"f") {
        let read = lists.points.len() as u32;
        return add_face(&mut lists.faces, words, read, line);
    }
    if is_skipped(first) {
        return Ok(());
    }
    Err(ReadFault::Text(TextFault {
        line,
        why: TextWhy::Unknown,
    }))
}

// Adds what a line gives.
#[tactic(auto, unfolding(crate::specs::Obj::line_adds))]
fn add_line(lists: &mut MeshLists, decimals: u8, line: Line<'_>) -> Result<(), ReadFault>
    requires places { decimals ≤ DECIMALS_MAX }
    requires few { length lists.old.points < 2 ^ 32 }
    ensures value { Leaves (lists_view lists.new) result
        (at_line line.entry.number
        (spec.line_adds decimals (lists_view lists.old) line.entry.bytes.now)) }
    ensures more { length lists.new.points ≤ length lists.old.points + 1 }
{
    if let [.., b'\\'] = line.bytes {
        return Err(ReadFault::Text(TextFault {
            line: line.number,
            why: TextWhy::Continuation,
        }));
    }
    add_words(lists, decimals, words(line.bytes), line.number)
}

/// The points and faces of a Wavefront OBJ text on a grid of so many decimals, or the first line outside the grammar with
/// its reason. A coordinate is its decimal word times 10 ^ decimals, rounded; a face with more than three corners gives the
/// triangles of its fan. A corner may name a vertex that stands later, or none: only `shape` looks whether it is there.
pub fn read_obj(alloc: Global, bytes: &[u8], decimals: u8) -> Result<MeshLists, ReadFault>
    requires small { length bytes.now ≤ TEXT_MAX }
    requires places { decimals ≤ DECIMALS_MAX }
    ensures { Gives lists_view result (spec.lists_of decimals bytes.now) }
{
    let mut lists = MeshLists {
        points: Points::new(alloc),
        faces: Triangles::new(alloc),
    };
    for line in Lines::new(bytes) {
        add_line(&mut lists, decimals, line)?;
    }
    Ok(lists)
}
