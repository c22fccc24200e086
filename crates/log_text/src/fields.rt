ghost use Rattle.std.specs.Prelude.{◌∷◌, ◌++◌, [], ◌<◌, length, map, decimal, OnErr};
ghost use Rattle.std.specs.List.{join_with_byte};
ghost use Rattle.line_text.specs.WrittenLines.{word_of, Keeps, Appends};
ghost use Rattle.log_text.specs.Lines.{spaced, place_words, places_words, new_ids_words, line_of_fields, text_of_line};

use crate::log_line::{LogLine, NewIds};
use edit_base::CopyAt;
use grid_base::NoMemory;
use line_text::{Field, put_line, put_word};
use mesh_base::{Ids, VertexId};

// Appends the words with one space between them and LF after them.
pub(crate) fn put_words(fields: &[Field<'_>], into: &mut Vec<u8>) -> Result<(), NoMemory>
    requires { 0 < length fields.now }
    ensures ok { Appends result into.old into.new (line_of_fields fields.now) }
    ensures err { OnErr result (Keeps into.old.items into.new.items) }
{
    put_line(fields, into)
}

// Appends a space and a word.
fn put_next(field: &Field<'_>, into: &mut Vec<u8>) -> Result<(), NoMemory>
    ensures ok { Appends result into.old into.new (32 ∷ word_of field.now) }
    ensures err { OnErr result (Keeps into.old.items into.new.items) }
{
    into.push(b' ')?;
    put_word(field, into)
}

// Appends each word with a space in front.
pub(crate) fn put_spaced(fields: &[Field<'_>], into: &mut Vec<u8>) -> Result<(), NoMemory>
    ensures ok { Appends result into.old into.new (spaced (map word_of fields.now)) }
    ensures err { OnErr result (Keeps into.old.items into.new.items) }
{
    for field in fields {
        put_next(field, into)?;
    }
    Ok(())
}

// Appends each id with a space in front.
fn put_ids(ids: &[VertexId], into: &mut Vec<u8>) -> Result<(), NoMemory>
    ensures ok { Appends result into.old into.new (spaced (map decimal ids.now)) }
    ensures err { OnErr result (Keeps into.old.items into.new.items) }
{
    for v in ids {
        put_next(&Field::Number(u64::from(v.0)), into)?;
    }
    Ok(())
}

// Appends a vertex and the point where it stands, each word with a space in front.
pub(crate) fn put_place(place: CopyAt, into: &mut Vec<u8>) -> Result<(), NoMemory>
    ensures ok { Appends result into.old into.new (spaced (place_words place)) }
    ensures err { OnErr result (Keeps into.old.items into.new.items) }
{
    put_spaced(
        &[
            Field::Number(u64::from(place.w.0)),
            Field::Signed(place.at.x),
            Field::Signed(place.at.y),
            Field::Signed(place.at.z),
        ],
        into,
    )
}

// Appends each vertex and the point where it stands, each word with a space in front.
pub(crate) fn put_places(places: &[CopyAt], into: &mut Vec<u8>) -> Result<(), NoMemory>
    ensures ok { Appends result into.old into.new (spaced (places_words places.now)) }
    ensures err { OnErr result (Keeps into.old.items into.new.items) }
{
    for place in places {
        put_place(*place, into)?;
    }
    Ok(())
}

pub(crate) fn print_block(ids: &Ids, into: &mut Vec<u8>) -> Result<(), NoMemory>
    ensures ok { Appends result into.old into.new (text_of_line (LogLine.Block ids.now)) }
    ensures err { OnErr result (Keeps into.old.items into.new.items) }
{
    into.extend_from_slice(b"block")?;
    put_ids(ids.as_slice(), into)?;
    into.push(b'\n')?;
    Ok(())
}

// Appends each number with a space in front.
fn put_numbers(numbers: &[u32], into: &mut Vec<u8>) -> Result<(), NoMemory>
    ensures ok { Appends result into.old into.new (spaced (map decimal numbers.now)) }
    ensures err { OnErr result (Keeps into.old.items into.new.items) }
{
    for n in numbers {
        put_next(&Field::Number(u64::from(*n)), into)?;
    }
    Ok(())
}

// Appends a word, the next id, and the ids that are taken.
pub(crate) fn print_new_ids(word: &[u8], new: &NewIds, into: &mut Vec<u8>) -> Result<(), NoMemory>
    ensures ok { let words = word.now ∷ new_ids_words new.now in
        Appends result into.old into.new (join_with_byte 32 words ++ 10 ∷ []) }
    ensures err { OnErr result (Keeps into.old.items into.new.items) }
{
    into.extend_from_slice(word)?;
    put_next(&Field::Number(u64::from(new.next)), into)?;
    put_numbers(new.ids.as_slice(), into)?;
    into.push(b'\n')?;
    Ok(())
}
