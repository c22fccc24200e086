ghost use Rattle.std.specs.Prelude.{◌≡◌, ◌++◌, ◌∷◌, [], map, OnErr, OnOk};
ghost use Rattle.line_text.specs.WrittenLines.{word_of, line_of_words, Keeps, Appends};

use grid_base::NoMemory;
use itoa::Buffer;

/// A word of a line that is written: a text as it stands, or the decimal digits of a number, after `-` where it is
/// negative.
#[derive(Clone, Copy)]
pub enum Field<'a> {
    /// The bytes as they stand.
    Text(&'a [u8]),
    /// The digits of a number.
    Number(u64),
    /// The digits, after `-` where the number is negative.
    Signed(i32),
    /// The same of a number of up to 128 bits.
    Wide(i128),
}

/// Appends a word, or changes nothing.
pub fn put_word(field: &Field<'_>, into: &mut Vec<u8>) -> Result<(), NoMemory>
    ensures ok { Appends result into.old into.new (word_of field.now) }
    ensures err { OnErr result (into.new.items ≡ into.old.items) }
{
    let mut buffer = Buffer::new();
    match field {
        Field::Text(text) => into.extend_from_slice(text)?,
        Field::Number(n) => into.extend_from_slice(buffer.format(*n).as_bytes())?,
        Field::Signed(n) => into.extend_from_slice(buffer.format(*n).as_bytes())?,
        Field::Wide(n) => into.extend_from_slice(buffer.format(*n).as_bytes())?,
    }
    Ok(())
}

// Appends a word and the byte after it. On refusal the bytes from before still stand in front.
fn put_field(field: &Field<'_>, end: u8, into: &mut Vec<u8>) -> Result<(), NoMemory>
    ensures ok { OnOk result (into.new.items ≡ into.old.items ++ word_of field.now ++ end ∷ []) }
    ensures err { OnErr result (Keeps into.old.items into.new.items) }
{
    put_word(field, into)?;
    into.push(end)?;
    Ok(())
}

/// Appends a line of these words, with one space between them and LF after the last; nothing where there is no word.
/// On refusal `into` is as before.
pub fn put_line(fields: &[Field<'_>], into: &mut Vec<u8>) -> Result<(), NoMemory>
    ensures ok { Appends result into.old into.new (line_of_words (map word_of fields.now)) }
    ensures err { OnErr result (into.new.items ≡ into.old.items) }
{
    let start = into.len();
    for (i, field) in fields.iter().enumerate() {
        let end = if i + 1 == fields.len() { b'\n' } else { b' ' };
        match put_field(field, end, into) {
            Ok(()) => {}
            Err(NoMemory) => {
                into.truncate(start);
                return Err(NoMemory);
            }
        }
    }
    Ok(())
}
