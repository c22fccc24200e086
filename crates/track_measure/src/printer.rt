//! The text of a line that tells of volume and shape.
ghost use Rattle.std.specs.Prelude.{◌≡◌, OnErr};
ghost use Rattle.line_text.specs.WrittenLines.{Appends, line_of_words};
ghost use Rattle.track_measure.specs.Texts.{words_of, text_of};

use crate::measures::{MeasureLine, MeshShape};
use grid_base::NoMemory;
use itoa::Buffer;
use line_text::{Field, put_line};

fn put_measure(
    k: u32,
    volume6: i128,
    shape: MeshShape,
    genus: Option<u32>,
    into: &mut Vec<u8>,
) -> Result<(), NoMemory>
    ensures ok { let line = MeasureLine.Measure k volume6 shape genus in
        Appends result into.old into.new (text_of line) }
    ensures err { OnErr result (into.new.items ≡ into.old.items) }
{
    let mut volume = Buffer::new();
    let mut euler = Buffer::new();
    let genus = match genus {
        Some(g) => Field::Number(u64::from(g)),
        None => Field::Text(b"none"),
    };
    put_line(
        &[
            Field::Text(b"measure"),
            Field::Number(u64::from(k)),
            Field::Text(b"volume6"),
            Field::Text(volume.format(volume6).as_bytes()),
            Field::Text(b"components"),
            Field::Number(u64::from(shape.components)),
            Field::Text(b"euler"),
            Field::Text(euler.format(shape.euler).as_bytes()),
            Field::Text(b"genus"),
            genus,
        ],
        into,
    )
}

fn put_change(line: u32, shape: MeshShape, into: &mut Vec<u8>) -> Result<(), NoMemory>
    ensures ok { Appends result into.old into.new (text_of (MeasureLine.Change line shape)) }
    ensures err { OnErr result (into.new.items ≡ into.old.items) }
{
    let mut euler = Buffer::new();
    let number = Field::Text(euler.format(shape.euler).as_bytes());
    let pieces = Field::Number(u64::from(shape.components));
    put_line(
        &[
            Field::Text(b"change"),
            Field::Number(u64::from(line)),
            Field::Text(b"components"),
            pieces,
            Field::Text(b"euler"),
            number,
        ],
        into,
    )
}

/// Appends a line with LF at its end, or changes nothing.
pub fn print_measure(line: MeasureLine, into: &mut Vec<u8>) -> Result<(), NoMemory>
    ensures ok { Appends result into.old into.new (text_of line) }
    ensures err { OnErr result (into.new.items ≡ into.old.items) }
{
    match line {
        MeasureLine::Measure {
            k,
            volume6,
            shape,
            genus,
        } => put_measure(k, volume6, shape, genus, into),
        MeasureLine::Change { line, shape } => put_change(line, shape, into),
        MeasureLine::End => put_line(&[Field::Text(b"end")], into),
    }
}
