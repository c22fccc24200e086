ghost use Rattle.std.specs.Prelude.{◌≡◌, ◌++◌, IfOk, map, decimal, take, ◌∷◌, []};
ghost use Rattle.std.specs.List.{concat};
ghost use Rattle.hex.specs.Hex.{encode_lower};
ghost use Rattle.job_card.specs.Laws.{IsDigest};
ghost use Rattle.job_card.specs.Text.{text_of, text_of_lines, lines_of, mark_line};
ghost use Rattle.line_text.specs.WrittenLines.{word_of, Appends};

use crate::card::{Card, FileMark};
use grid_base::NoMemory;
use hex::encode_to_slice;
use line_text::{Field, put_word};
use std::alloc::Global;

// Appends words, one right behind the other.
fn put_words(words: &[Field<'_>], into: &mut Vec<u8>) -> Result<(), NoMemory>
    ensures { Appends result into.old into.new (concat (map word_of words.now)) }
{
    for word in words {
        put_word(word, into)?;
    }
    Ok(())
}

/// The small hex digits of a digest.
pub(crate) fn hex_of(digest: &[u8; 32]) -> [u8; 64]
    ensures value { result ≡ encode_lower digest.now }
    ensures good { IsDigest digest.now }
{
    let mut digits = [0u8; 64];
    let _ = encode_to_slice(digest, &mut digits);
    digits
}

// Appends the small hex digits of a digest, and LF.
fn put_digest(digest: &[u8; 32], into: &mut Vec<u8>) -> Result<(), NoMemory>
    ensures { Appends result into.old into.new (encode_lower digest.now ++ 10 ∷ []) }
{
    let digits = hex_of(digest);
    put_word(&Field::Text(&digits), into)?;
    put_word(&Field::Text(b"\n"), into)
}

// Appends a number between two spaces.
fn put_number(n: u64, into: &mut Vec<u8>) -> Result<(), NoMemory>
    ensures { Appends result into.old into.new (32 ∷ (decimal n ++ 32 ∷ [])) }
{
    put_words(
        &[Field::Text(b" "), Field::Number(n), Field::Text(b" ")],
        into,
    )
}

// Appends the line of a file.
fn put_mark(name: &[u8], mark: &FileMark, into: &mut Vec<u8>) -> Result<(), NoMemory>
    ensures { Appends result into.old into.new (mark_line name.now mark.now ++ 10 ∷ []) }
{
    put_word(&Field::Text(name), into)?;
    put_number(mark.bytes, into)?;
    put_digest(&mark.digest, into)
}

// Appends the lines above those of files.
fn put_head(card: &Card, into: &mut Vec<u8>) -> Result<(), NoMemory>
    ensures { Appends result into.old into.new (text_of_lines (take 3 (lines_of card.now))) }
{
    put_words(
        &[
            Field::Text(b"topo card 1\nprogram "),
            Field::Number(card.program.major),
            Field::Text(b"."),
            Field::Number(card.program.minor),
            Field::Text(b"."),
            Field::Number(card.program.patch),
            Field::Text(b"\ndecimals "),
            Field::Number(u64::from(card.decimals)),
            Field::Text(b"\n"),
        ],
        into,
    )
}

/// The text of a card.
pub fn card_text(alloc: Global, card: &Card) -> Result<Vec<u8>, NoMemory>
    ensures { IfOk result (λ text. text.items ≡ text_of card.now) }
{
    let mut text = Vec::new(alloc);
    put_head(card, &mut text)?;
    put_mark(b"mesh", &card.mesh, &mut text)?;
    put_mark(b"steps", &card.steps, &mut text)?;
    put_mark(b"log", &card.log, &mut text)?;
    put_words(&[Field::Text(b"end\n")], &mut text)?;
    Ok(text)
}
