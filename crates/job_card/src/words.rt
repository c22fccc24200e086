// The words of a card's lines.
ghost use Rattle.std.specs.Prelude.{◌≡◌, ◌==◌, ◌<◌, ◌≤◌, ◌^◌, ◌∷◌, codes, [], ℕ, List, length, decimal, MatchOption};
ghost use Rattle.std.specs.List.{slice_split, join_with_byte};
ghost use Rattle.hex.specs.Hex.{IsBytes, encode_lower};
ghost use Rattle.grid_base.specs.declared.TheConstants.{DECIMALS_MAX};
ghost use Rattle.job_card.specs.Reading.{Finds, IsGraphic};
ghost use Rattle.job_card.specs.Laws.{IsVersion, IsMark, IsDigest};
ghost use Rattle.job_card.specs.Text.{version_text, mark_line};

use crate::card::{FileMark, Version};
use crate::writer::hex_of;
use grid_base::DECIMALS_MAX;
use hex::decode_to_slice;
use itoa::Buffer;
use line_text::{Parts, spelled_number};

// The two parts of a text with one such byte.
fn two(byte: u8, text: &[u8]) -> Option<(&[u8], &[u8])>
    ensures { MatchOption result
        ((x y : List ℕ) → slice_split (λ b. b == byte) text.now ≡ x ∷ y ∷ [] → ⊥)
        (λ r. slice_split (λ b. b == byte) text.now ≡ r.0.now ∷ r.1.now ∷ []) }
{
    let mut parts = Parts::new(byte, text);
    let Some(first) = parts.next() else {
        return None;
    };
    let Some(second) = parts.next() else {
        return None;
    };
    if parts.next().is_some() {
        return None;
    }
    Some((first, second))
}

// The three parts of a text with two such bytes.
fn three(byte: u8, text: &[u8]) -> Option<(&[u8], &[u8], &[u8])>
    ensures { MatchOption result
        ((x y z : List ℕ) → slice_split (λ b. b == byte) text.now ≡ x ∷ y ∷ z ∷ [] → ⊥)
        (λ r. slice_split (λ b. b == byte) text.now ≡ r.0.now ∷ r.1.now ∷ r.2.now ∷ []) }
{
    let mut parts = Parts::new(byte, text);
    let Some(first) = parts.next() else {
        return None;
    };
    let Some(second) = parts.next() else {
        return None;
    };
    let Some(third) = parts.next() else {
        return None;
    };
    if parts.next().is_some() {
        return None;
    }
    Some((first, second, third))
}

// The number whose digits a word is.
fn number_of(word: &[u8]) -> Option<u64>
    ensures { Finds (λ n. n < 2 ^ 64) decimal word.now result }
{
    let Some(n) = spelled_number(word) else {
        return None;
    };
    if n > u128::from(u64::MAX) {
        return None;
    }
    let n = n as u64;
    let mut buffer = Buffer::new();
    if buffer.format(n).as_bytes() == word {
        Some(n)
    } else {
        None
    }
}

// The digest whose small hex digits a word is.
fn digest_of(word: &[u8]) -> Option<[u8; 32]>
    ensures { Finds IsDigest encode_lower word.now result }
{
    let mut digest = [0u8; 32];
    if decode_to_slice(word, &mut digest).is_err() {
        return None;
    }
    let again = hex_of(&digest);
    if again.as_slice() == word {
        Some(digest)
    } else {
        None
    }
}

// The version that a word tells.
fn version_of(word: &[u8]) -> Option<Version>
    ensures { Finds IsVersion version_text word.now result }
{
    let Some((major, minor, patch)) = three(b'.', word) else {
        return None;
    };
    let Some(major) = number_of(major) else {
        return None;
    };
    let Some(minor) = number_of(minor) else {
        return None;
    };
    let Some(patch) = number_of(patch) else {
        return None;
    };
    Some(Version {
        major,
        minor,
        patch,
    })
}

/// The version of a line.
pub(crate) fn program_of(line: &[u8]) -> Option<Version>
    ensures { Finds IsVersion
        (λ v. join_with_byte 32 (codes "program" ∷ version_text v ∷ [])) line.now result }
{
    let Some((name, version)) = two(b' ', line) else {
        return None;
    };
    if name != b"program".as_slice() {
        return None;
    }
    version_of(version)
}

/// The decimals of a line.
pub(crate) fn decimals_of(line: &[u8]) -> Option<u8>
    ensures { Finds (λ n. n ≤ DECIMALS_MAX)
        (λ n. join_with_byte 32 (codes "decimals" ∷ decimal n ∷ [])) line.now result }
{
    let Some((name, number)) = two(b' ', line) else {
        return None;
    };
    if name != b"decimals".as_slice() {
        return None;
    }
    let Some(n) = number_of(number) else {
        return None;
    };
    if n > u64::from(DECIMALS_MAX) {
        return None;
    }
    Some(n as u8)
}

/// The mark of a line of this name, which has no space in it.
pub(crate) fn mark_of(name: &[u8], line: &[u8]) -> Option<FileMark>
    requires { IsGraphic name.now }
    ensures { Finds IsMark (mark_line name.now) line.now result }
{
    let Some((first, bytes, digest)) = three(b' ', line) else {
        return None;
    };
    if first != name {
        return None;
    }
    let Some(bytes) = number_of(bytes) else {
        return None;
    };
    let Some(digest) = digest_of(digest) else {
        return None;
    };
    Some(FileMark { bytes, digest })
}
