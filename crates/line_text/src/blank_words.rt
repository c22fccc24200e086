ghost use Rattle.std.specs.Prelude.{◌≡◌, ◌≤◌, ◌<◌, ◌^◌, [], ◌∷◌, length, MatchOption, IfSome};
ghost use Rattle.std.specs.List.{prefix_len, position_or_len};
ghost use Rattle.line_text.specs.Texts as spec;
ghost use Rattle.line_text.specs.Fronts.{IsWhole};

use crate::front_number::front_number;
use crate::number::begins_with;

/// The words of a line.
#[derive(Clone, Copy)]
pub struct Words<'a> {
    rest: &'a [u8],
}

pub(crate) fn is_blank(b: u8) -> bool
    ensures { result ≡ spec.is_blank b }
{
    b == b' ' || b == b'\t'
}

#[tactic(auto, using(std::proofs::lemmas::List::Sums::prefix_len_is))]
fn blank_len(line: &[u8]) -> usize
    ensures value { result ≡ prefix_len spec.is_blank line.now }
    ensures within { result ≤ length line.now }
{
    for (i, b) in line.iter().enumerate() {
        if !is_blank(*b) {
            return i;
        }
    }
    line.len()
}

#[tactic(auto, using(std::proofs::lemmas::List::Sums::position_or_len_is))]
fn word_len(line: &[u8]) -> usize
    ensures value { result ≡ position_or_len spec.is_blank line.now }
    ensures within { result ≤ length line.now }
{
    for (i, b) in line.iter().enumerate() {
        if is_blank(*b) {
            return i;
        }
    }
    line.len()
}

// The first word and what follows it, if there is a word.
fn first_word(line: &[u8]) -> Option<(&[u8], &[u8])>
    ensures { MatchOption result (spec.words_of line.now ≡ [])
        (λ found. spec.HasFirstWord line.now found.0.now found.1.now) }
{
    let (_, from) = line.split_at(blank_len(line));
    if from.is_empty() {
        return None;
    }
    let end = word_len(from);
    if from[0] == b'#' {
        return None;
    }
    Some(from.split_at(end))
}

// The number of the first word, where it is a whole word: whether it has a `-`, its digits' number, and what follows it. The word is read as
// it is found. None says nothing.
fn whole_front(line: &[u8]) -> Option<(bool, u64, &[u8])>
    ensures value { IfSome result
        (λ r. IsWhole (spec.words_of line.now) (r.0, r.1) (spec.words_of r.2.now)) }
    ensures below { IfSome result (λ r. r.1 < 10 ^ 10) }
{
    let (_, from) = line.split_at(blank_len(line));
    if begins_with(b'-', from) {
        let (_, digits) = from.split_at(1);
        let (size, count) = front_number(digits)?;
        if count == 0 {
            return None;
        }
        return Some((true, size, digits.split_at(count).1));
    }
    let (size, count) = front_number(from)?;
    if count == 0 {
        return None;
    }
    Some((false, size, from.split_at(count).1))
}

impl<'a> Words<'a> {
    ghost use Rattle.line_text.specs.Remaining.{words_left};
    ghost use Rattle.line_text.specs.Fronts.{TakesWhole};
    ghost use Rattle.std.specs.Prelude.{None};

    #[tactic(auto, unfolding(crate::specs::Remaining::words_left))]
    pub(crate) fn new(line: &'a [u8]) -> Words<'a>
        ensures { words_left result ≡ spec.words_of line.now }
    {
        Words { rest: line }
    }

    /// The number of the next word, where it is a whole word, as `whole_parts` tells it, and the word is read as it is found. None says
    /// nothing, and takes no word.
    #[tactic(auto, unfolding(crate::specs::Remaining::words_left))]
    pub fn next_whole(&mut self) -> Option<(bool, u64)>
        ensures taken { IfSome result (TakesWhole self.old self.new) }
        ensures below { IfSome result (λ parts. parts.1 < 10 ^ 10) }
        ensures kept { result ≡ None → self.new ≡ self.old }
    {
        let (negative, size, behind) = whole_front(self.rest)?;
        self.rest = behind;
        Some((negative, size))
    }
}

impl<'a> Iterator for Words<'a> {
    ghost use Rattle.std.specs.Iterator.{YieldsFirstRef, item_count};
    ghost use Rattle.line_text.specs.Remaining.{words_left};

    type Item = &'a [u8];

    ghost next_gives = { YieldsFirstRef words_left };

    ghost remaining = { item_count words_left };

    #[tactic(auto, unfolding(crate::specs::Texts::words_of, crate::specs::Remaining::words_left))]
    fn next(&mut self) -> Option<&'a [u8]> {
        match first_word(self.rest) {
            None => {
                self.rest = &[];
                None
            }
            Some((word, after)) => {
                self.rest = after;
                Some(word)
            }
        }
    }
}
