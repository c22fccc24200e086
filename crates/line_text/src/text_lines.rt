ghost use Rattle.std.specs.Prelude.{◌≡◌, ◌+◌, ◌-◌, ◌≤◌, ◌<◌, ◌∷◌, length};
ghost use Rattle.std.specs.Str.Lines.{lines, strip_carriage_return};
ghost use Rattle.grid_base.specs.declared.TheConstants.{TEXT_MAX};

use grid_base::TEXT_MAX;
use memchr::memchr;

/// A line of a text.
#[derive(Clone, Copy)]
pub struct Line<'a> {
    /// Its number, from 1. All lines count, also those without words.
    pub number: u32,
    /// Its bytes without its end.
    pub bytes: &'a [u8],
}

/// The lines of a text, numbered from 1.
#[derive(Drop)]
pub struct Lines<'a> {
    rest: &'a [u8],
    before: u32,
    ghost counted: { before + length rest.now ≤ TEXT_MAX },
}

fn without_carriage_return(line: &[u8]) -> &[u8]
    ensures { result.now ≡ strip_carriage_return line.now }
{
    match line {
        [front @ .., b'\r'] => front,
        _ => line,
    }
}

// The first line and what follows it.
fn first_line(text: &[u8]) -> (&[u8], &[u8])
    requires { 0 < length text.now }
    ensures first { lines text.now ≡ result.0.now ∷ lines result.1.now }
    ensures shorter { length result.1.now < length text.now }
{
    match memchr(b'\n', text) {
        None => text.split_at(text.len()),
        Some(end) => (without_carriage_return(&text[..end]), &text[end + 1..]),
    }
}

impl<'a> Lines<'a> {
    ghost use Rattle.line_text.specs.Texts.{numbered_lines};
    ghost use Rattle.line_text.specs.Remaining.{lines_left};

    /// The lines of a text: each ends at LF, a CR right before it belongs to the end, and the last may lack its end.
    #[tactic(auto, unfolding(crate::specs::Remaining::lines_left))]
    pub fn new(bytes: &'a [u8]) -> Lines<'a>
        requires { length bytes.now ≤ TEXT_MAX }
        ensures value { lines_left result ≡ numbered_lines 1 bytes.now }
        ensures few { length (lines_left result) ≤ length bytes.now }
    {
        Lines {
            rest: bytes,
            before: 0,
        }
    }
}

impl<'a> Iterator for Lines<'a> {
    ghost use Rattle.std.specs.Iterator.{YieldsFirstBy, item_count};
    ghost use Rattle.line_text.specs.Remaining.{line_view, lines_left};

    type Item = Line<'a>;

    ghost next_gives = { YieldsFirstBy line_view lines_left };

    ghost remaining = { item_count lines_left };

    #[tactic(auto, unfolding(crate::specs::Remaining::lines_left))]
    fn next(&mut self) -> Option<Line<'a>> {
        let rest = self.rest;
        if rest.is_empty() {
            return None;
        }
        let (line, after) = first_line(rest);
        self.rest = after;
        self.before += 1;
        Some(Line {
            number: self.before,
            bytes: line,
        })
    }
}
