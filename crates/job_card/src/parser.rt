ghost use Rattle.std.specs.Prelude.{◌≡◌, ◌≤◌, if◌then◌else◌, Some, None, Ok, MatchOption, MatchResult, IfOk, IfErr};
ghost use Rattle.job_card.specs.declared.card.Card.{Card};
ghost use Rattle.job_card.specs.Laws.{IsGood, IsFirstBad};
ghost use Rattle.job_card.specs.Reading.{TakesLine, line_of};
ghost use Rattle.job_card.specs.Text.{text_of};

use crate::card::{Card, FileMark, Version};
use crate::words::{decimals_of, mark_of, program_of};
use line_text::cut_at;

/// The first line, from 1, that a card does not have there; the eighth is one behind the last.
#[derive(Clone, Copy, Debug, PartialEq, Eq)]
pub struct CardFault {
    pub line: u32,
}

const NO_MARK: FileMark = FileMark {
    bytes: 0,
    digest: [0; 32],
};

// A card of no job.
fn blank() -> Card
    ensures { IsGood result }
{
    Card {
        program: Version {
            major: 0,
            minor: 0,
            patch: 0,
        },
        decimals: 0,
        mesh: NO_MARK,
        steps: NO_MARK,
        log: NO_MARK,
    }
}

// The card where this text is the line.
fn fixed(is_it: bool, card: Card) -> Option<Card>
    ensures { result ≡ (if is_it then Some card else None) }
{
    is_it.then_some(card)
}

// The card with a line of it.
fn with_line(number: u32, line: &[u8], card: Card) -> Option<Card>
    requires { (1 ≤ number) × (number ≤ 7) }
    ensures { MatchOption result
        ((c : Card) → IsGood c → line.now ≡ line_of number c → ⊥)
        (λ new. TakesLine number line.now card new) }
{
    match number {
        1 => fixed(line == b"topo card 1".as_slice(), card),
        2 => {
            let Some(program) = program_of(line) else {
                return None;
            };
            Some(Card { program, ..card })
        }
        3 => {
            let Some(decimals) = decimals_of(line) else {
                return None;
            };
            Some(Card { decimals, ..card })
        }
        4 => {
            let Some(mesh) = mark_of(b"mesh", line) else {
                return None;
            };
            Some(Card { mesh, ..card })
        }
        5 => {
            let Some(steps) = mark_of(b"steps", line) else {
                return None;
            };
            Some(Card { steps, ..card })
        }
        6 => {
            let Some(log) = mark_of(b"log", line) else {
                return None;
            };
            Some(Card { log, ..card })
        }
        _ => fixed(line == b"end".as_slice(), card),
    }
}

// The card whose text this is, or the first line that a card does not have there.
fn read_lines(text: &[u8]) -> Result<Card, CardFault>
    ensures { MatchResult result (λ card. IsGood card × (text.now ≡ text_of card))
        (λ f. IsFirstBad f.line text.now) }
{
    let mut card = blank();
    let mut rest = text;
    'lines: for k in 0..7u32 {
        let (front, more) = cut_at(b'\n', rest);
        let Some(behind) = more else {
            return Err(CardFault { line: k + 1 });
        };
        let Some(next) = with_line(k + 1, front, card) else {
            return Err(CardFault { line: k + 1 });
        };
        card = next;
        rest = behind;
    }
    if rest.is_empty() {
        Ok(card)
    } else {
        Err(CardFault { line: 8 })
    }
}

/// The card whose text this is, or the first line that a card does not have there.
pub fn read_card(text: &[u8]) -> Result<Card, CardFault>
    ensures good { IfOk result (λ card. IsGood card) }
    ensures read { IfOk result (λ card. text.now ≡ text_of card) }
    ensures again { (card : Card) → IsGood card → text.now ≡ text_of card → result ≡ Ok card }
    ensures fault { IfErr result (λ f. IsFirstBad f.line text.now) }
{
    read_lines(text)
}
