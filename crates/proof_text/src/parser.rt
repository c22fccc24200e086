ghost use Rattle.std.specs.Prelude.{◌≡◌, ◌≤◌, ◌^◌, length, ◌∷◌, [], IfOk};
ghost use Rattle.grid_base.specs.declared.TheConstants.{TEXT_MAX};
ghost use Rattle.line_text.specs.Faults.{Gives, at_line};
ghost use Rattle.proof_text.specs.Laws.{AreProofs, IsGood};
ghost use Rattle.proof_text.specs.Order as spec;
ghost use Rattle.proof_text.specs.Views.{proofs_view, state_view};

use crate::lines::read_line;
use crate::proof_at::Proofs;
use crate::reader::{State, order, take_line};
use line_text::{ReadFault, TextFault, cut_at};
use std::alloc::Global;

// Takes the line that a part of the text spells.
pub(crate) fn add_line(
    alloc: Global,
    motions: &mut Proofs,
    state: State,
    ended: bool,
    text: &[u8],
    number: u32,
) -> Result<State, ReadFault>
    requires { IsGood (proofs_view motions.old) (state_view state) }
    ensures { Gives (λ s. spec.so_far (proofs_view motions.new) (state_view s)) result
        (at_line number (spec.line_adds
        (spec.so_far (proofs_view motions.old) (state_view state)) ended text.now)) }
{
    match read_line(ended, text) {
        Ok(line) => take_line(alloc, motions, state, line, number),
        Err(why) => Err(ReadFault::Text(TextFault { line: number, why })),
    }
}

// The certificates of a text that ends here, where this would be the number of its next line.
fn closed(motions: Proofs, state: State, number: u32) -> Result<Proofs, ReadFault>
    ensures { Gives proofs_view result
        (spec.closed number (proofs_view motions) (state_view state)) }
{
    match state {
        State::Ended => Ok(motions),
        _ => Err(order(number)),
    }
}

// The certificates where this stands after the last LF, which is no line where it is empty.
fn with_last(
    alloc: Global,
    motions: Proofs,
    state: State,
    last: &[u8],
    number: u32,
) -> Result<Proofs, ReadFault>
    requires few { number ≤ 2 ^ 31 }
    requires good { IsGood (proofs_view motions) (state_view state) }
    ensures { Gives proofs_view result (spec.parts_add
        (spec.so_far (proofs_view motions) (state_view state)) number (last.now ∷ [])) }
{
    if last.is_empty() {
        return closed(motions, state, number);
    }
    let mut motions = motions;
    let state = add_line(alloc, &mut motions, state, false, last, number)?;
    closed(motions, state, number + 1)
}

// The certificates of a text, or the first of its lines that is outside the grammar.
fn read(alloc: Global, bytes: &[u8]) -> Result<Proofs, ReadFault>
    requires { length bytes.now ≤ TEXT_MAX }
    ensures { Gives proofs_view result (spec.proofs_of bytes.now) }
{
    let mut motions = Proofs::new(alloc);
    let mut state = State::Start;
    let mut rest = bytes;
    let mut number = 1;
    'lines: loop {
        let (part, more) = cut_at(b'\n', rest);
        match more {
            None => return with_last(alloc, motions, state, part, number),
            Some(next) => {
                match add_line(alloc, &mut motions, state, true, part, number) {
                    Ok(after) => state = after,
                    Err(fault) => return Err(fault),
                }
                number += 1;
                rest = next;
            }
        }
    }
}

/// The certificates of a text, or the first of its lines that is outside the grammar, with the reason: in this order Unknown,
/// Short (also where no LF stands after the line), Long, Number, Range and Order. A text that ends before its last line has
/// Order at the number of its lines and one.
pub fn read_proof(alloc: Global, bytes: &[u8]) -> Result<Proofs, ReadFault>
    requires { length bytes.now ≤ TEXT_MAX }
    ensures read { Gives proofs_view result (spec.proofs_of bytes.now) }
    ensures good { IfOk result (λ ps. AreProofs (proofs_view ps)) }
{
    read(alloc, bytes)
}
