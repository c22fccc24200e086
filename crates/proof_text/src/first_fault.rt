//! The first fault of a text of which no certificate is kept.
ghost use Rattle.std.specs.Prelude.{◌≤◌, ◌^◌, List, length, ◌∷◌, []};
ghost use Rattle.grid_base.specs.declared.TheConstants.{TEXT_MAX};
ghost use Rattle.proof_text.specs.Ahead.{IsChecked, PassesLine};
ghost use Rattle.proof_text.specs.Laws.{IsGood};
ghost use Rattle.proof_text.specs.Order as spec;
ghost use Rattle.proof_text.specs.Plain.{PlainProof};
ghost use Rattle.proof_text.specs.Views.{state_view};

use crate::parser::add_line;
use crate::proof_at::Proofs;
use crate::reader::{State, order};
use line_text::{ReadFault, cut_at};
use std::alloc::Global;

// Takes the line that a part of the text spells, and drops the certificate that it ends, if it ends one.
fn pass_line(
    alloc: Global,
    state: State,
    ended: bool,
    text: &[u8],
    number: u32,
) -> Result<State, ReadFault>
    requires { IsGood [] (state_view state) }
    ensures { (whole : List PlainProof) →
        PassesLine whole (state_view state) number ended text.now result }
{
    let mut found = Proofs::new(alloc);
    add_line(alloc, &mut found, state, ended, text, number)
}

// Whether a text ends here, where this would be the number of its next line.
fn check_closed(state: State, number: u32) -> Result<(), ReadFault>
    ensures { (whole : List PlainProof) →
        IsChecked result (spec.closed number whole (state_view state)) }
{
    match state {
        State::Ended => Ok(()),
        _ => Err(order(number)),
    }
}

// Looks at what stands after the last LF, which is no line where it is empty.
fn check_last(alloc: Global, state: State, last: &[u8], number: u32) -> Result<(), ReadFault>
    requires few { number ≤ 2 ^ 31 }
    requires good { IsGood [] (state_view state) }
    ensures { (whole : List PlainProof) → IsChecked result (spec.parts_add
        (spec.so_far whole (state_view state)) number (last.now ∷ [])) }
{
    if last.is_empty() {
        return check_closed(state, number);
    }
    let state = pass_line(alloc, state, false, last, number)?;
    check_closed(state, number + 1)
}

// Looks through a text, of which no certificate is kept: the first line outside the grammar, with the reason, where there is one.
pub(crate) fn check_proof(alloc: Global, bytes: &[u8]) -> Result<(), ReadFault>
    requires { length bytes.now ≤ TEXT_MAX }
    ensures { IsChecked result (spec.proofs_of bytes.now) }
{
    let mut state = State::Start;
    let mut rest = bytes;
    let mut number = 1;
    'lines: loop {
        let (part, more) = cut_at(b'\n', rest);
        match more {
            None => return check_last(alloc, state, part, number),
            Some(next) => {
                match pass_line(alloc, state, true, part, number) {
                    Ok(after) => state = after,
                    Err(fault) => return Err(fault),
                }
                number += 1;
                rest = next;
            }
        }
    }
}
