//! The certificates of a text that are to come.
ghost use Rattle.std.specs.Prelude.{◌≡◌, ◌≤◌, true, length, Ok, IfOk};
ghost use Rattle.grid_base.specs.declared.TheConstants.{TEXT_MAX};
ghost use Rattle.line_text.specs.Faults.{Gives, at_line};
ghost use Rattle.proof_text.specs.Ahead.{IsAhead, ReadsOn, TakesFirst};
ghost use Rattle.proof_text.specs.Laws.{AreProofs, IsGood};
ghost use Rattle.proof_text.specs.Order as spec;
ghost use Rattle.proof_text.specs.Views.{proofs_view, state_view};

use crate::first_fault::check_proof;
use crate::parser::{add_line, read_proof};
use crate::proof_at::{ProofAt, Proofs};
use crate::reader::{ReadOn, State};
use grid_base::NoMemory;
use line_text::{ReadFault, cut_at};
use std::alloc::Global;
use std::collections::VecDeque;
use std::marker::Model;
use std::mem;

// The certificates of a text of at most so many bytes are read once, and kept.
const KEPT_MAX: usize = 16_777_216;

/// The certificates of a text that are to come. A text of at most 16 MiB is read once. A longer one is first looked through, and then
/// each of its certificates is read when it is taken, so that beside the text one alone stands in memory. A contract sees the list
/// of these certificates.
#[derive(Drop)]
pub struct ProofReader {
    read: VecDeque<ProofAt>,
    text: Vec<u8>,
    state: State,
    at: usize,
}

impl Model for ProofReader {
    ghost use Rattle.std.specs.Prelude.{List, ◌++◌};
    ghost use Rattle.std.specs.Coded.{codes};
    ghost use Rattle.proof_text.specs.Coded.{tree_code};
    ghost use Rattle.proof_text.specs.Plain.{PlainProof};

    ghost Value = { List PlainProof };

    ghost coded = { Prim.hlevel (codes, tree_code) };

    ghost use Rattle.proof_text.specs.Ahead.{proofs_ahead, IsAhead};
    ghost use Rattle.proof_text.specs.Views.{proofs_view, state_view};

    ghost view = { λ r. proofs_view r.read.items ++ proofs_ahead (state_view r.state) r.text.items r.at };

    ghost invariant = { λ r. IsAhead (state_view r.state) r.text.items r.at };
}

// Takes the line that a part of a text spells. Where it is known that there is such a text, memory alone can be wanting.
fn take_part(
    alloc: Global,
    found: &mut Proofs,
    state: State,
    part: &[u8],
) -> Result<State, NoMemory>
    requires { IsGood (proofs_view found.old) (state_view state) }
    ensures { IfOk result (λ s. at_line 1 (spec.line_adds
        (spec.so_far (proofs_view found.old) (state_view state)) true part.now)
        ≡ Ok (spec.so_far (proofs_view found.new) (state_view s))) }
{
    match add_line(alloc, found, state, true, part, 1) {
        Ok(state) => Ok(state),
        Err(_) => Err(NoMemory),
    }
}

// Reads from a place of a text on, until a certificate is whole; none is at the end.
fn read_on(alloc: Global, state: State, text: &[u8], at: usize) -> Result<ReadOn, NoMemory>
    requires { IsAhead (state_view state) text.now at }
    ensures { IfOk result (ReadsOn (state_view state) text.now at) }
{
    let mut found = Proofs::new(alloc);
    let mut state = state;
    let mut rest = text.split_at(at).1;
    'lines: loop {
        let (part, more) = cut_at(b'\n', rest);
        match more {
            None => {
                return Ok(ReadOn {
                    found,
                    state: State::Ended,
                    at: text.len(),
                });
            }
            Some(next) => {
                state = take_part(alloc, &mut found, state, part)?;
                rest = next;
            }
        }
        if found.len() > 0 {
            return Ok(ReadOn {
                found,
                state,
                at: text.len() - rest.len(),
            });
        }
    }
}

impl ProofReader {
    /// The certificates of a text, or the first of its lines that is outside the grammar, with the reason, as `read_proof` gives them.
    pub fn of(alloc: Global, text: Vec<u8>) -> Result<ProofReader, ReadFault>
        requires { length text.items ≤ TEXT_MAX }
        ensures read { Gives (λ proofs. proofs) result (spec.proofs_of text.items) }
        ensures good { IfOk result AreProofs }
    {
        if text.len() <= KEPT_MAX {
            let proofs = read_proof(alloc, &text)?;
            return Ok(ProofReader {
                read: VecDeque::from(proofs.into_vec()),
                text: Vec::new(alloc),
                state: State::Ended,
                at: 0,
            });
        }
        check_proof(alloc, &text)?;
        Ok(ProofReader {
            read: VecDeque::new(alloc),
            text,
            state: State::Start,
            at: 0,
        })
    }

    /// Takes the first of the certificates, or answers that there is none.
    pub fn take_first(&mut self, alloc: Global) -> Result<Option<ProofAt>, NoMemory>
        ensures { IfOk result (λ found. TakesFirst self.old found self.new) }
    {
        if self.read.is_empty() {
            let end = self.text.len();
            let state = mem::replace(&mut self.state, State::Ended);
            let at = mem::replace(&mut self.at, end);
            let more = read_on(alloc, state, &self.text, at)?;
            self.read = VecDeque::from(more.found.into_vec());
            self.state = more.state;
            self.at = more.at;
        }
        Ok(self.read.pop_front())
    }
}
