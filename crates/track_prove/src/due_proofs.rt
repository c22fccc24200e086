//! The certificates of a proof that are left, of which the first is at hand.
ghost use Rattle.std.specs.Prelude.{◌≡◌, option_map, IfOk};
ghost use Rattle.proof_text.specs.Views.{proof_view};
ghost use Rattle.track_prove.specs.Taking.{front_at, first_line, Passes};

use grid_base::NoMemory;
use proof_text::{ProofAt, ProofReader};
use std::alloc::Global;
use std::marker::Model;

// The certificates that are left; where none is at hand, none is left. A contract sees their list.
#[derive(Drop)]
pub(crate) struct DueProofs {
    first: Option<ProofAt>,
    others: ProofReader,
}

impl Model for DueProofs {
    ghost use Rattle.std.specs.Prelude.{List};
    ghost use Rattle.std.specs.Coded.{codes};
    ghost use Rattle.proof_text.specs.Coded.{tree_code};
    ghost use Rattle.proof_text.specs.Plain.{PlainProof};

    ghost Value = { List PlainProof };

    ghost coded = { Prim.hlevel (codes, tree_code) };

    ghost use Rattle.track_prove.specs.Taking.{proofs_due};

    ghost view = { λ d. proofs_due d.first d.others };
}

impl DueProofs {
    // The certificates of a proof.
    pub(crate) fn of(alloc: Global, proofs: ProofReader) -> Result<DueProofs, NoMemory>
        ensures { IfOk result (λ due. due ≡ proofs) }
    {
        let mut others = proofs;
        let first = others.take_first(alloc)?;
        Ok(DueProofs { first, others })
    }

    // The first certificate, where it is that of the line with this number.
    pub(crate) fn front_at(&self, number: u32) -> Option<&ProofAt>
        ensures { option_map (λ p. proof_view p.now) result ≡ front_at self.now number }
    {
        match &self.first {
            Some(first) => {
                if first.line == number {
                    Some(first)
                } else {
                    None
                }
            }
            None => None,
        }
    }

    // The line of the first certificate, if there is one.
    pub(crate) fn first_line(&self) -> Option<u32>
        ensures { result ≡ first_line self.now }
    {
        match &self.first {
            Some(first) => Some(first.line),
            None => None,
        }
    }

    // Passes over the first certificate, where it is that of the line with this number; and answers how many that are.
    pub(crate) fn pass(&mut self, alloc: Global, number: u32) -> Result<u32, NoMemory>
        ensures { IfOk result (Passes number self.old self.new) }
    {
        let Some(line) = self.first_line() else {
            return Ok(0);
        };
        if line != number {
            return Ok(0);
        }
        self.first = self.others.take_first(alloc)?;
        Ok(1)
    }
}
