//! A desk that takes the marks of the first two files that are read, and lets no run begin that is not the card's.
ghost use Rattle.std.specs.Prelude.{◌≡◌};
ghost use Rattle.std.proofs.Common.{arith};
ghost use Rattle.card_files.specs.Counted.{faults_with};

use job_card::{Card, Facts, FileMark, Part, difference, mark_of_bytes};
use outside_io::{Desk, FetchFault, StoreFault};

/// What a run is to its card.
#[derive(Clone, Copy)]
pub enum Asked {
    /// It has none.
    Nothing,
    /// It makes one.
    Made,
    /// Its decimals, mesh and log are to be those of a card.
    Held { card: Card, decimals: u8 },
}

/// A desk, as another one. Where a run has a card, the marks of the first two files that it reads are taken, which are its mesh, and its
/// steps or its log; and where they are to be those of a card and are not, the second is refused as a file that can not be read is.
#[derive(Drop)]
pub struct CardDesk<D> {
    pub desk: D,
    asked: Asked,
    first: Option<FileMark>,
    second: Option<FileMark>,
    part: Option<Part>,
    refused: u64,
}

impl<D> CardDesk<D> {
    /// This desk, for a run that is this to its card.
    pub fn new(desk: D, asked: Asked) -> Self
        ensures { result.desk ≡ desk }
    {
        CardDesk {
            desk,
            asked,
            first: None,
            second: None,
            part: None,
            refused: 0,
        }
    }

    /// The marks of the first two files, where both were read.
    pub fn marks(&self) -> Option<(FileMark, FileMark)> {
        match (self.first, self.second) {
            (Some(first), Some(second)) => Some((first, second)),
            _ => None,
        }
    }

    /// Which part of the job is another than the card's, where the run was refused for it.
    pub fn part(&self) -> Option<Part> {
        self.part
    }

    // Takes the mark of a file that was read.
    fn note(&mut self, bytes: &[u8])
        ensures desk { self.new.desk ≡ self.old.desk }
        ensures refused { self.new.refused ≡ self.old.refused }
    {
        if let Asked::Nothing = self.asked {
            return;
        }
        if self.first.is_none() {
            self.first = Some(mark_of_bytes(bytes));
        } else if self.second.is_none() {
            self.second = Some(mark_of_bytes(bytes));
            self.hold();
        }
    }

    // Sees whether both files and the decimals are those of the card.
    fn hold(&mut self)
        ensures desk { self.new.desk ≡ self.old.desk }
        ensures refused { self.new.refused ≡ self.old.refused }
    {
        let Some((mesh, log)) = self.marks() else {
            return;
        };
        if let Asked::Held { card, decimals } = self.asked {
            let facts = Facts {
                decimals,
                mesh,
                log,
            };
            self.part = difference(&card, &facts);
        }
    }
}

impl<D: Desk> Desk for CardDesk<D> {
    ghost files = { λ desk. D.files desk.desk };

    ghost faults = { λ desk. faults_with (D.faults desk.desk) desk.refused };

    /// Fetches a file of the other desk, but where the job is not the card's.
    fn fetch(&mut self, name: &str, limit: usize, into: &mut Vec<u8>) -> Result<(), FetchFault> {
        self.desk.fetch(name, limit, into)?;
        self.note(into.as_slice());
        if self.part.is_some() {
            into.clear();
            self.refused = self.refused.saturating_add(1);
            return Err(FetchFault::Failed);
        }
        Ok(())
    }

    /// Stores a file on the other desk.
    fn store(&mut self, name: &str, bytes: &[u8]) -> Result<(), StoreFault> {
        self.desk.store(name, bytes)
    }

    ghost few = { λ desk. Prim.grind arith };
}
