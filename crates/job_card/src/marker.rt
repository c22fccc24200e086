ghost use Rattle.std.specs.Prelude.{◌≡◌, ◌<◌, ◌^◌, ◌++◌, [], ℕ, List, length};
ghost use Rattle.job_card.specs.Differences.{Marks};

use crate::card::FileMark;
use sha2::{Digest, Sha256};

/// What tells these bytes from others.
pub fn mark_of_bytes(bytes: &[u8]) -> FileMark
    ensures { Marks bytes.now result }
{
    FileMark {
        bytes: bytes.len() as u64,
        digest: Sha256::digest(bytes),
    }
}

/// Takes a file in piece by piece, and gives its mark.
#[derive(Drop)]
pub struct Marker {
    hasher: Sha256,
    bytes: u64,
}

impl Marker {
    ghost use Rattle.job_card.specs.Marked.{HoldsBytes};

    /// That of no bytes.
    #[tactic(auto, unfolding(crate::specs::Marked::HoldsBytes))]
    pub fn new() -> Marker
        ensures { HoldsBytes result [] }
    {
        Marker {
            hasher: Sha256::new(),
            bytes: 0,
        }
    }

    /// Takes in more bytes.
    #[tactic(auto, unfolding(crate::specs::Marked::HoldsBytes))]
    pub fn add(&mut self, more: &[u8])
        ensures { (m : List ℕ) → HoldsBytes self.old m → HoldsBytes self.new (m ++ more.now) }
    {
        self.hasher.update(more);
        self.bytes = self.bytes.saturating_add(more.len() as u64);
    }

    /// The mark of the bytes that were taken in, which are fewer than 2 to the power 64.
    #[tactic(auto, unfolding(crate::specs::Marked::HoldsBytes))]
    pub fn mark(self) -> FileMark
        ensures { (m : List ℕ) → length m < 2 ^ 64 → HoldsBytes self m → Marks m result }
    {
        FileMark {
            bytes: self.bytes,
            digest: self.hasher.finalize(),
        }
    }
}
