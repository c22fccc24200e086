ghost use Rattle.std.specs.Prelude.{◌≡◌, ◌↔◌, true};
ghost use Rattle.job_card.specs.Differences as spec;

use crate::card::{Card, FileMark};

/// What a log is taken with.
#[derive(Clone, Copy)]
pub struct Facts {
    pub decimals: u8,
    pub mesh: FileMark,
    pub log: FileMark,
}

/// What of a log may be another than its card says.
#[derive(Clone, Copy, PartialEq, Eq)]
pub enum Part {
    Decimals,
    Mesh,
    Log,
}

// Whether two marks are the same.
fn is_same(a: &FileMark, b: &FileMark) -> bool
    ensures { result ≡ true ↔ a.now ≡ b.now }
{
    a.bytes == b.bytes && a.digest == b.digest
}

/// The first of decimals, mesh and log that is another than the card's; None exactly where all are the card's.
pub fn difference(card: &Card, facts: &Facts) -> Option<Part>
    ensures { spec.IsFirstDifference card.now facts.now result }
{
    if card.decimals != facts.decimals {
        return Some(Part::Decimals);
    }
    if !is_same(&card.mesh, &facts.mesh) {
        return Some(Part::Mesh);
    }
    if !is_same(&card.log, &facts.log) {
        return Some(Part::Log);
    }
    None
}
