//! What tells the pairs that do not pass in a round of impact zones.
ghost use Rattle.std.specs.Prelude.{◌≡◌, IsTrue};

use grid_base::{NoMemory, Shift, copy_of};
use mesh_base::{PairName, ShiftOf, Shifts, Surface};
use pair_scan::Pairs;
use std::alloc::Global;
use step_lists::ListOfMesh;
use step_zones::TellsFailing;

/// The list that is kept, as it was compared with a mesh, and the pairs that do not pass by the asked shifts. Round 0 goes by
/// these shifts, so it has these pairs; the list is asked for those of each later round.
#[derive(Clone, Copy)]
pub(crate) struct ListSource<'a> {
    pub(crate) list: ListOfMesh<'a>,
    pub(crate) asked: &'a [ShiftOf],
    pub(crate) hits: &'a [PairName],
    pub(crate) depth: u8,
}

// Whether the two shifts are the same.
#[tactic(auto, using(crate::proofs::SameShifts::same_by))]
fn is_same_by(s: Shift, t: Shift) -> bool
    ensures { IsTrue result → s ≡ t }
{
    s.x == t.x && s.y == t.y && s.z == t.z
}

// Whether it is the same shift of the same vertex.
#[tactic(auto, using(crate::proofs::SameShifts::same_shift_of))]
fn is_same(a: &ShiftOf, b: &ShiftOf) -> bool
    ensures { IsTrue result → a.now ≡ b.now }
{
    a.v == b.v && is_same_by(a.by, b.by)
}

// Whether these are the same shifts of the same vertices, in the same order.
fn are_same(a: &[ShiftOf], b: &[ShiftOf]) -> bool
    ensures { IsTrue result → a.now ≡ b.now }
{
    if a.len() != b.len() {
        return false;
    }
    for (i, s) in a.iter().enumerate() {
        if !is_same(s, &b[i]) {
            return false;
        }
    }
    true
}

impl<'a> TellsFailing for ListSource<'a> {
    ghost use Rattle.std.specs.Prelude.{◌≡◌};
    ghost use Rattle.grid_decided.specs.Decided.{meets_exactly};
    ghost use Rattle.mesh_base.specs.Failing.{failing};
    ghost use Rattle.step_lists.specs.Compared.{IsOfMesh};

    ghost can_tell = { λ near m. IsOfMesh m near.list
        × (near.hits.now ≡ failing meets_exactly m near.asked.now near.depth) };

    fn failing<S: Surface>(
        &self,
        alloc: Global,
        mesh: &S,
        by: &Shifts,
        depth: u8,
    ) -> Result<Pairs, NoMemory> {
        if depth == self.depth && are_same(by.as_slice(), self.asked) {
            return copy_of(alloc, self.hits);
        }
        self.list.failing(alloc, mesh, by, depth)
    }
}
