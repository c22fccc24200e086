ghost use Rattle.std.specs.Prelude.{◌≡◌, [], true, false, IsTrue, None, Ok, IfOk, map};
ghost use Rattle.std.specs.List.Sorted.{IsStrictlySortedBy};
ghost use Rattle.std.specs.Option.{unwrap_or};
ghost use Rattle.std.specs.Ordering.{nat_cmp};
ghost use Rattle.track_engine.specs.Shifting.{AreBelow, IsPut};
ghost use Rattle.track_engine.specs.State.{asked_of, still_at};

use grid_base::{NO_SHIFT, NoMemory, copy_of};
use mesh_base::{ShiftOf, Shifts, VertexId};
use pair_scan::place_of;
use std::alloc::Global;
use std::marker::Model;

/// What is asked of vertices since the last step, by rising id, each named once; of a vertex that is not named nothing is asked.
/// Vertices that live no more or are solid may still be named. A contract sees it as a list.
#[derive(Drop)]
pub struct AskedShifts {
    by_id: Vec<ShiftOf>,
}

impl Model for AskedShifts {
    ghost use Rattle.std.specs.Prelude.{List, map};
    ghost use Rattle.std.specs.List.Sorted.{IsStrictlySortedBy};
    ghost use Rattle.std.specs.Ordering.{nat_cmp};
    ghost use Rattle.mesh_base.specs.declared.ShiftOf.{ShiftOf};

    ghost Value = { List ShiftOf };

    ghost view = { λ a. a.by_id.items };

    ghost invariant = { λ a. IsStrictlySortedBy nat_cmp (map (λ s. s.v) a.by_id.items) };
}

impl AskedShifts {
    /// Nothing is asked of any vertex. Takes no memory.
    pub fn none(alloc: Global) -> AskedShifts
        ensures { result ≡ [] }
    {
        AskedShifts {
            by_id: Vec::new(alloc),
        }
    }

    /// These shifts are asked, whose ids rise. Takes no memory.
    pub fn of_all(shifts: Shifts) -> AskedShifts
        requires { IsStrictlySortedBy nat_cmp (map (λ s. s.v) shifts) }
        ensures { result ≡ shifts }
    {
        AskedShifts {
            by_id: shifts.into_vec(),
        }
    }

    /// The shifts that are named, by rising id.
    pub(crate) fn as_slice(&self) -> &[ShiftOf]
        ensures same { result.now ≡ self.now }
        ensures rise { IsStrictlySortedBy nat_cmp (map (λ s. s.v) self.now) }
    {
        self.by_id.as_slice()
    }

    /// The same.
    pub(crate) fn copy(&self, alloc: Global) -> Result<AskedShifts, NoMemory>
        ensures { IfOk result (λ copy. copy ≡ self.now) }
    {
        let copy = copy_of(alloc, self.by_id.as_slice())?;
        Ok(AskedShifts {
            by_id: copy.into_vec(),
        })
    }

    /// What is asked of a vertex; nothing, where it is not named.
    pub(crate) fn asked_of(&self, v: VertexId) -> ShiftOf
        ensures { result ≡ unwrap_or (asked_of v self.now) (still_at v) }
    {
        let still = ShiftOf { v, by: NO_SHIFT };
        match place_of(self.by_id.as_slice(), v) {
            Some(place) => match self.by_id.get(place) {
                Some(s) => *s,
                None => still,
            },
            None => still,
        }
    }

    /// Whether each id is below that of a vertex, by a look at the last.
    pub(crate) fn are_below(&self, v: VertexId) -> bool
        ensures { IsTrue result → AreBelow v self.now }
    {
        match self.by_id.last() {
            Some(s) => s.v.0 < v.0,
            None => true,
        }
    }

    /// Asks a shift of its vertex, in place of what is asked of it, or as the last one; false, with nothing changed, where its
    /// vertex is not named and would stand between others.
    pub(crate) fn put(&mut self, s: &ShiftOf) -> Result<bool, NoMemory>
        ensures put { result ≡ Ok true → IsPut s.now self.old self.new }
        ensures left { ¬ (result ≡ Ok true) → self.new ≡ self.old }
        ensures none { result ≡ Ok false → asked_of s.now.v self.old ≡ None }
    {
        if let Some(place) = place_of(self.by_id.as_slice(), s.v) {
            self.by_id[place] = *s;
            return Ok(true);
        }
        if !self.are_below(s.v) {
            return Ok(false);
        }
        self.by_id.push(*s)?;
        Ok(true)
    }

    /// Nothing is asked of any vertex any more. The memory is kept.
    pub(crate) fn clear(&mut self)
        ensures { self.new ≡ [] }
    {
        self.by_id.clear();
    }
}
