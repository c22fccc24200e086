//! The handle of a tracker, which a caller in C holds.
ghost use Rattle.std.specs.Prelude.{◌≡◌, Some, None, IsSome, MatchOption};

use crate::owned::OwnedTracker;
use crate::tracker::Tracker;
use std::alloc::Global;
use std::mem;

/// The handle of a tracker, or of none where `live` is not 1.
#[repr(C)]
#[derive(Drop)]
pub struct Topo {
    pub owned: OwnedTracker,
    pub live: u32,
    ghost held: { live ≡ 1 → IsSome owned.value },
    ghost full: { IsSome owned.value → live ≡ 1 },
}

impl Topo {
    /// Takes the tracker out, and leaves none.
    pub(crate) fn take(&mut self, alloc: Global) -> Option<Box<Tracker>>
        ensures took { MatchOption result (self.old.owned.value ≡ None)
            (λ b. self.old.owned.value ≡ Some b.value) }
        ensures left { self.new.owned.value ≡ None }
    {
        if self.live != 1 {
            return None;
        }
        let none = Topo {
            owned: OwnedTracker::empty(alloc),
            live: 0,
        };
        let was = mem::replace(self, none);
        Some(was.owned.into_box())
    }

    /// Puts a tracker in.
    pub(crate) fn give(&mut self, b: Box<Tracker>)
        ensures { self.new.owned.value ≡ Some b.value }
    {
        *self = Topo {
            owned: OwnedTracker::of(b),
            live: 1,
        };
    }
}
