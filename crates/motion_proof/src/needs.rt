//! Which pairs need no entry.
ghost use Rattle.std.specs.Prelude.{◌≡◌, ◌↔◌, IsTrue};
ghost use Rattle.grid_base.specs.Meeting.{AreWithin};
ghost use Rattle.motion_proof.specs.Needs.{NeedsNone, needs_none};

use grid_base::{HALF_MAX, Positions};
use grid_meets::meets;
use motion_test::{axis_keeps_apart, moves_together};

/// Whether a pair needs no entry: it moves as one and does not meet at the start, or an axis keeps it apart.
pub(crate) fn needs_none(s: &Positions, t: &Positions) -> bool
    requires s_fits { AreWithin HALF_MAX s.now }
    requires t_fits { AreWithin HALF_MAX t.now }
    ensures exact { IsTrue result ↔ NeedsNone s.now t.now }
    ensures value { result ≡ needs_none s.now t.now }
{
    needs_no_entry(s, t)
}

// The same. What moves as one needs none exactly where it does not meet at the start, so it is asked for no axis.
fn needs_no_entry(s: &Positions, t: &Positions) -> bool
    requires s_fits { AreWithin HALF_MAX s.now }
    requires t_fits { AreWithin HALF_MAX t.now }
    ensures { IsTrue result ↔ NeedsNone s.now t.now }
{
    if moves_together(s, t) {
        return !meets(s.a, s.b, s.c, s.d, s.e);
    }
    axis_keeps_apart(s, t)
}
