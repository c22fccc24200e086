ghost use Rattle.std.specs.Prelude.{◌↔◌, IsTrue};
ghost use Rattle.std.specs.List.{Any};
ghost use Rattle.grid_base.specs.Meeting.{AreWithin};
ghost use Rattle.grid_base.specs.Separation.{KeepsApart, TakesApart, ten_directions, directions};
ghost use Rattle.motion_test.specs.Small.{position_max};

use crate::axes::{axis_keeps_apart, axis_takes_apart};
use crate::direction_list::direction_of;
use crate::one_direction::{keeps, takes};
use grid_base::Positions;

// Whether one of the 23 directions keeps the edge on one side. The axes come first, which separate
// most pairs.
pub(crate) fn direction_keeps_apart(s: &Positions, t: &Positions, small: bool) -> bool
    requires s_fits { AreWithin (position_max small) s.now }
    requires t_fits { AreWithin (position_max small) t.now }
    ensures { IsTrue result ↔ Any (KeepsApart s.now t.now) (directions s.now t.now) }
{
    if axis_keeps_apart(s, t) {
        return true;
    }
    if own_keeps_apart(s, s, t, small) {
        return true;
    }
    own_keeps_apart(t, s, t, small)
}

// Whether one of the ten directions of `f` keeps the edge on one side. Each is computed where those
// before it did not.
fn own_keeps_apart(f: &Positions, s: &Positions, t: &Positions, small: bool) -> bool
    requires f_fits { AreWithin (position_max small) f.now }
    requires s_fits { AreWithin (position_max small) s.now }
    requires t_fits { AreWithin (position_max small) t.now }
    ensures { IsTrue result ↔ Any (KeepsApart s.now t.now) (ten_directions f.now) }
{
    for i in 0..10 {
        if keeps(direction_of(i, f, small), s, t, small) {
            return true;
        }
    }
    false
}

// Whether one of the 23 directions takes the edge to one side.
pub(crate) fn direction_takes_apart(s: &Positions, t: &Positions, small: bool) -> bool
    requires s_fits { AreWithin (position_max small) s.now }
    requires t_fits { AreWithin (position_max small) t.now }
    ensures { IsTrue result ↔ Any (TakesApart s.now t.now) (directions s.now t.now) }
{
    if axis_takes_apart(s, t) {
        return true;
    }
    if own_takes_apart(s, s, t, small) {
        return true;
    }
    own_takes_apart(t, s, t, small)
}

// Whether one of the ten directions of `f` takes the edge to one side. Each is computed where those
// before it did not.
fn own_takes_apart(f: &Positions, s: &Positions, t: &Positions, small: bool) -> bool
    requires f_fits { AreWithin (position_max small) f.now }
    requires s_fits { AreWithin (position_max small) s.now }
    requires t_fits { AreWithin (position_max small) t.now }
    ensures { IsTrue result ↔ Any (TakesApart s.now t.now) (ten_directions f.now) }
{
    for i in 0..10 {
        if takes(direction_of(i, f, small), s, t, small) {
            return true;
        }
    }
    false
}
