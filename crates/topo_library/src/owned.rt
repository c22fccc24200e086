// The box of the state as a pointer that can be held by a caller in C.
ghost use Rattle.std.specs.Prelude.{◌≡◌, Option, Some, None, IsSome};
ghost use Rattle.topo_library.specs.declared.tracker.Tracker.{Tracker};
ghost use Rattle.std.specs.Coded.{coded_option};
ghost use Rattle.topo_library.specs.contracts.tracker.Tracker.{the_row};
ghost use Rattle.topo_library.specs.Owned.{owned_owns};

use crate::loose::LooseBox;
use crate::tracker::Tracker;
use std::alloc::Global;
use std::marker::Model;

// The state in the box of the pointer `at`, or nothing.
#[repr(C)]
#[derive(Drop)]
pub struct OwnedTracker {
    at: *mut u8,
    alloc: Global,
    pub ghost value: { Option Tracker } by { coded_option the_row.coded },
}

impl Model for OwnedTracker {
    ghost also_owns = { λ h. owned_owns h.alloc h.at h.value };
}

// Nothing.
fn nothing(alloc: Global) -> OwnedTracker
    ensures { result.value ≡ None }
{
    OwnedTracker {
        at: std::ptr::null_mut(),
        alloc,
    }
}

// The pointer of a box.
fn seal(l: LooseBox<Tracker, Global>) -> OwnedTracker
    ensures { result.value ≡ Some l.value }
{
    let LooseBox { ptr, alloc } = l;
    OwnedTracker {
        at: ptr as *mut u8,
        alloc,
    }
}

// The box of a pointer.
fn unseal(h: OwnedTracker) -> LooseBox<Tracker, Global>
    requires { IsSome h.value }
    ensures { Some result.value ≡ h.value }
{
    let OwnedTracker { at, alloc } = h;
    LooseBox {
        ptr: at as *mut Tracker,
        alloc,
    }
}

impl OwnedTracker {
    // Nothing.
    pub(crate) fn empty(alloc: Global) -> OwnedTracker
        ensures { result.value ≡ None }
    {
        nothing(alloc)
    }

    // The value of a box.
    pub(crate) fn of(b: Box<Tracker>) -> OwnedTracker
        ensures { result.value ≡ Some b.value }
    {
        seal(LooseBox::of(b))
    }

    // The box of the value.
    pub(crate) fn into_box(self) -> Box<Tracker>
        requires { IsSome self.value }
        ensures { Some result.value ≡ self.value }
    {
        unseal(self).into_box()
    }
}
