//! When the making of a list is tried again. Only speed depends on it.

/// A list that served fewer steps was not worth its making.
const STEPS_LEAST: u32 = 3;

/// How many steps a list has served, how many scans go by before the next is tried, and the next id of a face at the scan
/// before.
#[derive(Clone, Copy, Debug)]
pub(crate) struct Backoff {
    served: u32,
    wait: u32,
    left: u32,
    seen: u32,
}

impl Backoff {
    /// Nothing is waited for, and nothing was scanned.
    pub(crate) fn none() -> Backoff {
        Backoff {
            served: 0,
            wait: 0,
            left: 0,
            seen: 0,
        }
    }

    /// A list is made.
    pub(crate) fn begin(&mut self) {
        self.served = 0;
    }

    /// A list has served one more step.
    pub(crate) fn serve(&mut self) {
        self.served = self.served.saturating_add(1);
    }

    /// A list serves no more. After one that was not worth its making the next tries wait 2, 6, 14 .. scans.
    pub(crate) fn end(&mut self) {
        if self.served < STEPS_LEAST {
            self.wait = self.wait.saturating_mul(2).saturating_add(2);
        } else {
            self.wait = 0;
        }
        self.left = self.wait;
    }

    /// Whether a list may be tried after a scan: the one before was of the same faces, as far as their next id tells, so that
    /// steps come one after another; and nothing is waited for. If it is, one scan less is waited for.
    pub(crate) fn is_over(&mut self, next_face: u32) -> bool {
        let is_same = self.seen == next_face;
        self.seen = next_face;
        if !is_same {
            return false;
        }
        if self.left == 0 {
            return true;
        }
        self.left -= 1;
        false
    }
}
