use crate::open_group::OpenGroup;
use grid_base::NoMemory;
use std::alloc::Global;
use std::marker::Model;

/// The open groups, each within the one before. A contract sees them as a list, the innermost first.
#[derive(Drop)]
pub struct OpenGroups {
    innermost_last: Vec<OpenGroup>,
}

impl Model for OpenGroups {
    ghost use Rattle.std.specs.Prelude.{List, reverse};
    ghost use Rattle.track_engine.specs.declared.open_group.OpenGroup.{OpenGroup};

    ghost Value = { List OpenGroup };

    ghost view = { λ g. reverse g.innermost_last.items };
}

impl OpenGroups {
    ghost use Rattle.std.specs.Prelude.{◌≡◌, ◌∷◌, [], slice_get, option_map, OnOk, OnErr};
    ghost use Rattle.track_engine.specs.Calls.{TakesInnermost};
    ghost use Rattle.track_engine.specs.Groups.{is_open_in, failed_if};

    /// No open group. Takes no memory.
    pub fn none(alloc: Global) -> OpenGroups
        ensures { result ≡ [] }
    {
        OpenGroups {
            innermost_last: Vec::new(alloc),
        }
    }

    /// Whether a group is open.
    pub fn is_open(&self) -> bool
        ensures { result ≡ is_open_in self.now }
    {
        !self.innermost_last.is_empty()
    }

    /// Whether the innermost open group has failed; None where none is open.
    pub fn has_failed(&self) -> Option<bool>
        ensures { result ≡ option_map (λ group. group.failed) (slice_get self.now 0) }
    {
        match self.innermost_last.last() {
            Some(group) => Some(group.failed),
            None => None,
        }
    }

    /// Opens a group within the others, or changes nothing.
    pub fn open(&mut self, group: OpenGroup) -> Result<(), NoMemory>
        ensures ok { OnOk result (self.new ≡ group ∷ self.old) }
        ensures err { OnErr result (self.new ≡ self.old) }
    {
        self.innermost_last.push(group)?;
        Ok(())
    }

    /// Makes the innermost open group fail, if `failed`. Takes no memory.
    pub fn fail_if(&mut self, failed: bool)
        ensures { self.new ≡ failed_if failed self.old }
    {
        let count = self.innermost_last.len();
        if count > 0 {
            let group = &mut self.innermost_last[count - 1];
            group.failed = group.failed || failed;
        }
    }

    /// Closes the innermost open group, and answers it; None where none is open. Takes no memory.
    pub fn close(&mut self) -> Option<OpenGroup>
        ensures { TakesInnermost self result }
    {
        self.innermost_last.pop()
    }
}
