// A sink and a desk that count what they are given, and never fail.
ghost use Rattle.std.specs.Prelude.{◌≡◌, ◌<◌, ◌≤◌, ◌-◌, ◌^◌, ◌++◌, [], Some, None, length, take, IfOk, OnOk, OnErr, IsOk};
ghost use Rattle.std.proofs.Common.{lit≤};
ghost use Rattle.outside_io.specs.Causes.{HasCause};
ghost use Rattle.outside_io.specs.Counted.{AreOf};
ghost use Rattle.outside_io.specs.ToldLines.{lines_in, steps_in, whole_steps_in, splits_in, capped};
ghost use Rattle.outside_io.specs.Desk.{HoldsFile, with_file};
ghost use Rattle.outside_io.specs.Sink.{appended};

use crate::line_counts::LineCounts;
use crate::told::Told;
use crate::{Desk, Failed, FetchFault, Sink, StoreFault};

/// A sink that counts the lines of a log, takes every piece whole, and keeps none of it. What it was given is told to clauses
/// alone, so that its counts can be those of a text.
#[derive(Drop)]
pub struct TallySink {
    counts: LineCounts,
    told: Told,
    ghost counted: { AreOf counts told.text },
}

impl TallySink {
    ghost use Rattle.outside_io.specs.Tally.{told_to};

    /// A sink that was given nothing.
    pub fn new() -> TallySink
        ensures { told_to result ≡ [] }
    {
        TallySink {
            counts: LineCounts::new(),
            told: Told::new(),
        }
    }

    /// How many lines it was given.
    pub fn lines(&self) -> u64
        ensures { result ≡ capped (lines_in (told_to self.now)) }
    {
        self.counts.lines
    }

    /// How many of them tell that a step begins.
    pub fn steps(&self) -> u64
        ensures { result ≡ capped (steps_in (told_to self.now)) }
    {
        self.counts.steps
    }

    /// How many of them tell a step that is taken with the asked shifts.
    pub fn whole_steps(&self) -> u64
        ensures { result ≡ capped (whole_steps_in (told_to self.now)) }
    {
        self.counts.whole_steps
    }

    /// How many of them tell a split.
    pub fn splits(&self) -> u64
        ensures { result ≡ capped (splits_in (told_to self.now)) }
    {
        self.counts.splits
    }
}

impl Sink for TallySink {
    ghost use Rattle.outside_io.specs.Tally.{told_to};

    ghost written = { λ sink. Some sink.told.text };

    ghost faults = { λ _. 0 };

    /// Takes the piece whole.
    fn write(&mut self, bytes: &[u8]) -> Result<usize, Failed>
        ensures within { IfOk result (λ n. n ≤ length bytes.now) }
        ensures taken { IfOk result
            (λ n. Some (told_to self.new) ≡ appended (Some (told_to self.old)) (take n bytes.now)) }
        ensures some { IfOk result (λ n. 0 < length bytes.now → 0 < n) }
        ensures refused { OnErr result (told_to self.new ≡ told_to self.old) }
        ensures cause { HasCause 0 0 result }
        ensures whole { IfOk result (λ n. n ≡ length bytes.now) }
        ensures never { IsOk result }
    {
        self.counts.take_all(bytes);
        self.told = self.told.and(bytes);
        Ok(bytes.len())
    }

    ghost few = { λ _. lit≤ tt };
}

/// A desk that counts the files that are stored, keeps none, and fetches empty files.
#[derive(Drop)]
pub struct TallyDesk {
    stores: u64,
}

impl TallyDesk {
    ghost use Rattle.outside_io.specs.Tally.{stored_on};

    /// A desk on which nothing was stored.
    pub fn new() -> TallyDesk
        ensures { stored_on result ≡ 0 }
    {
        TallyDesk { stores: 0 }
    }

    /// How many files were stored.
    pub fn stores(&self) -> u64
        ensures { result ≡ stored_on self.now }
    {
        self.stores
    }
}

impl Desk for TallyDesk {
    ghost use Rattle.outside_io.specs.Causes.{next_count};
    ghost use Rattle.outside_io.specs.Tally.{stored_on};

    ghost files = { λ _. None };

    ghost faults = { λ _. 0 };

    /// Leaves `into` empty.
    fn fetch(&mut self, name: &str, limit: usize, into: &mut Vec<u8>) -> Result<(), FetchFault>
        ensures found { OnOk result (HoldsFile None name.now into.new.items) }
        ensures within { OnOk result (length into.new.items ≤ limit) }
        ensures refused { OnErr result (into.new.items ≡ []) }
        ensures empty { into.new.items ≡ [] }
        ensures stores { stored_on self.new ≡ stored_on self.old }
        ensures never { IsOk result }
    {
        into.clear();
        Ok(())
    }

    /// Counts the file.
    fn store(&mut self, name: &str, bytes: &[u8]) -> Result<(), StoreFault>
        ensures stored { OnOk result (None ≡ with_file None name.now bytes.now) }
        ensures counted { stored_on self.new ≡ next_count (stored_on self.old) }
        ensures never { IsOk result }
    {
        self.stores = self.stores.saturating_add(1);
        Ok(())
    }

    ghost few = { λ _. lit≤ tt };
}
