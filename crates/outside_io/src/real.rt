// The real files and the standard output. They tell nothing of what they hold: that they keep it is not proved.
ghost use Rattle.std.specs.Prelude.{◌≡◌, ◌<◌, ◌≤◌, ◌-◌, ◌+◌, ◌^◌, ℕ, None, [], length, vec_len, take, IfOk, OnOk, OnErr, IsErrOf, IsOk};
ghost use Rattle.outside_io.specs.Causes.{HasCause, Rose, next_count};
ghost use Rattle.outside_io.specs.Desk.{HoldsFile, with_file};
ghost use Rattle.outside_io.specs.Sink.{appended};

use crate::atomic_store::store_whole;
use crate::bounded_read::{Unread, open_whole};
use crate::pipes::{Pipe, note_pipe};
use crate::trouble::{Refusal, Step, Trouble};
use crate::{Desk, Failed, FetchFault, Sink, StoreFault, TryLock};
use std::alloc::Global;
use std::io;
use std::rt::Files;

/// The files of the system, by their paths. It counts each error of the system but that an opened name holds no file.
#[derive(Drop)]
pub struct FileDesk<'a, R: Files> {
    alloc: Global,
    rt: &'a R,
    faults: u64,
    trouble: Option<Trouble>,
    pipes: Vec<Pipe>,
    ghost few: { faults ≤ 2 ^ 64 - 1 },
}

impl<'a, R: Files> FileDesk<'a, R> {
    ghost use Rattle.outside_io.specs.Real.{desk_faults};

    /// The files that a runtime reaches.
    pub fn new(alloc: Global, rt: &'a R) -> Self
        ensures { desk_faults result ≡ 0 }
    {
        FileDesk {
            alloc,
            rt,
            faults: 0,
            trouble: None,
            pipes: Vec::new(alloc),
        }
    }

    /// The last error of the system that was counted; `None` where none was, or its file's name found no memory.
    pub fn trouble(&self) -> Option<&Trouble> {
        self.trouble.as_ref()
    }

    // Counts an error of the system, and keeps it with the file's name.
    fn count(&mut self, name: &str, step: Step, error: io::Error)
        ensures { desk_faults self.new ≡ next_count (desk_faults self.old) }
    {
        self.faults = self.faults.saturating_add(1);
        self.trouble = match String::from_str(self.alloc, name) {
            Ok(name) => Some(Trouble { name, step, error }),
            Err(_) => None,
        };
    }
}

impl<'a, R: Files> Desk for FileDesk<'a, R>
where
    R::File: TryLock,
{
    ghost use Rattle.outside_io.specs.Real.{desk_faults};

    ghost files = { λ _. None };

    ghost faults = { λ desk. desk.faults };

    /// Opens the file of a name and reads it to its end, but not past the limit. A pipe that it has read before is refused.
    /// One fault is counted where it fails, and none where it does not.
    fn fetch(&mut self, name: &str, limit: usize, into: &mut Vec<u8>) -> Result<(), FetchFault>
        ensures found { OnOk result (HoldsFile None name.now into.new.items) }
        ensures within { OnOk result (length into.new.items ≤ limit) }
        ensures refused { OnErr result (into.new.items ≡ []) }
        ensures long { (seen : ℕ) → IsErrOf result (FetchFault.TooLong seen) → limit < seen }
        ensures calm { IsErrOf result FetchFault.Missing →
            desk_faults self.new ≡ desk_faults self.old }
        ensures later { desk_faults self.old ≤ desk_faults self.new }
        ensures failed { IsErrOf result FetchFault.Failed →
            Rose (desk_faults self.old) (desk_faults self.new) }
        ensures one { IsErrOf result FetchFault.Failed →
            desk_faults self.new ≡ next_count (desk_faults self.old) }
        ensures none { ¬ IsErrOf result FetchFault.Failed →
            desk_faults self.new ≡ desk_faults self.old }
    {
        let result = match note_pipe(self.rt, name, &mut self.pipes) {
            Ok(()) => open_whole(self.rt, name, limit, into),
            Err(refusal) => Err(Unread::Refused(refusal)),
        };
        if result.is_err() {
            into.clear();
        }
        match result {
            Ok(()) => Ok(()),
            Err(Unread::Missing) => Err(FetchFault::Missing),
            Err(Unread::TooLong { seen }) => Err(FetchFault::TooLong { seen }),
            Err(Unread::Refused(Refusal::NoMemory)) => Err(FetchFault::NoMemory),
            Err(Unread::Refused(Refusal::System(step, error))) => {
                self.count(name, step, error);
                Err(FetchFault::Failed)
            }
        }
    }

    /// Writes a file beside the one of the name and puts it in its place, so that where it fails that one is as it was, and no
    /// other file is left. What is no file, as a device, is written to, but for a pipe that has a name, which is refused. One
    /// fault is counted where it fails, and none where it does not.
    fn store(&mut self, name: &str, bytes: &[u8]) -> Result<(), StoreFault>
        ensures stored { OnOk result (None ≡ with_file None name.now bytes.now) }
        ensures later { desk_faults self.old ≤ desk_faults self.new }
        ensures failed { IsErrOf result StoreFault.Failed →
            Rose (desk_faults self.old) (desk_faults self.new) }
        ensures one { IsErrOf result StoreFault.Failed →
            desk_faults self.new ≡ next_count (desk_faults self.old) }
        ensures none { ¬ IsErrOf result StoreFault.Failed →
            desk_faults self.new ≡ desk_faults self.old }
    {
        match store_whole(self.alloc, self.rt, name, bytes) {
            Ok(()) => Ok(()),
            Err(Refusal::NoMemory) => Err(StoreFault::NoMemory),
            Err(Refusal::System(step, error)) => {
                self.count(name, step, error);
                Err(StoreFault::Failed)
            }
        }
    }

    ghost few = { λ desk. desk.few };
}

/// The standard output. It counts each error of the system, and each piece of which nothing was taken.
#[derive(Drop)]
pub struct StdSink<'a, P: Print> {
    rt: &'a P,
    faults: u64,
    ghost few: { faults ≤ 2 ^ 64 - 1 },
}

impl<'a, P: Print> StdSink<'a, P> {
    ghost use Rattle.outside_io.specs.Real.{sink_faults};

    /// The standard output of a runtime.
    pub fn new(rt: &'a P) -> Self
        ensures { sink_faults result ≡ 0 }
    {
        StdSink { rt, faults: 0 }
    }
}

impl<'a, P: Print> Sink for StdSink<'a, P> {
    ghost use Rattle.outside_io.specs.Real.{sink_faults};

    ghost written = { λ _. None };

    ghost faults = { λ sink. sink.faults };

    /// Gives the system the first bytes of a piece. One fault is counted where it fails, and none where it does not.
    fn write(&mut self, bytes: &[u8]) -> Result<usize, Failed>
        ensures within { IfOk result (λ n. n ≤ length bytes.now) }
        ensures taken { IfOk result (λ n. None ≡ appended None (take n bytes.now)) }
        ensures some { IfOk result (λ n. 0 < length bytes.now → 0 < n) }
        ensures refused { OnErr result (None ≡ appended None []) }
        ensures cause { HasCause (sink_faults self.old) (sink_faults self.new) result }
        ensures one { OnErr result (sink_faults self.new ≡ next_count (sink_faults self.old)) }
        ensures none { IsOk result → sink_faults self.new ≡ sink_faults self.old }
    {
        match self.rt.write_some(bytes) {
            Ok(count) if count > 0 || bytes.is_empty() => Ok(count),
            _ => {
                self.faults = self.faults.saturating_add(1);
                Err(Failed)
            }
        }
    }

    ghost few = { λ sink. sink.few };
}
