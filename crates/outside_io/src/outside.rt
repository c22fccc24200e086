//! The desk and the sink of a run as one.
ghost use Rattle.std.specs.Prelude.{◌≡◌};
ghost use Rattle.outside_io.specs.Outside.{Around, Fetches, Stores, Puts};
ghost use Rattle.outside_io.specs.World.{world};

use crate::stop::Stop;
use crate::{Desk, Fact, FetchFault, Sink, StoreFault, put_all};
use std::alloc::Global;

/// What a fetch that did not fail found.
#[derive(Drop)]
pub enum Fetched {
    /// The bytes of the file, no more than the limit.
    Bytes(Vec<u8>),
    /// There is no such file.
    Absent,
    /// The file is longer than the limit; so many bytes of it were seen.
    TooLong(u64),
}

/// What a run meets outside: what keeps files by their names, and what takes the bytes that it writes.
pub trait Outside {
    /// Which two sides these are, what both hold, where they tell, and how often each has failed.
    ghost around: { Self → Around };

    /// The bytes of a file, at most so many.
    fn fetch(&mut self, alloc: Global, name: &str, limit: usize) -> Result<Fetched, Stop>
        ensures { Fetches limit name.now (around self.old) (around self.new) result };

    /// Puts a file in the place of the one of that name, if there is one.
    fn store(&mut self, name: &str, bytes: &[u8]) -> Result<(), Stop>
        ensures { Stores name.now bytes.now (around self.old) (around self.new) result };

    /// Writes all of the bytes.
    fn put(&mut self, bytes: &[u8]) -> Result<(), Stop>
        ensures { Puts bytes.now (around self.old) (around self.new) result };

    /// Hears a fact of the run. Nothing changes.
    fn hear(&mut self, fact: Fact)
        ensures { around self.new ≡ around self.old };
}

/// A desk and a sink.
#[derive(Drop)]
pub struct Ends<'d, 'k, D, K> {
    pub desk: &'d mut D,
    pub out: &'k mut K,
}

impl<'d, 'k, D: Desk, K: Sink> Outside for Ends<'d, 'k, D, K> {
    ghost around = { λ s. record {
      sides = (s.desk.ghost_name, s.out.ghost_name);
      world = world D.files D.faults K.written K.faults s.desk.now s.out.now;
    } };

    fn fetch(&mut self, alloc: Global, name: &str, limit: usize) -> Result<Fetched, Stop> {
        let mut bytes = Vec::new(alloc);
        match self.desk.fetch(name, limit, &mut bytes) {
            Ok(()) => Ok(Fetched::Bytes(bytes)),
            Err(FetchFault::Missing) => Ok(Fetched::Absent),
            Err(FetchFault::TooLong { seen }) => Ok(Fetched::TooLong(seen)),
            Err(FetchFault::NoMemory) => Err(Stop::NoMemory),
            Err(FetchFault::Failed) => Err(Stop::DeskFault),
        }
    }

    fn store(&mut self, name: &str, bytes: &[u8]) -> Result<(), Stop> {
        match self.desk.store(name, bytes) {
            Ok(()) => Ok(()),
            Err(StoreFault::NoMemory) => Err(Stop::NoMemory),
            Err(StoreFault::Failed) => Err(Stop::DeskFault),
        }
    }

    fn put(&mut self, bytes: &[u8]) -> Result<(), Stop> {
        match put_all(self.out, bytes) {
            Ok(()) => Ok(()),
            Err(_) => Err(Stop::SinkFault),
        }
    }

    fn hear(&mut self, fact: Fact) {
        self.out.hear(fact);
    }
}
