//! Desks that count a fault where a call fails, and none elsewhere.
ghost use Rattle.user_files.specs.UserDesk.{told, FetchesExactly, StoresExactly};

use outside_io::{Desk, FetchFault, FileDesk, MemoryDesk, StoreFault, TryLock};
use std::rt::Files;

/// A desk that counts a fault where a call fails, and none elsewhere.
pub trait ExactDesk: Desk {
    /// Fetches as each desk does.
    fn fetch_exactly(
        &mut self,
        name: &str,
        limit: usize,
        into: &mut Vec<u8>,
    ) -> Result<(), FetchFault>
        ensures { let before = told Self.files Self.faults self.old in
            let after = told Self.files Self.faults self.new in
            FetchesExactly name.now limit before after into.new.items result };

    /// Stores as each desk does.
    fn store_exactly(&mut self, name: &str, bytes: &[u8]) -> Result<(), StoreFault>
        ensures { let before = told Self.files Self.faults self.old in
            let after = told Self.files Self.faults self.new in
            StoresExactly name.now bytes.now before after result };
}

impl<'a, R: Files> ExactDesk for FileDesk<'a, R>
where
    R::File: TryLock,
{
    fn fetch_exactly(
        &mut self,
        name: &str,
        limit: usize,
        into: &mut Vec<u8>,
    ) -> Result<(), FetchFault> {
        self.fetch(name, limit, into)
    }

    fn store_exactly(&mut self, name: &str, bytes: &[u8]) -> Result<(), StoreFault> {
        self.store(name, bytes)
    }
}

impl ExactDesk for MemoryDesk {
    fn fetch_exactly(
        &mut self,
        name: &str,
        limit: usize,
        into: &mut Vec<u8>,
    ) -> Result<(), FetchFault> {
        self.fetch(name, limit, into)
    }

    fn store_exactly(&mut self, name: &str, bytes: &[u8]) -> Result<(), StoreFault> {
        self.store(name, bytes)
    }
}
