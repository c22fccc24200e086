// A desk in memory, which fails where its lists say so.
ghost use Rattle.std.specs.Prelude.{◌≡◌, ◌<◌, ◌≤◌, ◌-◌, ◌^◌, ◌↔◌, ℕ, List, [], Some, None, length, OnOk, OnErr, IsErrOf, IsSomeAnd, option_map};
ghost use Rattle.std.specs.FinMap.{empty, get, insert};
ghost use Rattle.outside_io.specs.Causes.{Rose, next_count};

use crate::listed::is_listed;
use crate::shelf::{copy_into, insert_file, look_up};
use crate::{Desk, FetchFault, StoreFault};
use grid_base::NoMemory;
use std::alloc::Global;
use std::collections::BTreeMap;

/// Keeps files in memory, and fails where its lists say so.
#[derive(Drop)]
pub struct MemoryDesk {
    alloc: Global,
    files: BTreeMap<String, Vec<u8>>,
    fetches: u64,
    stores: u64,
    failing_fetches: Vec<u64>,
    failing_stores: Vec<u64>,
    faults: u64,
    ghost few: { faults ≤ 2 ^ 64 - 1 },
}

impl MemoryDesk {
    ghost use Rattle.outside_io.specs.MemoryDesk.{files_in, fetches_of, stores_of, failing_fetches_of, failing_stores_of, faults_of};

    /// A desk with no file. The fetches and the stores of these numbers, counted apart and each from 1, will fail.
    pub fn new(alloc: Global, failing_fetches: Vec<u64>, failing_stores: Vec<u64>) -> MemoryDesk
        ensures files { files_in result ≡ empty }
        ensures fetches { fetches_of result ≡ 0 }
        ensures stores { stores_of result ≡ 0 }
        ensures failing_fetches { failing_fetches_of result ≡ failing_fetches.items }
        ensures failing_stores { failing_stores_of result ≡ failing_stores.items }
        ensures faults { faults_of result ≡ 0 }
    {
        MemoryDesk {
            alloc,
            files: BTreeMap::new(alloc),
            fetches: 0,
            stores: 0,
            failing_fetches,
            failing_stores,
            faults: 0,
        }
    }

    /// Sets the file of a name, and counts no store. Where there is no memory, nothing changes.
    pub fn put(&mut self, name: &str, bytes: &[u8]) -> Result<(), NoMemory>
        ensures ok { OnOk result
            (files_in self.new ≡ insert (files_in self.old) name.now bytes.now) }
        ensures err { OnErr result (files_in self.new ≡ files_in self.old) }
        ensures fetches { fetches_of self.new ≡ fetches_of self.old }
        ensures stores { stores_of self.new ≡ stores_of self.old }
        ensures failing_fetches { failing_fetches_of self.new ≡ failing_fetches_of self.old }
        ensures failing_stores { failing_stores_of self.new ≡ failing_stores_of self.old }
        ensures faults { faults_of self.new ≡ faults_of self.old }
    {
        insert_file(self.alloc, &mut self.files, name, bytes)
    }

    /// The bytes of the file of a name; `None` where there is none.
    pub fn file(&self, name: &str) -> Option<&[u8]>
        ensures { option_map (λ bytes. bytes.now) result ≡ get (files_in self.now) name.now }
    {
        look_up(&self.files, name)
    }
}

impl Desk for MemoryDesk {
    ghost use Rattle.outside_io.specs.Desk.{with_file, SameBut, HoldsFile, HoldsNoFile, HoldsAtLeast};
    ghost use Rattle.outside_io.specs.MemoryDesk.{files_in, fetches_of, stores_of, failing_fetches_of, failing_stores_of, faults_of, RefusesFetch, RefusesStore};

    ghost files = { λ desk. Some (files_in desk) };

    ghost faults = { λ desk. faults_of desk };

    /// Puts the bytes of a file in the place of those of `into`. It fails exactly where its list names the fetch, and
    /// else looks for the file. A file that is too long tells its whole length.
    fn fetch(&mut self, name: &str, limit: usize, into: &mut Vec<u8>) -> Result<(), FetchFault>
        ensures found { OnOk result (get (files_in self.old) name.now ≡ Some into.new.items) }
        ensures within { OnOk result (length into.new.items ≤ limit) }
        ensures refused { OnErr result (into.new.items ≡ []) }
        ensures kept { files_in self.new ≡ files_in self.old }
        ensures exactly { IsErrOf result FetchFault.Failed ↔ RefusesFetch self.old }
        ensures long { (seen : ℕ) → IsErrOf result (FetchFault.TooLong seen) → limit < seen }
        ensures seen { (seen : ℕ) → IsErrOf result (FetchFault.TooLong seen) →
            HoldsAtLeast (Some (files_in self.old)) name.now seen }
        ensures missing { IsErrOf result FetchFault.Missing ↔
            (¬ RefusesFetch self.old × (get (files_in self.old) name.now ≡ None)) }
        ensures whole { (seen : ℕ) → IsErrOf result (FetchFault.TooLong seen) ↔
            (¬ RefusesFetch self.old
            × IsSomeAnd (get (files_in self.old) name.now)
            (λ bytes. (seen ≡ length bytes) × (limit < seen))) }
        ensures fetches { fetches_of self.new ≡ next_count (fetches_of self.old) }
        ensures stores { stores_of self.new ≡ stores_of self.old }
        ensures failing_fetches { failing_fetches_of self.new ≡ failing_fetches_of self.old }
        ensures failing_stores { failing_stores_of self.new ≡ failing_stores_of self.old }
        ensures later { faults_of self.old ≤ faults_of self.new }
        ensures calm { ¬ RefusesFetch self.old → faults_of self.new ≡ faults_of self.old }
        ensures risen { RefusesFetch self.old →
            faults_of self.new ≡ next_count (faults_of self.old) }
    {
        into.clear();
        self.fetches = self.fetches.saturating_add(1);
        if is_listed(&self.failing_fetches, self.fetches) {
            self.faults = self.faults.saturating_add(1);
            return Err(FetchFault::Failed);
        }
        match look_up(&self.files, name) {
            Some(bytes) => copy_into(bytes, limit, into),
            None => Err(FetchFault::Missing),
        }
    }

    /// Puts a file in the place of the one of that name, if there is one. It fails exactly where its list names the
    /// store, and the files are then as before.
    fn store(&mut self, name: &str, bytes: &[u8]) -> Result<(), StoreFault>
        ensures stored { OnOk result
            (files_in self.new ≡ insert (files_in self.old) name.now bytes.now) }
        ensures refused { OnErr result (files_in self.new ≡ files_in self.old) }
        ensures exactly { IsErrOf result StoreFault.Failed ↔ RefusesStore self.old }
        ensures fetches { fetches_of self.new ≡ fetches_of self.old }
        ensures stores { stores_of self.new ≡ next_count (stores_of self.old) }
        ensures failing_fetches { failing_fetches_of self.new ≡ failing_fetches_of self.old }
        ensures failing_stores { failing_stores_of self.new ≡ failing_stores_of self.old }
        ensures later { faults_of self.old ≤ faults_of self.new }
        ensures calm { ¬ RefusesStore self.old → faults_of self.new ≡ faults_of self.old }
        ensures risen { RefusesStore self.old →
            faults_of self.new ≡ next_count (faults_of self.old) }
    {
        self.stores = self.stores.saturating_add(1);
        if is_listed(&self.failing_stores, self.stores) {
            self.faults = self.faults.saturating_add(1);
            return Err(StoreFault::Failed);
        }
        match insert_file(self.alloc, &mut self.files, name, bytes) {
            Ok(()) => Ok(()),
            Err(NoMemory) => Err(StoreFault::NoMemory),
        }
    }

    ghost few = { λ desk. desk.few };
}
