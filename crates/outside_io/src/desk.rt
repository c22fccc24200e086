// A desk, which keeps files by their names.
ghost use Rattle.std.specs.Prelude.{◌≡◌, ◌<◌, ◌≤◌, ◌-◌, ◌^◌, List, [], Option, ℕ, length, IfErr, OnOk, OnErr, IsErrOf};
ghost use Rattle.outside_io.specs.Causes.{Rose};
ghost use Rattle.outside_io.specs.Desk.{Files, with_file, SameBut, HoldsFile, HoldsNoFile, HoldsAtLeast};
ghost use Rattle.outside_io.specs.declared.desk.StoreFault.TheVariants as store;
ghost use Rattle.outside_io.specs.declared.desk.FetchFault.TheVariants as fetch;

use thiserror::Error;

/// Why a file was not stored.
#[derive(Clone, Copy, Debug, PartialEq, Eq, Error)]
pub enum StoreFault {
    /// There was no memory.
    #[error("out of memory")]
    NoMemory = 1,
    /// The desk failed, as a full or broken disk does.
    #[error("the desk failed")]
    Failed = 2,
}

/// Why a file was not fetched.
#[derive(Clone, Copy, Debug, PartialEq, Eq, Error)]
pub enum FetchFault {
    /// There was no memory for the file's bytes.
    #[error("out of memory")]
    NoMemory,
    /// The desk failed, as a broken disk does.
    #[error("the desk failed")]
    Failed,
    /// The file is longer than the limit: it has at least `seen` bytes, which are more.
    #[error("the file is too long")]
    TooLong { seen: u64 },
    /// No file has the name.
    #[error("there is no such file")]
    Missing,
}

/// What keeps files by their names, such as a disk. It counts its faults, so that a caller can tell a fault of the desk
/// from one of its own.
pub trait Desk {
    /// The files, where the desk tells them.
    ghost files: { Self → Option Files };

    /// How often it has failed.
    ghost faults: { Self → ℕ };

    /// Puts the bytes of a file in the place of those of `into`. Where it refuses, `into` is empty.
    fn fetch(&mut self, name: &str, limit: usize, into: &mut Vec<u8>) -> Result<(), FetchFault>
        ensures found { OnOk result (HoldsFile (files self.old) name.now into.new.items) }
        ensures within { OnOk result (length into.new.items ≤ limit) }
        ensures refused { OnErr result (into.new.items ≡ []) }
        ensures kept { files self.new ≡ files self.old }
        ensures long { (seen : ℕ) → IsErrOf result (FetchFault.TooLong seen) → limit < seen }
        ensures seen { (seen : ℕ) → IsErrOf result (FetchFault.TooLong seen) →
            HoldsAtLeast (files self.old) name.now seen }
        ensures missing { IsErrOf result FetchFault.Missing →
            HoldsNoFile (files self.old) name.now }
        ensures calm { IsErrOf result FetchFault.Missing → faults self.new ≡ faults self.old }
        ensures later { faults self.old ≤ faults self.new }
        ensures failed { IsErrOf result FetchFault.Failed →
            Rose (faults self.old) (faults self.new) };

    /// Puts a file in the place of the one of that name, if there is one. Where the desk fails, nothing is said of
    /// this file.
    fn store(&mut self, name: &str, bytes: &[u8]) -> Result<(), StoreFault>
        ensures stored { OnOk result
            (files self.new ≡ with_file (files self.old) name.now bytes.now) }
        ensures refused { IsErrOf result StoreFault.NoMemory → files self.new ≡ files self.old }
        ensures others { IsErrOf result StoreFault.Failed →
            SameBut name.now (files self.old) (files self.new) }
        ensures later { faults self.old ≤ faults self.new }
        ensures failed { IsErrOf result StoreFault.Failed →
            Rose (faults self.old) (faults self.new) };

    /// The count of faults ends at the greatest `u64`, and stands still there.
    ghost few: { (desk : Self) → faults desk ≤ 2 ^ 64 - 1 };
}
