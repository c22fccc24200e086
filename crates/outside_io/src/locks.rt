// Locks on files, by which a run tells a file that another run is writing from one that a dead run left.
use std::fs::{File, TryLockError};
use std::io;

/// A file that may be locked. A lock ends with the run that holds it, however that ends.
pub trait TryLock {
    /// Locks the file, and says whether that is done: it is not while another has it locked.
    fn is_locked_now(&self) -> io::Result<bool>;
}

impl TryLock for File {
    fn is_locked_now(&self) -> io::Result<bool> {
        match self.try_lock() {
            Ok(()) => Ok(true),
            Err(TryLockError::WouldBlock) => Ok(false),
            Err(TryLockError::Error(error)) => Err(error),
        }
    }
}
