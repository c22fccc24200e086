// What the system refused, so that a program can say why.
use std::alloc::AllocError;
use std::io;
use std::io::ErrorKind;

/// What the system was asked to do with a file when it failed.
#[derive(Clone, Copy, Debug, PartialEq, Eq)]
pub enum Step {
    /// Open a file to read it.
    Open,
    /// Read the bytes of a file.
    Read,
    /// Look at what stands under the name of a file that is to be stored.
    Look,
    /// Create a new file beside the one that is to be stored.
    Create,
    /// Write the bytes.
    Write,
    /// Put the new file in the place of the old one.
    Rename,
}

/// A call of the system that failed: what it was to do, with the file of which name, and the system's error.
#[derive(Drop)]
pub struct Trouble {
    /// The name of the file that was to be fetched or stored.
    pub name: String,
    /// What the system was asked to do.
    pub step: Step,
    /// The error that it gave.
    pub error: io::Error,
}

// Why a call that works with files failed: for want of memory, or at a step of the system.
#[derive(Clone, Copy)]
pub(crate) enum Refusal {
    NoMemory,
    System(Step, io::Error),
}

impl From<AllocError> for Refusal {
    fn from(_error: AllocError) -> Refusal {
        Refusal::NoMemory
    }
}

// The system's error at a step; want of memory stays that.
pub(crate) fn refused(step: Step, error: io::Error) -> Refusal {
    match error.kind() {
        ErrorKind::OutOfMemory => Refusal::NoMemory,
        _ => Refusal::System(step, error),
    }
}
