// Pipes that were read. What a pipe gave it does not give again, so a second file from the same one would be a rest or nothing.
use crate::trouble::{Refusal, Step};
use std::fs;
use std::io::{Error, ErrorKind};
use std::os::unix::fs::{FileTypeExt, MetadataExt};
use std::rt::Files;

// A pipe, by the numbers of its device and of its place there.
#[derive(Clone, Copy, PartialEq, Eq)]
pub(crate) struct Pipe {
    device: u64,
    place: u64,
}

// The pipe that a name stands for; None where it stands for none.
fn pipe_of<R: Files>(rt: &R, name: &str) -> Option<Pipe> {
    let about = fs::metadata(rt, name).ok()?;
    if about.file_type().is_fifo() {
        Some(Pipe {
            device: about.dev(),
            place: about.ino(),
        })
    } else {
        None
    }
}

// Notes the pipe that a name stands for, if it does, and refuses one that is noted.
pub(crate) fn note_pipe<R: Files>(
    rt: &R,
    name: &str,
    pipes: &mut Vec<Pipe>,
) -> Result<(), Refusal> {
    let Some(pipe) = pipe_of(rt, name) else {
        return Ok(());
    };
    if pipes.contains(&pipe) {
        let error = Error::new(ErrorKind::InvalidInput, "it is a pipe, and was read before");
        return Err(Refusal::System(Step::Read, error));
    }
    match pipes.push(pipe) {
        Ok(()) => Ok(()),
        Err(_) => Err(Refusal::NoMemory),
    }
}
