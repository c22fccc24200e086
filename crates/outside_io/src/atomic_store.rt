// A file of the system is stored whole or not at all: it is written beside the one of its name, and then put in its place.
use crate::beside::{create_beside, sweep};
use crate::limits::file_size_limit;
use crate::locks::TryLock;
use crate::trouble::{Refusal, Step, refused};
use std::alloc::Global;
use std::fs;
use std::fs::{OpenFile, OpenOptions, Permissions};
use std::io::{Error, ErrorKind, Write};
use std::os::unix::fs::FileTypeExt;
use std::rt::Files;

// Writes all of the bytes.
fn write_whole<F: Write>(file: &mut F, bytes: &[u8]) -> Result<(), Refusal> {
    let mut done = 0;
    while done < bytes.len() {
        match file.write(&bytes[done..]) {
            Ok(count) if count > 0 => done += count,
            Ok(_) => return Err(Refusal::System(Step::Write, ErrorKind::WriteZero.into())),
            Err(error) => return Err(Refusal::System(Step::Write, error)),
        }
    }
    Ok(())
}

// Fills a new file, gives it the permissions of the one whose place it will take, and sees that the system has it.
fn fill<F: Write + OpenFile>(
    file: &mut F,
    bytes: &[u8],
    permissions: Option<Permissions>,
) -> Result<(), Refusal> {
    write_whole(file, bytes)?;
    if let Some(permissions) = permissions {
        if let Err(error) = file.set_permissions(permissions) {
            return Err(refused(Step::Write, error));
        }
    }
    file.sync_all().map_err(|error| refused(Step::Write, error))
}

// Refuses a file that is longer than the system lets this run write: it would end it by a signal.
fn check_length<R: Files>(alloc: Global, rt: &R, bytes: &[u8]) -> Result<(), Refusal> {
    match file_size_limit(alloc, rt) {
        Some(limit) if bytes.len() as u64 > limit => {
            Err(Refusal::System(Step::Write, ErrorKind::FileTooLarge.into()))
        }
        _ => Ok(()),
    }
}

// Writes a file beside the one of a name and puts it in its place. Where that fails, it takes its own file away again. What dead runs
// left of stores under this name goes first.
fn replace<R: Files>(
    alloc: Global,
    rt: &R,
    name: &str,
    permissions: Option<Permissions>,
    bytes: &[u8],
) -> Result<(), Refusal>
where
    R::File: TryLock,
{
    check_length(alloc, rt, bytes)?;
    sweep(alloc, rt, name)?;
    let mut beside = create_beside(alloc, rt, name)?;
    let mut result = fill(&mut beside.file, bytes, permissions);
    if result.is_ok() {
        result = fs::rename(rt, beside.name.as_str(), name).map_err(|error| refused(
            Step::Rename,
            error,
        ));
    }
    if result.is_err() {
        let _ = fs::remove_file(rt, beside.name.as_str());
    }
    result
}

// Stores over what stands under a name and is open: a file is replaced, where the name leads to by links too; what is no
// file, as a device, is written to.
fn store_over<R: Files>(
    alloc: Global,
    rt: &R,
    name: &str,
    mut old: R::File,
    bytes: &[u8],
) -> Result<(), Refusal>
where
    R::File: TryLock,
{
    let about = old.metadata().map_err(|error| refused(Step::Look, error))?;
    if !about.is_file() {
        return write_whole(&mut old, bytes);
    }
    let path = rt
        .canonicalize(alloc, name)
        .map_err(|error| refused(Step::Look, error))?;
    let path = path.into_string();
    replace(alloc, rt, path.as_str(), Some(about.permissions()), bytes)
}

// Whether a name stands for a pipe. To open one would wait until somebody reads it.
fn is_pipe<R: Files>(rt: &R, name: &str) -> bool {
    match fs::metadata(rt, name) {
        Ok(about) => about.file_type().is_fifo(),
        Err(_) => false,
    }
}

// Stores a file under a name, whole or not at all. A file that may not be written is not replaced, and a pipe is not written to.
pub(crate) fn store_whole<R: Files>(
    alloc: Global,
    rt: &R,
    name: &str,
    bytes: &[u8],
) -> Result<(), Refusal>
where
    R::File: TryLock,
{
    if is_pipe(rt, name) {
        let error = Error::new(ErrorKind::InvalidInput, "it is a pipe");
        return Err(Refusal::System(Step::Look, error));
    }
    match OpenOptions::new().write(true).open(rt, name) {
        Ok(old) => store_over(alloc, rt, name, old, bytes),
        Err(error) if error.kind() == ErrorKind::NotFound => replace(alloc, rt, name, None, bytes),
        Err(error) => Err(refused(Step::Look, error)),
    }
}
