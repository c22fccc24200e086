// The files in which a store is made, beside the one that is stored.
//
// Their names are `.topo-HASH-N.part` in the same folder, where HASH is one of the stored file's own name: however long that is, these are
// short. Each is locked while its run lives, so a later run knows one that was left, and takes it away.
use crate::locks::TryLock;
use crate::trouble::{Refusal, Step, refused};
use std::alloc::{AllocError, Global};
use std::fs;
use std::fs::{OpenFile, OpenOptions};
use std::io::ErrorKind;
use std::os::unix::fs::MetadataExt;
use std::rt::Files;

// How many names are tried, and how many are looked at for what dead runs left.
const TRIES: u32 = 1_000;

const SWEPT: u32 = 8;

// A new file, open to be written, and its name.
#[derive(Drop)]
pub(crate) struct NewFile<F> {
    pub(crate) name: String,
    pub(crate) file: F,
}

// The hash of a name, by the rule FNV-1a of 64 bits.
fn hash_of(name: &str) -> u64 {
    let mut hash: u64 = 0xcbf2_9ce4_8422_2325;
    for byte in name.as_bytes() {
        hash = (hash ^ u64::from(*byte)).wrapping_mul(0x0000_0100_0000_01b3);
    }
    hash
}

// The name of the file of a number in which a file is made.
fn name_beside(alloc: Global, name: &str, number: u32) -> Result<String, AllocError> {
    match name.rsplit_once('/') {
        Some((folder, last)) => {
            let hash = hash_of(last);
            format!(in alloc; "{folder}/.topo-{hash:016x}-{number}.part")
        }
        None => {
            let hash = hash_of(name);
            format!(in alloc; ".topo-{hash:016x}-{number}.part")
        }
    }
}

// Whether a name stands for this very file, and not for another or a link.
fn leads_to<R: Files>(rt: &R, name: &str, file: &R::File) -> bool {
    match (fs::symlink_metadata(rt, name), file.metadata()) {
        (Ok(found), Ok(about)) => found.dev() == about.dev() && found.ino() == about.ino(),
        _ => false,
    }
}

// Whether a new file is this run's: another run took it for one that was left, where it has locked it or taken it away.
fn is_kept<R: Files>(rt: &R, name: &str, file: &R::File) -> bool
where
    R::File: TryLock,
{
    match file.is_locked_now() {
        Ok(is_locked) => is_locked && leads_to(rt, name, file),
        Err(_) => true,
    }
}

// Takes away a file that a dead run left under a name of this kind; what is no file, or is locked, stays.
fn take_away<R: Files>(rt: &R, name: &str)
where
    R::File: TryLock,
{
    match fs::symlink_metadata(rt, name) {
        Ok(about) if about.is_file() => {}
        _ => return,
    }
    if let Ok(file) = OpenOptions::new().write(true).open(rt, name) {
        if let Ok(true) = file.is_locked_now() {
            if leads_to(rt, name, &file) {
                let _ = fs::remove_file(rt, name);
            }
        }
    }
}

// Takes away what dead runs left of stores under a name.
pub(crate) fn sweep<R: Files>(alloc: Global, rt: &R, name: &str) -> Result<(), AllocError>
where
    R::File: TryLock,
{
    for number in 0..SWEPT {
        let beside = name_beside(alloc, name, number)?;
        take_away(rt, beside.as_str());
    }
    Ok(())
}

// Creates a file beside the one of a name, under a name that no file has, and locks it.
pub(crate) fn create_beside<R: Files>(
    alloc: Global,
    rt: &R,
    name: &str,
) -> Result<NewFile<R::File>, Refusal>
where
    R::File: TryLock,
{
    for number in 0..TRIES {
        let beside = name_beside(alloc, name, number)?;
        match OpenOptions::new()
            .write(true)
            .create_new(true)
            .open(rt, beside.as_str())
        {
            Ok(file) => {
                if is_kept(rt, beside.as_str(), &file) {
                    return Ok(NewFile { name: beside, file });
                }
            }
            Err(error) if error.kind() == ErrorKind::AlreadyExists => {}
            Err(error) => return Err(refused(Step::Create, error)),
        }
    }
    Err(Refusal::System(Step::Create, ErrorKind::AlreadyExists.into()))
}
