// A file of the system is read to its end, but not past a limit.
ghost use Rattle.std.specs.Prelude.{◌≡◌, ◌<◌, ◌≤◌, ◌+◌, ℕ, length, vec_len, IfOk, OnOk, IsErrOf};

use crate::trouble::{Refusal, Step};
use std::fs;
use std::io::{ErrorKind, Read};
use std::rt::Files;

// How many bytes of a file are asked for at a time.
const PIECE: usize = 65_536;

// Why a file was not read.
#[derive(Clone, Copy)]
pub(crate) enum Unread {
    Refused(Refusal),
    TooLong { seen: u64 },
    Missing,
}

// Puts the next bytes of a file behind those of `into`, and says how many came: none at the file's end.
fn read_piece<F: Read>(file: &mut F, into: &mut Vec<u8>) -> Result<usize, Refusal>
    ensures { IfOk result (λ n. vec_len into.new ≡ vec_len into.old + n) }
{
    let len = into.len();
    if into.resize(len + PIECE, 0).is_err() {
        return Err(Refusal::NoMemory);
    }
    match file.read(&mut into[len..]) {
        Ok(count) => {
            into.truncate(len + count);
            Ok(count)
        }
        Err(error) => Err(Refusal::System(Step::Read, error)),
    }
}

// Reads to the end, but not past the limit.
fn read_whole<F: Read>(file: &mut F, limit: usize, into: &mut Vec<u8>) -> Result<(), Unread>
    ensures within { OnOk result (length into.new.items ≤ limit) }
    ensures long { (seen : ℕ) → IsErrOf result (Unread.TooLong seen) → limit < seen }
{
    into.clear();
    'pieces: for _ in 0..u64::MAX {
        match read_piece(file, into) {
            Ok(0) => return Ok(()),
            Ok(_) => {}
            Err(refusal) => return Err(Unread::Refused(refusal)),
        }
        if into.len() > limit {
            return Err(Unread::TooLong {
                seen: into.len() as u64,
            });
        }
    }
    Err(Unread::Refused(Refusal::System(Step::Read, ErrorKind::FileTooLarge.into())))
}

// Opens the file of a name and reads it to the end, but not past the limit.
pub(crate) fn open_whole<R: Files>(
    rt: &R,
    name: &str,
    limit: usize,
    into: &mut Vec<u8>,
) -> Result<(), Unread>
    ensures within { OnOk result (length into.new.items ≤ limit) }
    ensures long { (seen : ℕ) → IsErrOf result (Unread.TooLong seen) → limit < seen }
{
    match fs::open(rt, name) {
        Ok(mut file) => read_whole(&mut file, limit, into),
        Err(error) if error.kind() == ErrorKind::NotFound => Err(Unread::Missing),
        Err(error) => Err(Unread::Refused(Refusal::System(Step::Open, error))),
    }
}
