//! What is told of the parts of a run that may take long, where somebody watches.
use crate::life_line::LifeLine;
use crate::names::{Names, Work};
use line_text::{Parts, words};
use std::alloc::{AllocError, Global};
use std::fs;
use std::rt::{Clock, Files};
use track_input::Format;

// A text of fewer bytes is read, tested and stored before anybody waits.
pub(crate) const LONG: usize = 65_536;

// The fewest cubes along an edge of which a job is told.
const MANY_CUBES: u8 = 4;

// How many lines of a text have this as their first word.
pub(crate) fn lines_of(first: &[u8], text: &[u8]) -> u64 {
    let mut count: u64 = 0;
    for line in Parts::new(b'\n', text) {
        if words(line).next() == Some(first) {
            count = count.saturating_add(1);
        }
    }
    count
}

// How many lines of a text have ended.
pub(crate) fn ended_lines(text: &[u8]) -> u64 {
    let mut count: u64 = 0;
    for byte in text {
        if *byte == b'\n' {
            count = count.saturating_add(1);
        }
    }
    count
}

// How large a mesh is, as far as its text tells it at a glance.
fn size_of(alloc: Global, format: Format, text: &[u8]) -> Result<String, AllocError> {
    match format {
        Format::Obj => {
            let faces = lines_of(b"f", text);
            format!(in alloc; "{faces} faces")
        }
        Format::Off | Format::Ply => {
            let lines = ended_lines(text);
            format!(in alloc; "{lines} lines")
        }
    }
}

// That a file is read.
pub(crate) fn reading(alloc: Global, name: &str) -> Result<String, AllocError> {
    format!(in alloc; "reading {name}")
}

// That a file is stored.
pub(crate) fn storing(alloc: Global, name: &str) -> Result<String, AllocError> {
    format!(in alloc; "storing {name}")
}

// What is done with the mesh, once all is read.
pub(crate) fn working(alloc: Global, names: Names<'_>, mesh: &[u8]) -> Result<String, AllocError> {
    let size = size_of(alloc, names.format, mesh)?;
    let name = names.mesh;
    match names.work {
        Work::Steps | Work::Log => format!(in alloc; "testing {size} of {name} at rest"),
        Work::Convert => format!(in alloc; "converting {size} of {name}"),
        Work::Check => format!(in alloc; "looking for what is wrong with {size} of {name}"),
    }
}

// That the lines of the steps or of the log are read.
pub(crate) fn taking(alloc: Global, name: &str, text: &[u8]) -> Result<String, AllocError> {
    let lines = ended_lines(text);
    format!(in alloc; "reading {lines} lines of {name}")
}

// Whether it may take long to read what has a name: it is a long file, or none, as a pipe is.
pub(crate) fn is_long<R: Files>(rt: &R, name: &str) -> bool {
    match fs::metadata(rt, name) {
        Ok(about) => !about.is_file() || about.len() >= LONG as u64,
        Err(_) => false,
    }
}

/// Tells that a job of so many cubes along an edge is made and run, where these are many.
pub fn tell_cubes<R: Eprint + Clock>(alloc: Global, life: &LifeLine<'_, R>, cubes: u8) {
    if cubes >= MANY_CUBES {
        life.tell(format!(in alloc; "a job of {cubes} * {cubes} * {cubes} cubes is made and run"));
    }
}
