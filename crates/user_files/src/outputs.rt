//! Whether standard output goes to a file that the command reads, or to one in whose place it may store another.
use crate::names::{Names, Work};
use refusal_sentences::{output_read_reason, output_stored_reason};
use std::alloc::{AllocError, Global};
use std::fs;
use std::fs::read_dir;
use std::os::unix::fs::MetadataExt;
use std::rt::Files;

// What the system calls the file to which standard output goes.
const OUTPUT: &str = "/proc/self/fd/1";

// How many digits the number of a mesh has at least.
const DIGITS: usize = 6;

// A file of the system, by the numbers of its device and of its place there.
#[derive(Clone, Copy, PartialEq, Eq)]
struct Place {
    device: u64,
    place: u64,
}

// The place of a file that a name leads to, by whatever links; None where it leads to none, as to a pipe or a device.
fn place_of<R: Files>(rt: &R, name: &str) -> Option<Place> {
    let about = fs::metadata(rt, name).ok()?;
    if !about.is_file() {
        return None;
    }
    Some(Place {
        device: about.dev(),
        place: about.ino(),
    })
}

// Whether a name leads to a file.
fn leads_to<R: Files>(rt: &R, name: &str, file: Place) -> bool {
    place_of(rt, name) == Some(file)
}

// The folder in which the meshes of a prefix are stored, and what stands in front of the dash of their names there.
fn folder_of(prefix: &str) -> (&str, &str) {
    match prefix.rsplit_once('/') {
        Some(("", front)) => ("/", front),
        Some((folder, front)) => (folder, front),
        None => (".", prefix),
    }
}

// Whether a name in the folder is that of a mesh, with this in front of its dash.
fn is_mesh_name(front: &str, name: &str) -> bool {
    let Some(rest) = name.strip_prefix(front) else {
        return false;
    };
    let Some(rest) = rest.strip_prefix('-') else {
        return false;
    };
    let Some(number) = rest.strip_suffix(".obj") else {
        return false;
    };
    number.len() >= DIGITS && number.as_bytes().iter().all(|digit| digit.is_ascii_digit())
}

// The name of a mesh of a prefix that leads to a file. What cannot be listed is not looked at.
fn mesh_at<R: Files + Alloc + Clone + Drop>(
    alloc: Global,
    rt: &R,
    prefix: &str,
    file: Place,
) -> Result<Option<String>, AllocError> {
    let (folder, front) = folder_of(prefix);
    let ahead = prefix.strip_suffix(front).unwrap_or("");
    let Ok(entries) = read_dir(rt, folder) else {
        return Ok(None);
    };
    for entry in entries {
        if let Ok(entry) = entry {
            let name = entry.file_name();
            if is_mesh_name(front, name) && leads_to(rt, entry.path().as_str(), file) {
                return Ok(Some(format!(in alloc; "{ahead}{name}")?));
            }
        }
    }
    Ok(None)
}

// Says that standard output goes to a file that the command reads, if it does.
fn read_reason<R: Files>(
    alloc: Global,
    rt: &R,
    names: Names<'_>,
    file: Place,
) -> Result<Option<String>, AllocError> {
    for name in [names.mesh, names.other, names.proof] {
        if leads_to(rt, name, file) {
            return Ok(Some(output_read_reason(alloc, name)?));
        }
    }
    Ok(None)
}

// Says that standard output goes to a file in whose place the command may store another, if it does.
fn stored_reason<R: Files + Alloc + Clone + Drop>(
    alloc: Global,
    rt: &R,
    names: Names<'_>,
    file: Place,
) -> Result<Option<String>, AllocError> {
    if let Some(to) = names.to {
        if leads_to(rt, to, file) {
            return Ok(Some(output_stored_reason(alloc, to)?));
        }
    }
    let Some(prefix) = names.prefix else {
        return Ok(None);
    };
    match mesh_at(alloc, rt, prefix, file)? {
        Some(mesh) => Ok(Some(output_stored_reason(alloc, mesh.as_str())?)),
        None => Ok(None),
    }
}

// Says that standard output goes to the card.
fn card_reason(alloc: Global, names: Names<'_>, card: &str) -> Result<String, AllocError> {
    match names.work {
        Work::Steps => output_stored_reason(alloc, card),
        _ => output_read_reason(alloc, card),
    }
}

/// Says why a command of these names and of this card, if it has one, may not be run with standard output where it goes: to a file that the
/// command reads, or to one of a name that it may store, the number of a mesh being any; None where it may.
pub fn output_reason_of<R: Files + Alloc + Clone + Drop>(
    alloc: Global,
    rt: &R,
    names: Names<'_>,
    card: Option<&str>,
) -> Result<Option<String>, AllocError> {
    let Some(file) = place_of(rt, OUTPUT) else {
        return Ok(None);
    };
    if let Some(card) = card {
        if leads_to(rt, card, file) {
            return Ok(Some(card_reason(alloc, names, card)?));
        }
    }
    if let Some(reason) = read_reason(alloc, rt, names, file)? {
        return Ok(Some(reason));
    }
    stored_reason(alloc, rt, names, file)
}
