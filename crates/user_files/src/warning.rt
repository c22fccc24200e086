// What may be amiss in a job that is done, a sentence each.
ghost use Rattle.std.specs.Prelude.{◌≤◌, length, IfSome};
ghost use Rattle.grid_base.specs.declared.TheConstants.{TEXT_MAX};

use crate::names::Names;
use crate::rounding::{lists_in, rounded};
use crate::stored_lists::stored_lists_in;
use crate::texts::Texts;
use grid_base::TEXT_MAX;
use mesh_base::MeshLists;
use outside_io::{Desk, Ending, FileDesk, SurfaceFacts, TryLock};
use refusal_sentences::{
    is_inside_out, log_end_warning, manifold_warning, prefix_warning, surface_facts,
};
use std::alloc::{AllocError, Global};
use std::fs;
use std::rt::Files;

// Adds a warning.
fn warn(alloc: Global, warning: &str, into: &mut Vec<String>) -> Result<(), AllocError> {
    into.push(String::from_str(alloc, warning)?)?;
    Ok(())
}

// The warnings that the surface of a mesh gives.
fn surface_warnings(
    alloc: Global,
    is_empty: bool,
    is_inside_out: bool,
    into: &mut Vec<String>,
) -> Result<(), AllocError> {
    if is_empty {
        warn(alloc, "the mesh is empty", into)?;
    }
    if is_inside_out {
        let said = "the surface is turned inside out: its volume is below zero";
        warn(alloc, said, into)?;
    }
    Ok(())
}

// The warnings that the end of the directives gives.
fn ending_warnings(
    alloc: Global,
    ending: Ending,
    into: &mut Vec<String>,
) -> Result<(), AllocError> {
    if ending.is_empty {
        warn(
            alloc,
            "there are no steps: mesh 0 is the mesh as it was read",
            into,
        )?;
    }
    if ending.is_unsaved {
        let unsaved = "what is done after the last `save` is stored in no mesh";
        warn(alloc, unsaved, into)?;
    }
    if ending.asks_in_vain {
        let vain = "shifts are requested after the last `step`, and nothing takes them";
        warn(alloc, vain, into)?;
    }
    Ok(())
}

// Whether the words ask for a log to be read.
fn reads_log(words: &[String]) -> bool {
    match words.first() {
        Some(first) => {
            let word = first.as_str();
            word == "measure" || word == "prove" || word == "verify" || word == "replay"
        }
        None => false,
    }
}

// Whether a file that was stored is one that gives its bytes back.
fn gives_back<R: Files>(rt: &R, name: &str) -> bool {
    match fs::metadata(rt, name) {
        Ok(about) => about.is_file() && about.len() <= TEXT_MAX as u64,
        Err(_) => false,
    }
}

// The bytes of a file that was stored, if it is one that gives them back.
fn stored_bytes<R: Files>(alloc: Global, rt: &R, name: &str) -> Option<Vec<u8>>
where
    R::File: TryLock,
    ensures { IfSome result (λ bytes. length bytes.items ≤ TEXT_MAX) }
{
    if !gives_back(rt, name) {
        return None;
    }
    let mut bytes = Vec::new(alloc);
    FileDesk::new(alloc, rt)
        .fetch(name, TEXT_MAX, &mut bytes)
        .ok()?;
    Some(bytes)
}

// The lists of the mesh that was stored last.
fn stored_lists<R: Files>(
    alloc: Global,
    names: Names<'_>,
    stored: &str,
    rt: &R,
) -> Option<MeshLists>
where
    R::File: TryLock,
{
    let bytes = stored_bytes(alloc, rt, stored)?;
    stored_lists_in(alloc, names.stored, bytes.as_slice(), names.decimals)
}

// What may be amiss in the mesh that was stored last: as the run told it, which had the mesh at hand, or as its file says.
fn stored_facts<R: Files>(
    alloc: Global,
    names: Names<'_>,
    stored: &str,
    told: Option<SurfaceFacts>,
    rt: &R,
) -> Result<Option<SurfaceFacts>, AllocError>
where
    R::File: TryLock,
{
    if told.is_some() && gives_back(rt, stored) {
        return Ok(told);
    }
    match stored_lists(alloc, names, stored, rt) {
        Some(lists) => Ok(Some(surface_facts(alloc, &lists)?)),
        None => Ok(None),
    }
}

// The warnings that the mesh which was stored last gives; where that is not to be had, those of the mesh that was read.
fn mesh_warnings<R: Files>(
    alloc: Global,
    names: Names<'_>,
    texts: &Texts,
    stored: Option<&str>,
    told: Option<SurfaceFacts>,
    rt: &R,
    into: &mut Vec<String>,
) -> Result<(), AllocError>
where
    R::File: TryLock,
{
    if let Some(stored) = stored {
        if let Some(facts) = stored_facts(alloc, names, stored, told, rt)? {
            surface_warnings(alloc, facts.is_empty, facts.is_inside_out, into)?;
            if let Some(warning) = manifold_warning(alloc, stored, &facts)? {
                into.push(warning)?;
            }
            return Ok(());
        }
    }
    let given = texts.first(names.mesh);
    match lists_in(alloc, names.format, given, names.decimals) {
        Some(lists) => {
            let is_empty = lists.points.len() == 0;
            surface_warnings(alloc, is_empty, is_inside_out(&lists), into)
        }
        None => Ok(()),
    }
}

// The warning that the prefix of the meshes gives.
fn name_warning<R: Files>(
    alloc: Global,
    prefix: &str,
    rt: &R,
) -> Result<Option<String>, AllocError> {
    let is_folder = match fs::metadata(rt, prefix) {
        Ok(about) => about.is_dir(),
        Err(_) => false,
    };
    prefix_warning(alloc, prefix, is_folder)
}

/// Says what may be amiss in a job that is done, from the texts that it read and the mesh that it stored last, each of which is read at most
/// once more, and from how its directives ended, if it has any to do. What that tells of the mesh is not read again.
pub fn warnings<R: Files>(
    alloc: Global,
    words: &[String],
    names: Option<Names<'_>>,
    texts: &Texts,
    stored: Option<&str>,
    ending: Option<Ending>,
    rt: &R,
) -> Result<Vec<String>, AllocError>
where
    R::File: TryLock,
{
    let mut said = Vec::new(alloc);
    let Some(names) = names else {
        return Ok(said);
    };
    let given = texts.first(names.mesh);
    if let Some(warning) = rounded(alloc, names.format, given, names.decimals)? {
        said.push(warning)?;
    }
    let told = match ending {
        Some(ending) => ending.surface,
        None => None,
    };
    mesh_warnings(alloc, names, texts, stored, told, rt, &mut said)?;
    if let Some(ending) = ending {
        ending_warnings(alloc, ending, &mut said)?;
    }
    if reads_log(words) {
        let log = texts.last(names.other);
        if let Some(warning) = log_end_warning(alloc, names.other, log)? {
            said.push(warning)?;
        }
    }
    if let Some(prefix) = names.prefix {
        if let Some(warning) = name_warning(alloc, prefix, rt)? {
            said.push(warning)?;
        }
    }
    Ok(said)
}
