//! The texts that a run has read, kept so that what is said of them is said of what was read: a pipe gives nothing twice, and a file may
//! be another by then. A large text of a file is put away, and read again where it is wanted and the file is the same still.
ghost use Rattle.std.specs.Prelude.{◌≤◌, length, IfSome};
ghost use Rattle.grid_base.specs.declared.TheConstants.{TEXT_MAX};

use grid_base::TEXT_MAX;
use std::alloc::{AllocError, Global};
use std::fs;
use std::io::Read;
use std::rt::Files;
use std::time::SystemTime;

// A text of at most so many bytes stays where it is.
const SMALL: usize = 1_048_576;

// By what a file is known again: how long it is, and when it was changed last.
#[derive(Clone, Copy, PartialEq, Eq)]
struct Mark {
    len: u64,
    changed: SystemTime,
}

/// A text that was read: the name under which it was, where that leads to, if that can be told, and its bytes. Those of a file that has a
/// mark may be put away.
#[derive(Drop)]
pub(crate) struct Text {
    pub(crate) name: String,
    pub(crate) path: Option<String>,
    pub(crate) bytes: Vec<u8>,
    mark: Option<Mark>,
    is_away: bool,
    ghost small: { length bytes.items ≤ TEXT_MAX },
}

// The mark of a file, if it can be had.
fn mark_of<R: Files>(rt: &R, path: &str) -> Option<Mark> {
    let about = fs::metadata(rt, path).ok()?;
    let changed = about.modified().ok()?;
    Some(Mark {
        len: about.len(),
        changed,
    })
}

// The mark of a text that can be put away: a large one, of a file that has as many bytes.
fn mark_of_large<R: Files>(rt: &R, path: &Option<String>, bytes: &[u8]) -> Option<Mark> {
    if bytes.len() <= SMALL {
        return None;
    }
    match path {
        Some(path) => mark_of(rt, path.as_str()).filter(|mark| mark.len == bytes.len() as u64),
        None => None,
    }
}

// The text that a path has now.
fn text_at<R: Files>(alloc: Global, rt: &R, path: &str, len: usize) -> Option<Vec<u8>>
    ensures { IfSome result (λ bytes. length bytes.items ≤ TEXT_MAX) }
{
    let mut bytes = Vec::new(alloc);
    bytes.reserve_exact(len.saturating_add(1)).ok()?;
    let mut file = fs::open(rt, path).ok()?;
    file.read_to_end(&mut bytes).ok()?;
    if bytes.len() > TEXT_MAX {
        return None;
    }
    Some(bytes)
}

impl Text {
    // Puts its bytes away, where they can be had again.
    fn put_away(&mut self, alloc: Global) {
        if self.mark.is_some() {
            self.bytes = Vec::new(alloc);
            self.is_away = true;
        }
    }

    // What its path has now, where its bytes are put away; only if that is the same still, where that is asked.
    fn again<R: Files>(&self, alloc: Global, rt: &R, is_same: bool) -> Option<Vec<u8>>
        ensures { IfSome result (λ bytes. length bytes.items ≤ TEXT_MAX) }
    {
        let Some(path) = &self.path else {
            return None;
        };
        let mark = self.mark?;
        if is_same && mark_of(rt, path.as_str()) != Some(mark) {
            return None;
        }
        text_at(alloc, rt, path.as_str(), mark.len as usize)
    }

    // Has its bytes again, if they can be had.
    fn recall<R: Files>(&mut self, alloc: Global, rt: &R, is_same: bool) -> bool {
        if !self.is_away {
            return true;
        }
        match self.again(alloc, rt, is_same) {
            Some(bytes) => {
                self.bytes = bytes;
                self.is_away = false;
                true
            }
            None => false,
        }
    }

    // Whether it was read from a path.
    fn is_from(&self, path: &str) -> bool {
        match &self.path {
            Some(from) => from.as_str() == path,
            None => false,
        }
    }
}

/// The texts that were read, in this order.
#[derive(Drop)]
pub struct Texts {
    all: Vec<Text>,
}

impl Texts {
    /// None.
    pub(crate) fn new(alloc: Global) -> Texts {
        Texts {
            all: Vec::new(alloc),
        }
    }

    /// Keeps a text, or where it can be had again. One that is longer than a text may be is not kept.
    pub(crate) fn keep<R: Files>(
        &mut self,
        alloc: Global,
        rt: &R,
        name: &str,
        path: Option<String>,
        bytes: &[u8],
    ) -> Result<(), AllocError> {
        if bytes.len() > TEXT_MAX {
            return Ok(());
        }
        let name = String::from_str(alloc, name)?;
        let mark = mark_of_large(rt, &path, bytes);
        let is_away = mark.is_some();
        let bytes = if is_away {
            Vec::new(alloc)
        } else {
            Vec::from_slice(alloc, bytes)?
        };
        self.all.push(Text {
            name,
            path,
            bytes,
            mark,
            is_away,
        })?;
        Ok(())
    }

    /// Has all again that was put away, where its file is the same still; the others are empty.
    pub fn recall<R: Files>(&mut self, alloc: Global, rt: &R) {
        for text in self.all.as_mut_slice() {
            text.recall(alloc, rt, true);
        }
    }

    /// Puts away what can be had again.
    pub(crate) fn put_away(&mut self, alloc: Global) {
        for text in self.all.as_mut_slice() {
            text.put_away(alloc);
        }
    }

    /// Has the texts of a path again, as it is now, before it becomes another, and says whether they can be had.
    pub(crate) fn recall_from<R: Files>(&mut self, alloc: Global, rt: &R, path: &str) -> bool {
        let mut is_had = true;
        for text in self.all.as_mut_slice() {
            if text.is_from(path) {
                is_had = text.recall(alloc, rt, false) && is_had;
            }
        }
        is_had
    }

    /// The first text that was read under a name; an empty one where there is none.
    pub fn first(&self, name: &str) -> &[u8]
        ensures { length result.now ≤ TEXT_MAX }
    {
        for text in self.all.as_slice() {
            if text.name.as_str() == name {
                return text.bytes.as_slice();
            }
        }
        &[]
    }

    /// The last text that was read under a name; an empty one where there is none.
    pub fn last(&self, name: &str) -> &[u8]
        ensures { length result.now ≤ TEXT_MAX }
    {
        for text in self.all.as_slice().iter().rev() {
            if text.name.as_str() == name {
                return text.bytes.as_slice();
            }
        }
        &[]
    }

    /// The text that was read from a path.
    pub(crate) fn from_path(&self, path: &str) -> Option<&Text> {
        for text in self.all.as_slice() {
            if text.is_from(path) {
                return Some(text);
            }
        }
        None
    }

    /// Forgets from which path a text was read, once another has its place.
    pub(crate) fn leave(&mut self, path: &str) {
        for text in self.all.as_mut_slice() {
            if text.is_from(path) {
                text.path = None;
                text.mark = None;
            }
        }
    }
}
