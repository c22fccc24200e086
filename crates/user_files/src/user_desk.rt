//! The desk of a user: another desk, of which it keeps what was read, and of which it overwrites nothing that was read without a word.
ghost use Rattle.std.specs.Prelude.{◌≡◌, ◌≤◌, ◌<◌, ◌^◌, ◌-◌, ℕ, [], length, OnOk, OnErr, IsErrOf};
ghost use Rattle.outside_io.specs.Causes.{Rose};
ghost use Rattle.outside_io.specs.Desk.{with_file, SameBut, HoldsFile, HoldsNoFile, HoldsAtLeast};
ghost use Rattle.user_files.specs.UserDesk.{faults_of_both};
ghost use Rattle.std.proofs.Common.{arith};

use crate::exact_desk::ExactDesk;
use crate::life_line::LifeLine;
use crate::names::{Names, Work};
use crate::progress_lines::{
    LONG, ended_lines, is_long, lines_of, reading, storing, taking, working,
};
use crate::rounding::rounded;
use crate::texts::{Text, Texts};
use outside_io::{Desk, FetchFault, FileDesk, StoreFault};
use refusal_sentences::{overwriting_warning, plain};
use std::alloc::{AllocError, Global};
use std::fs;
use std::io::ErrorKind;
use std::rt::{Clock, Files};

/// A desk, as of the files of the system, and a second one, on which is put what would be lost. Before a store takes the place of a text
/// that was read, the text is kept on the second desk under another name, unless what is stored is the same, byte for byte; and once it is
/// stored that is told on standard error. Where the store fails the text has its place still, and what was kept is taken away again.
#[derive(Drop)]
pub struct UserDesk<'a, 'l, 'w, R: Files, D, S> {
    alloc: Global,
    rt: &'a R,
    names: Option<Names<'w>>,
    life: &'l LifeLine<'a, R>,
    pub files: D,
    pub spared: S,
    pub texts: Texts,
    pub stored: Option<String>,
}

/// The desk of the program: what would be lost goes to the files of the system too.
pub type SystemDesk<'a, 'l, 'w, R> = UserDesk<'a, 'l, 'w, R, FileDesk<'a, R>, FileDesk<'a, R>>;

// Where a name leads to, if that is a file.
fn path_of<R: Files>(alloc: Global, rt: &R, name: &str) -> Option<String> {
    match fs::metadata(rt, name) {
        Ok(about) if about.is_file() => {}
        _ => return None,
    }
    let path = rt.canonicalize(alloc, name).ok()?;
    Some(path.into_string())
}

// A name that no file has: that of another with an ending.
fn free_name<R: Files>(alloc: Global, rt: &R, name: &str) -> Result<String, AllocError> {
    let mut free = format!(in alloc; "{name}.before")?;
    for number in 2..u32::MAX {
        if fs::symlink_metadata(rt, free.as_str()).is_err() {
            return Ok(free);
        }
        free = format!(in alloc; "{name}.before-{number}")?;
    }
    Ok(free)
}

// What is done with a text before a store takes its place: under which name it is kept, if it is, and what is told behind the store.
#[derive(Drop)]
struct Spared {
    kept: Option<String>,
    warning: String,
}

// What a store takes of a text: nothing, where it stores the same bytes; coordinates that are rounded, in this sentence, and what else the
// text had, such as comments; or what cannot be told, as of steps or of colours.
#[derive(Drop)]
enum Loss {
    Nothing,
    Rounded(String),
    Other,
}

// The loss of a text by a store of these bytes.
fn loss_of(
    alloc: Global,
    names: Option<Names<'_>>,
    text: &Text,
    bytes: &[u8],
) -> Result<Loss, AllocError> {
    if text.bytes.as_slice() == bytes {
        return Ok(Loss::Nothing);
    }
    match names {
        Some(names) if names.mesh == text.name.as_str() => {
            match rounded(alloc, names.format, text.bytes.as_slice(), names.decimals)? {
                Some(said) => Ok(Loss::Rounded(said)),
                None => Ok(Loss::Other),
            }
        }
        _ => Ok(Loss::Other),
    }
}

// What is done with a text before a store takes its place.
fn plan_for<R: Files>(
    alloc: Global,
    rt: &R,
    names: Option<Names<'_>>,
    text: &Text,
    name: &str,
    bytes: &[u8],
) -> Result<Spared, AllocError> {
    let loss = loss_of(alloc, names, text, bytes)?;
    if let Loss::Nothing = loss {
        let warning = overwriting_warning(alloc, name, None, None)?;
        return Ok(Spared {
            kept: None,
            warning,
        });
    }
    let kept = free_name(alloc, rt, name)?;
    let lost = match &loss {
        Loss::Rounded(said) => Some(said.as_str()),
        _ => None,
    };
    let warning = overwriting_warning(alloc, name, Some(kept.as_str()), lost)?;
    Ok(Spared {
        kept: Some(kept),
        warning,
    })
}

impl<'a, 'l, 'w, R: Files + Eprint + Clock, D: ExactDesk, S: ExactDesk> UserDesk<
    'a,
    'l,
    'w,
    R,
    D,
    S,
> {
    /// These files, and this desk for what would be lost, for a command of these names. What may take long is told on the line of the run,
    /// which is wiped before anything else is told.
    pub fn new(
        alloc: Global,
        rt: &'a R,
        names: Option<Names<'w>>,
        life: &'l LifeLine<'a, R>,
        files: D,
        spared: S,
    ) -> Self
        ensures files { result.files ≡ files }
        ensures spared { result.spared ≡ spared }
    {
        UserDesk {
            alloc,
            rt,
            names,
            life,
            files,
            spared,
            texts: Texts::new(alloc),
            stored: None,
        }
    }

    // Keeps a text that was read. Where there is no memory for it, less is said of it later.
    fn keep(&mut self, name: &str, bytes: &[u8])
        ensures files { self.new.files ≡ self.old.files }
        ensures spared { self.new.spared ≡ self.old.spared }
    {
        let path = path_of(self.alloc, self.rt, name);
        let _ = self.texts.keep(self.alloc, self.rt, name, path, bytes);
    }

    // Tells that a file is read, where that may take long.
    fn tell_fetch(&self, name: &str) {
        if self.life.is_watched() && is_long(self.rt, name) {
            self.life.tell(reading(self.alloc, name));
        }
    }

    // Tells what is done once the last file is read, where that may take long.
    fn tell_fetched(&mut self, name: &str)
        ensures files { self.new.files ≡ self.old.files }
        ensures spared { self.new.spared ≡ self.old.spared }
    {
        let Some(names) = self.names else {
            return;
        };
        if !self.life.is_watched() || name != names.proof {
            return;
        }
        self.texts.recall(self.alloc, self.rt);
        self.tell_work(names);
        self.texts.put_away(self.alloc);
    }

    // Tells what is done with the texts that were read, and notes how far it has to come.
    fn tell_work(&self, names: Names<'_>) {
        let (mesh, other) = (self.texts.first(names.mesh), self.texts.last(names.other));
        match names.work {
            Work::Steps => self.life.steps.set(lines_of(b"step", other)),
            Work::Log => self.life.lines.set(ended_lines(other)),
            Work::Convert | Work::Check => {}
        }
        if mesh.len() >= LONG {
            self.life.tell(working(self.alloc, names, mesh));
        } else if other.len() >= LONG {
            self.life.tell(taking(self.alloc, names.other, other));
        }
    }

    // Tells that a file is stored, where that may take long.
    fn tell_store(&self, name: &str, bytes: &[u8]) {
        if bytes.len() >= LONG {
            self.life.tell(storing(self.alloc, name));
        }
    }

    // Sees that a text that was read and has this name now is not lost by a store of these bytes: it is kept unless they are its own. Says
    // what was done, where there is such a text.
    fn spare(&mut self, name: &str, bytes: &[u8]) -> Result<Option<Spared>, StoreFault>
        ensures files { self.new.files ≡ self.old.files }
        ensures later { S.faults self.old.spared ≤ S.faults self.new.spared }
        ensures failed { IsErrOf result StoreFault.Failed →
            Rose (S.faults self.old.spared) (S.faults self.new.spared) }
        ensures none { ¬ IsErrOf result StoreFault.Failed →
            S.faults self.new.spared ≡ S.faults self.old.spared }
    {
        let Some(path) = path_of(self.alloc, self.rt, name) else {
            return Ok(None);
        };
        if !self.texts.recall_from(self.alloc, self.rt, path.as_str()) {
            return Err(StoreFault::NoMemory);
        }
        let Some(text) = self.texts.from_path(path.as_str()) else {
            return Ok(None);
        };
        match plan_for(self.alloc, self.rt, self.names, text, name, bytes) {
            Err(_) => Err(StoreFault::NoMemory),
            Ok(plan) => {
                if let Some(kept) = &plan.kept {
                    self.spared
                        .store_exactly(kept.as_str(), text.bytes.as_slice())?;
                }
                Ok(Some(plan))
            }
        }
    }

    // Tells that a text that was read is overwritten.
    fn tell_spared(&self, spared: &Option<Spared>) {
        if let Some(spared) = spared {
            self.life.wipe();
            if let Ok(warning) = plain(self.alloc, spared.warning.as_str()) {
                let _ = eprintln!(self.rt; "topo: warning: {warning}");
            }
        }
    }

    // Takes away what was kept of a text that has its place still.
    fn take_back(&self, spared: &Option<Spared>) {
        if let Some(
            Spared {
                kept: Some(kept),
                ..
            },
        ) = spared
        {
            let _ = fs::remove_file(self.rt, kept.as_str());
        }
    }

    // Notes that a name has a mesh now, and no text that was read any more.
    fn note(&mut self, name: &str)
        ensures files { self.new.files ≡ self.old.files }
        ensures spared { self.new.spared ≡ self.old.spared }
    {
        if let Some(path) = path_of(self.alloc, self.rt, name) {
            self.texts.leave(path.as_str());
        }
        self.stored = String::from_str(self.alloc, name).ok();
    }
}

impl<'a, 'l, 'w, R: Files + Eprint + Clock, D: ExactDesk, S: ExactDesk> Desk
    for UserDesk<'a, 'l, 'w, R, D, S> {
    ghost files = { λ desk. D.files desk.files };

    ghost faults = { λ desk. faults_of_both (D.faults desk.files) (S.faults desk.spared) };

    /// Fetches a file of the first desk, and keeps what it held.
    fn fetch(&mut self, name: &str, limit: usize, into: &mut Vec<u8>) -> Result<(), FetchFault>
        ensures found { OnOk result (HoldsFile (D.files self.old.files) name.now into.new.items) }
        ensures within { OnOk result (length into.new.items ≤ limit) }
        ensures refused { OnErr result (into.new.items ≡ []) }
        ensures kept { D.files self.new.files ≡ D.files self.old.files }
        ensures long { (seen : ℕ) → IsErrOf result (FetchFault.TooLong seen) → limit < seen }
        ensures seen { (seen : ℕ) → IsErrOf result (FetchFault.TooLong seen) →
            HoldsAtLeast (D.files self.old.files) name.now seen }
        ensures missing { IsErrOf result FetchFault.Missing →
            HoldsNoFile (D.files self.old.files) name.now }
        ensures calm { IsErrOf result FetchFault.Missing →
            faults_of_both (D.faults self.new.files) (S.faults self.new.spared) ≡ faults_of_both (D.faults self.old.files) (S.faults self.old.spared) }
        ensures later { faults_of_both (D.faults self.old.files) (S.faults self.old.spared) ≤ faults_of_both (D.faults self.new.files) (S.faults self.new.spared) }
        ensures failed { IsErrOf result FetchFault.Failed →
            Rose (faults_of_both (D.faults self.old.files) (S.faults self.old.spared)) (faults_of_both (D.faults self.new.files) (S.faults self.new.spared)) }
        ensures none { ¬ IsErrOf result FetchFault.Failed →
            faults_of_both (D.faults self.new.files) (S.faults self.new.spared) ≡ faults_of_both (D.faults self.old.files) (S.faults self.old.spared) }
    {
        self.tell_fetch(name);
        let result = self.files.fetch_exactly(name, limit, into);
        if result.is_ok() {
            self.keep(name, into.as_slice());
            self.tell_fetched(name);
        }
        result
    }

    /// Stores a file on the first desk; a text that was read and that it takes the place of is spared first.
    fn store(&mut self, name: &str, bytes: &[u8]) -> Result<(), StoreFault>
        ensures stored { OnOk result
            (D.files self.new.files ≡ with_file (D.files self.old.files) name.now bytes.now) }
        ensures refused { IsErrOf result StoreFault.NoMemory →
            D.files self.new.files ≡ D.files self.old.files }
        ensures others { IsErrOf result StoreFault.Failed →
            SameBut name.now (D.files self.old.files) (D.files self.new.files) }
        ensures later { faults_of_both (D.faults self.old.files) (S.faults self.old.spared) ≤ faults_of_both (D.faults self.new.files) (S.faults self.new.spared) }
        ensures failed { IsErrOf result StoreFault.Failed →
            Rose (faults_of_both (D.faults self.old.files) (S.faults self.old.spared)) (faults_of_both (D.faults self.new.files) (S.faults self.new.spared)) }
        ensures none { ¬ IsErrOf result StoreFault.Failed →
            faults_of_both (D.faults self.new.files) (S.faults self.new.spared) ≡ faults_of_both (D.faults self.old.files) (S.faults self.old.spared) }
    {
        let spared = self.spare(name, bytes)?;
        self.tell_store(name, bytes);
        let result = self.files.store_exactly(name, bytes);
        if result.is_ok() {
            self.note(name);
            self.tell_spared(&spared);
        } else {
            self.take_back(&spared);
        }
        result
    }

    ghost few = { λ desk. Prim.grind arith };
}
