//! What a run that goes on tells whoever waits at a terminal: one line of standard error, which is written over and over.
//!
//! The program has no threads, so it is told where the program passes anyhow: before a part of the work that may take long, and where
//! lines are written or taken.
use refusal_sentences::plain;
use std::alloc::{AllocError, Global};
use std::cell::Cell;
use std::rt::Clock;
use std::time::Duration;

// A line has at most so many characters, so that it can be written over: a terminal begins a new one behind its last column.
const WIDTH: usize = 79;

/// Which terminal waits for a run.
#[derive(Clone, Copy, PartialEq, Eq)]
pub enum Watcher {
    /// None: standard error is no terminal.
    Nobody,
    /// One that has standard error alone.
    Apart,
    /// One that has standard output too.
    Shared,
}

/// The line on standard error that tells what is being done, and how far that has come. Where nobody watches nothing is told.
#[derive(Drop)]
pub struct LifeLine<'a, R> {
    alloc: Global,
    rt: &'a R,
    watcher: Watcher,
    is_shown: Cell<bool>,
    told_at: Cell<Duration>,
    /// How many lines the log has that is read, if that is known; else 0.
    pub(crate) lines: Cell<u64>,
    /// How many steps are asked for, if that is known; else 0.
    pub(crate) steps: Cell<u64>,
}

// The first characters of a text, as many as a line may have.
fn cut(alloc: Global, said: &str) -> Result<String, AllocError> {
    let mut shown = String::new(alloc);
    for c in said.chars().take(WIDTH) {
        shown.push(c)?;
    }
    Ok(shown)
}

impl<'a, R: Eprint + Clock> LifeLine<'a, R> {
    /// The line of a run that begins, on which nothing is told yet.
    pub fn new(alloc: Global, rt: &'a R, watcher: Watcher) -> Self {
        LifeLine {
            alloc,
            rt,
            watcher,
            is_shown: Cell::new(false),
            told_at: Cell::new(rt.monotonic().unwrap_or(Duration::ZERO)),
            lines: Cell::new(0),
            steps: Cell::new(0),
        }
    }

    /// Whether somebody watches.
    pub fn is_watched(&self) -> bool {
        self.watcher != Watcher::Nobody
    }

    /// Whether a terminal watches that has the log too.
    pub(crate) fn is_shared(&self) -> bool {
        self.watcher == Watcher::Shared
    }

    /// Whether somebody watches and was told nothing for a second.
    pub(crate) fn is_due(&self) -> bool {
        match self.rt.monotonic() {
            Ok(now) if self.is_watched() => { now.saturating_sub(self.told_at.get()).as_secs() > 0 }
            _ => false,
        }
    }

    /// Tells what is being done, in the place of what was told before.
    pub fn tell(&self, said: Result<String, AllocError>) {
        if !self.is_watched() {
            return;
        }
        let Ok(said) = said else {
            return;
        };
        let Ok(said) = plain(self.alloc, said.as_str()) else {
            return;
        };
        if let Ok(said) = cut(self.alloc, said.as_str()) {
            let _ = eprint!(self.rt; "\r{said}\x1b[K");
            self.is_shown.set(true);
            self.told_at
                .set(self.rt.monotonic().unwrap_or(Duration::ZERO));
        }
    }

    /// Wipes the line, if one is told.
    pub fn wipe(&self) {
        if self.is_shown.get() {
            let _ = eprint!(self.rt; "\r\x1b[K");
            self.is_shown.set(false);
        }
    }
}
