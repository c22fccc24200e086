//! A sink of a run that is watched: meanwhile it is told how many steps and lines were written, or how many lines of a log were taken.
ghost use Rattle.std.specs.Prelude.{◌≡◌, ◌<◌, ◌≤◌, length, take, IfOk, OnErr};
ghost use Rattle.outside_io.specs.Causes.{HasCause};
ghost use Rattle.outside_io.specs.Sink.{appended};

use crate::life_line::LifeLine;
use outside_io::{Fact, Failed, LineKind, Sink};
use std::alloc::{AllocError, Global};
use std::rt::Clock;

// After so many more lines that are written it is told again.
const WRITTEN: u64 = 2048;

// After so many more lines that are taken it is told again.
const TAKEN: u32 = 256;

/// Passes all on to another sink, and tells on the line of the run how far that has come. What is passed on is the same whether anybody
/// watches or not.
#[derive(Drop)]
pub struct WatchedSink<'l, 'a, K, R> {
    alloc: Global,
    pub sink: K,
    life: &'l LifeLine<'a, R>,
    // how many were written
    steps: u64,
    lines: u64,
    // how many lines were written, and how many taken, when that was told last
    told: u64,
    taken: u32,
}

// What is told of what was written.
fn written_so_far(alloc: Global, steps: u64, of: u64, lines: u64) -> Result<String, AllocError> {
    if steps == 0 {
        return format!(in alloc; "lines written: {lines}");
    }
    if steps > of {
        return format!(in alloc; "step {steps}, {lines} lines of the log");
    }
    format!(in alloc; "step {steps} of {of}, {lines} lines of the log")
}

// What is told of what was taken.
fn taken_so_far(alloc: Global, taken: u64, of: u64) -> Result<String, AllocError> {
    if taken > of {
        return format!(in alloc; "{taken} lines of the log are taken");
    }
    let percent = taken.saturating_mul(100) / of.max(1);
    format!(in alloc; "{taken} of {of} lines of the log are taken ({percent} %)")
}

impl<'l, 'a, K: Sink, R: Eprint + Clock> WatchedSink<'l, 'a, K, R> {
    /// A sink that passes all on to this one, and has told nothing.
    pub fn new(alloc: Global, sink: K, life: &'l LifeLine<'a, R>) -> Self
        ensures { result.sink ≡ sink }
    {
        WatchedSink {
            alloc,
            sink,
            life,
            steps: 0,
            lines: 0,
            told: 0,
            taken: 0,
        }
    }

    // Counts a line that was written, and tells it where a step has begun, many lines more were written, or nothing was told for long.
    fn count(&mut self, kind: LineKind)
        ensures { self.new.sink ≡ self.old.sink }
    {
        let is_step = kind == LineKind::Step;
        self.steps = self.steps.saturating_add(u64::from(is_step));
        self.lines = self.lines.saturating_add(1);
        if is_step || self.lines >= self.told.saturating_add(WRITTEN) || self.life.is_due() {
            self.told = self.lines;
            let of = self.life.steps.get();
            self.life
                .tell(written_so_far(self.alloc, self.steps, of, self.lines));
        }
    }

    // Tells how many lines of a log were taken, where those are many more, or nothing was told for long.
    fn tell_taken(&mut self, lines: u32)
        ensures { self.new.sink ≡ self.old.sink }
    {
        if lines >= self.taken.saturating_add(TAKEN) || self.life.is_due() {
            self.taken = lines;
            let of = self.life.lines.get();
            self.life
                .tell(taken_so_far(self.alloc, u64::from(lines), of));
        }
    }

    // Tells a fact; but of lines that are written nothing where the terminal has them too.
    fn tell(&mut self, fact: Fact)
        ensures { self.new.sink ≡ self.old.sink }
    {
        match fact {
            Fact::Taken { lines } => self.tell_taken(lines),
            Fact::Line(kind) if !self.life.is_shared() => self.count(kind),
            _ => {}
        }
    }
}

impl<'l, 'a, K: Sink, R: Eprint + Clock> Sink for WatchedSink<'l, 'a, K, R> {
    ghost written = { λ s. K.written s.sink };

    ghost faults = { λ s. K.faults s.sink };

    /// Gives the other sink the first bytes of a piece.
    fn write(&mut self, bytes: &[u8]) -> Result<usize, Failed>
        ensures within { IfOk result (λ n. n ≤ length bytes.now) }
        ensures taken { IfOk result
            (λ n. K.written self.new.sink
            ≡ appended (K.written self.old.sink) (take n bytes.now)) }
        ensures some { IfOk result (λ n. 0 < length bytes.now → 0 < n) }
        ensures refused { OnErr result (K.written self.new.sink ≡ K.written self.old.sink) }
        ensures cause { HasCause (K.faults self.old.sink) (K.faults self.new.sink) result }
    {
        if self.life.is_shared() {
            self.life.wipe();
        }
        self.sink.write(bytes)
    }

    /// Passes it on, and tells it.
    fn hear(&mut self, fact: Fact)
        ensures written { K.written self.new.sink ≡ K.written self.old.sink }
        ensures faults { K.faults self.new.sink ≡ K.faults self.old.sink }
    {
        self.sink.hear(fact);
        if self.life.is_watched() {
            self.tell(fact);
        }
    }

    ghost few = { λ s. K.few s.sink };
}
