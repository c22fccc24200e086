//! A sink that notes what a run lets it know: which line of the log took which vertex away, so that a later use of the vertex can be
//! answered with it, and how the directives ended.
ghost use Rattle.std.specs.Prelude.{◌≡◌, ◌<◌, ◌≤◌, length, take, IfOk, OnErr};
ghost use Rattle.outside_io.specs.Causes.{HasCause};
ghost use Rattle.outside_io.specs.Sink.{appended};

use outside_io::{Ending, Fact, Failed, LineKind, Sink};
use std::alloc::Global;

// A vertex that a line of the log took away.
#[derive(Clone, Copy)]
struct Ended {
    v: u32,
    line: u64,
}

/// Which lines of a log took vertices away: its collapses, but for those in groups that were taken back.
#[derive(Drop)]
pub struct EndedVertices {
    ended: Vec<Ended>,
    groups: Vec<u64>,
}

impl EndedVertices {
    // Takes back what was noted since the last group began.
    fn undo(&mut self) {
        let Some(begin) = self.groups.pop() else {
            return;
        };
        let kept = self
            .ended
            .as_slice()
            .partition_point(|ended| ended.line < begin);
        self.ended.truncate(kept);
    }

    // Notes what a line tells.
    fn note(&mut self, kind: LineKind, number: u64) {
        match kind {
            LineKind::Group => {
                let _ = self.groups.push(number);
            }
            LineKind::Kept => {
                let _ = self.groups.pop();
            }
            LineKind::Undone => self.undo(),
            LineKind::Gone { v } => {
                let _ = self.ended.push(Ended { v, line: number });
            }
            LineKind::Step | LineKind::Other => {}
        }
    }

    /// The last line that took a vertex away, if one did.
    pub fn line_of(&self, v: u32) -> Option<u64> {
        for ended in self.ended.as_slice().iter().rev() {
            if ended.v == v {
                return Some(ended.line);
            }
        }
        None
    }
}

/// Passes all on to another sink, and notes which lines of the log took vertices away, and how the directives ended, if all were done.
#[derive(Drop)]
pub struct LogWatch<K> {
    pub sink: K,
    pub vertices: EndedVertices,
    pub ending: Option<Ending>,
    // how many lines were written
    lines: u64,
}

impl<K: Sink> LogWatch<K> {
    /// A sink that passes all on to this one, and has noted nothing.
    pub fn new(alloc: Global, sink: K) -> Self
        ensures { result.sink ≡ sink }
    {
        LogWatch {
            sink,
            vertices: EndedVertices {
                ended: Vec::new(alloc),
                groups: Vec::new(alloc),
            },
            ending: None,
            lines: 0,
        }
    }

    // Notes a fact.
    fn note(&mut self, fact: Fact)
        ensures { self.new.sink ≡ self.old.sink }
    {
        match fact {
            Fact::Line(kind) => {
                self.lines = self.lines.saturating_add(1);
                self.vertices.note(kind, self.lines);
            }
            Fact::Ended(ending) => self.ending = Some(ending),
            Fact::Taken { .. } => {}
        }
    }
}

impl<K: Sink> Sink for LogWatch<K> {
    ghost written = { λ s. K.written s.sink };

    ghost faults = { λ s. K.faults s.sink };

    /// Gives the other sink the first bytes of a piece.
    fn write(&mut self, bytes: &[u8]) -> Result<usize, Failed>
        ensures within { IfOk result (λ n. n ≤ length bytes.now) }
        ensures taken { IfOk result
            (λ n. K.written self.new.sink
            ≡ appended (K.written self.old.sink) (take n bytes.now)) }
        ensures some { IfOk result (λ n. 0 < length bytes.now → 0 < n) }
        ensures refused { OnErr result (K.written self.new.sink ≡ K.written self.old.sink) }
        ensures cause { HasCause (K.faults self.old.sink) (K.faults self.new.sink) result }
    {
        self.sink.write(bytes)
    }

    /// Passes it on, and notes it.
    fn hear(&mut self, fact: Fact)
        ensures written { K.written self.new.sink ≡ K.written self.old.sink }
        ensures faults { K.faults self.new.sink ≡ K.faults self.old.sink }
    {
        self.sink.hear(fact);
        self.note(fact);
    }

    ghost few = { λ s. K.few s.sink };
}
