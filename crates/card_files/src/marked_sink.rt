//! A sink that takes the mark of what is written.
ghost use Rattle.std.specs.Prelude.{◌≡◌, ◌<◌, ◌≤◌, length, take, IfOk, OnErr};
ghost use Rattle.outside_io.specs.Causes.{HasCause};
ghost use Rattle.outside_io.specs.Sink.{appended};

use job_card::{FileMark, Marker};
use outside_io::{Fact, Failed, Sink};

/// Passes all on to another sink, and takes its mark where that is asked.
#[derive(Drop)]
pub struct MarkedSink<K> {
    pub sink: K,
    marker: Option<Marker>,
}

impl<K> MarkedSink<K> {
    /// A sink that passes all on to this one.
    pub fn new(sink: K, is_asked: bool) -> Self
        ensures { result.sink ≡ sink }
    {
        let marker = if is_asked { Some(Marker::new()) } else { None };
        MarkedSink { sink, marker }
    }

    /// The mark of what was written since this was asked last, where it is asked.
    pub fn take_mark(&mut self) -> Option<FileMark>
        ensures { self.new.sink ≡ self.old.sink }
    {
        match self.marker.take() {
            Some(marker) => Some(marker.mark()),
            None => None,
        }
    }

    // Takes in what was written.
    fn note(&mut self, bytes: &[u8])
        ensures { self.new.sink ≡ self.old.sink }
    {
        if let Some(marker) = &mut self.marker {
            marker.add(bytes);
        }
    }
}

impl<K: Sink> Sink for MarkedSink<K> {
    ghost written = { λ s. K.written s.sink };

    ghost faults = { λ s. K.faults s.sink };

    /// Gives the other sink the first bytes of a piece.
    fn write(&mut self, bytes: &[u8]) -> Result<usize, Failed>
        ensures within { IfOk result (λ n. n ≤ length bytes.now) }
        ensures taken { IfOk result
            (λ n. K.written self.new.sink
            ≡ appended (K.written self.old.sink) (take n bytes.now)) }
        ensures some { IfOk result (λ n. 0 < length bytes.now → 0 < n) }
        ensures refused { OnErr result (K.written self.new.sink ≡ K.written self.old.sink) }
        ensures cause { HasCause (K.faults self.old.sink) (K.faults self.new.sink) result }
    {
        let count = self.sink.write(bytes)?;
        self.note(&bytes[..count]);
        Ok(count)
    }

    /// Passes it on.
    fn hear(&mut self, fact: Fact)
        ensures written { K.written self.new.sink ≡ K.written self.old.sink }
        ensures faults { K.faults self.new.sink ≡ K.faults self.old.sink }
    {
        self.sink.hear(fact);
    }

    ghost few = { λ s. K.few s.sink };
}
