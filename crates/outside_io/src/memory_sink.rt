// A sink in memory, which fails where a list says so.
ghost use Rattle.std.specs.Prelude.{◌≡◌, ◌<◌, ◌≤◌, ◌-◌, ◌^◌, ◌↔◌, ◌++◌, [], Some, length, take, IfOk, OnOk, OnErr, IsErr, IsOk, vec_len, vec_capacity};
ghost use Rattle.outside_io.specs.Causes.{HasCause, next_count};
ghost use Rattle.outside_io.specs.Sink.{appended};

use crate::listed::is_listed;
use crate::{Failed, Sink};
use grid_base::NoMemory;
use std::alloc::Global;

/// Takes bytes in memory, as many as it was given room for. It takes each piece whole, and fails where its list says so
/// or the piece exceeds the room left.
#[derive(Drop)]
pub struct MemorySink {
    bytes: Vec<u8>,
    room: usize,
    writes: u64,
    failing: Vec<u64>,
    faults: u64,
    ghost fits: { vec_len bytes ≤ room },
    ghost has_room: { room ≤ vec_capacity bytes },
    ghost few: { faults ≤ 2 ^ 64 - 1 },
}

impl MemorySink {
    ghost use Rattle.outside_io.specs.Memory.{bytes_in, room_of, writes_of, failing_of, faults_of};

    /// An empty sink for so many bytes, for which the memory is taken here. The writes of these numbers, from 1, will
    /// fail.
    pub fn new(alloc: Global, room: usize, failing: Vec<u64>) -> Result<MemorySink, NoMemory>
        ensures empty { IfOk result (λ sink. bytes_in sink ≡ []) }
        ensures room { IfOk result (λ sink. room_of sink ≡ room) }
        ensures failing { IfOk result (λ sink. failing_of sink ≡ failing.items) }
        ensures writes { IfOk result (λ sink. writes_of sink ≡ 0) }
        ensures faults { IfOk result (λ sink. faults_of sink ≡ 0) }
    {
        let bytes = Vec::with_capacity(alloc, room)?;
        Ok(MemorySink {
            bytes,
            room,
            writes: 0,
            failing,
            faults: 0,
        })
    }

    /// What was written.
    pub fn bytes(&self) -> &[u8]
        ensures { result.now ≡ bytes_in self.now }
    {
        &self.bytes
    }
}

impl Sink for MemorySink {
    ghost use Rattle.outside_io.specs.Memory.{bytes_in, room_of, writes_of, failing_of, faults_of, Refuses};

    ghost written = { λ sink. Some sink.bytes.items };

    ghost faults = { λ sink. sink.faults };

    /// Takes the piece whole, or fails: exactly where the list names the write, or the room left is too small.
    fn write(&mut self, bytes: &[u8]) -> Result<usize, Failed>
        ensures within { IfOk result (λ n. n ≤ length bytes.now) }
        ensures taken { IfOk result (λ n.
            Some (bytes_in self.new) ≡ appended (Some (bytes_in self.old)) (take n bytes.now)) }
        ensures some { IfOk result (λ n. 0 < length bytes.now → 0 < n) }
        ensures refused { OnErr result (bytes_in self.new ≡ bytes_in self.old) }
        ensures cause { HasCause (faults_of self.old) (faults_of self.new) result }
        ensures whole { IfOk result (λ n. n ≡ length bytes.now) }
        ensures exactly { IsErr result ↔ Refuses self.old bytes.now }
        ensures writes { writes_of self.new ≡ next_count (writes_of self.old) }
        ensures room { room_of self.new ≡ room_of self.old }
        ensures failing { failing_of self.new ≡ failing_of self.old }
        ensures calm { IsOk result → faults_of self.new ≡ faults_of self.old }
        ensures risen { OnErr result (faults_of self.new ≡ next_count (faults_of self.old)) }
    {
        self.writes = self.writes.saturating_add(1);
        let left = self.room - self.bytes.len();
        if is_listed(&self.failing, self.writes) || bytes.len() > left {
            self.faults = self.faults.saturating_add(1);
            return Err(Failed);
        }
        match self.bytes.extend_from_slice(bytes) {
            Ok(()) => Ok(bytes.len()),
            Err(_) => unreachable!(),
        }
    }

    ghost few = { λ sink. sink.few };
}
