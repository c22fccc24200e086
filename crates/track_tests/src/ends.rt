//! Words, desks and sinks for the examples, and runs of words.
use grid_base::{NoMemory, Point, Shift};
use mesh_field::no_fields;
use mesh_sizing::{Band, Sizing};
use outside_io::{MemoryDesk, MemorySink};
use std::alloc::Global;
use track_run::run;

pub(crate) fn words_of(alloc: Global, words: &[&str]) -> Result<Vec<String>, NoMemory> {
    let mut all = Vec::new(alloc);
    for word in words {
        all.push(String::from_str(alloc, word)?)?;
    }
    Ok(all)
}

// A desk of which the fetches and the stores of these numbers fail, from 1.
pub(crate) fn desk_of(
    alloc: Global,
    fetches: &[u64],
    stores: &[u64],
) -> Result<MemoryDesk, NoMemory> {
    let fetches = Vec::from_slice(alloc, fetches)?;
    let stores = Vec::from_slice(alloc, stores)?;
    Ok(MemoryDesk::new(alloc, fetches, stores))
}

// A sink of which the writes of these numbers fail, from 1.
pub(crate) fn sink_of(alloc: Global, writes: &[u64]) -> Result<MemorySink, NoMemory> {
    let writes = Vec::from_slice(alloc, writes)?;
    MemorySink::new(alloc, 10_000, writes)
}

// The status of the run of these words.
pub(crate) fn answer(
    alloc: Global,
    words: &[&str],
    desk: &mut MemoryDesk,
    out: &mut MemorySink,
) -> Result<u8, NoMemory> {
    let words = words_of(alloc, words)?;
    let fields = no_fields(|_which: u8, _at: Point| Shift { x: 0, y: 0, z: 0 });
    let sizing = Sizing::new(|_at: Point| Band { low: 1, high: 2 });
    let outcome = run(alloc, &words, desk, out, &fields, &sizing);
    Ok(outcome.status())
}
