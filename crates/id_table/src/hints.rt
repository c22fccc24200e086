//! About where ids stand in a list of rising ids.

use grid_base::NoMemory;
use std::alloc::Global;

/// For each block of ids, how many ids of a list stood before it when the list was last learned, and at last how many ids there
/// were. A list may have changed since: what is said here costs or saves time, and nothing rests on it.
#[derive(Drop)]
pub(crate) struct Hints {
    first: u32,
    // A block is of two to this power ids.
    shift: u32,
    places: Vec<u32>,
}

impl Hints {
    pub(crate) fn new(alloc: Global) -> Hints {
        Hints {
            first: 0,
            shift: 0,
            places: Vec::new(alloc),
        }
    }

    pub(crate) fn copy(&self) -> Result<Hints, NoMemory> {
        Ok(Hints {
            first: self.first,
            shift: self.shift,
            places: self.places.clone()?,
        })
    }

    /// Finds memory for so many blocks, if there is any.
    pub(crate) fn reserve(&mut self, blocks: usize) {
        if self.places.capacity() < blocks {
            let _ = self
                .places
                .reserve(blocks.saturating_sub(self.places.len()));
        }
    }

    /// Gives up what was learned, and makes the blocks as small as the memory allows for ids from the first to the last.
    pub(crate) fn start(&mut self, first: u32, last: u32) {
        self.places.clear();
        self.first = first;
        self.shift = shift_for(
            last.saturating_sub(first) as u64,
            self.places.capacity() as u64,
        );
    }

    /// Learns that so many ids stand before the id; ids come by rising id. Takes no memory.
    pub(crate) fn learn(&mut self, id: u32, before: u32) {
        let block = (id.saturating_sub(self.first) as u64).wrapping_shr(self.shift);
        let blocks = block.saturating_add(1);
        for _ in self.places.len() as u64..blocks {
            if !self.push(before) {
                return;
            }
        }
    }

    /// Learns how many ids there are. Takes no memory.
    pub(crate) fn end(&mut self, count: u32) {
        self.push(count);
    }

    /// About where an id stands, if it is in a block that was learned.
    pub(crate) fn place(&self, id: u64) -> Option<usize> {
        let after = id.wrapping_sub(self.first as u64);
        let block = after.wrapping_shr(self.shift);
        if block >= (self.places.len() as u64).saturating_sub(1) {
            return None;
        }
        let from = self.places[block as usize] as u64;
        let to = self.places[block as usize + 1] as u64;
        let in_block = after.wrapping_sub(block.wrapping_shl(self.shift));
        let more = in_block
            .wrapping_mul(to.wrapping_sub(from))
            .wrapping_shr(self.shift);
        Some(from.wrapping_add(more) as usize)
    }

    /// Adds a place, and says whether there was memory for it.
    fn push(&mut self, place: u32) -> bool {
        self.places.len() < self.places.capacity() && self.places.push(place).is_ok()
    }
}

/// The least power of two of which blocks find room for as many ids.
fn shift_for(ids: u64, room: u64) -> u32 {
    for shift in 0..32 {
        if ids.wrapping_shr(shift).saturating_add(2) <= room {
            return shift;
        }
    }
    32
}
