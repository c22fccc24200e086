// Which labels many boxes have. Only speed depends on it.
use crate::{LabelledBox, Labels};
use grid_base::NoMemory;
use std::alloc::Global;

// A label of more boxes than these is crowded.
const MANY: u32 = 64;

// The slot of a label, of so many: labels with the same remainder share one.
fn slot_of(label: u32, slots: usize) -> usize {
    if slots == 0 {
        return 0;
    }
    label as usize % slots
}

// Counts a label in its slot.
fn count(slots: &mut [u32], label: u32) {
    let slot = slot_of(label, slots.len());
    if let Some(n) = slots.get_mut(slot) {
        *n = n.saturating_add(1);
    }
}

/// How often the labels of each slot stand; there are as many slots as boxes.
pub(crate) fn counts(alloc: Global, boxes: &[LabelledBox]) -> Result<Vec<u32>, NoMemory> {
    let mut slots = Vec::new(alloc);
    slots.resize(boxes.len(), 0)?;
    for b in boxes {
        count(&mut slots, b.labels.first);
        count(&mut slots, b.labels.second);
        count(&mut slots, b.labels.third);
    }
    Ok(slots)
}

// Whether it is a label, and crowded as far as its slot tells.
fn is_crowded(counts: &[u32], label: u32) -> bool {
    match counts.get(slot_of(label, counts.len())) {
        Some(n) => label != 0 && *n > MANY,
        None => false,
    }
}

/// The first of the labels that is crowded; 0 where none is.
pub(crate) fn crowded_of(counts: &[u32], labels: &Labels) -> u32 {
    if is_crowded(counts, labels.first) {
        return labels.first;
    }
    if is_crowded(counts, labels.second) {
        return labels.second;
    }
    if is_crowded(counts, labels.third) {
        return labels.third;
    }
    0
}
