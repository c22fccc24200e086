// What a question finds.
ghost use Rattle.std.specs.Prelude.{◌≡◌, ℕ, ◌<◌, ◌++◌, [], IsTrue, OnOk, OnErr};
ghost use Rattle.std.specs.Prelude.{nat_eq};
ghost use Rattle.std.specs.List.{filter};
ghost use Rattle.std.specs.List.Sorted.{IsStrictlySortedBy};
ghost use Rattle.std.specs.Ordering.{nat_cmp};
ghost use Rattle.std.specs.HashMap.{IsUnique};
ghost use Rattle.cell_grid.specs.Filed.{has, held, is_met, all_met, found_in, AreFiled, FindsAlong, HasAllMet};

use crate::Extent;
use crate::bounds::Bounds;
use crate::cells::{Cell, Entry, Span, nth_cell, span_of};
use crate::items::rising;
use grid_base::NoMemory;
use std::collections::HashMap;

// Adds the items of the entries that the question finds.
fn look_in(list: &[Entry], at: &Bounds, into: &mut Vec<u64>) -> Result<(), NoMemory>
    ensures { OnOk result (into.new.items ≡ into.old.items ++ found_in at.now list.now) }
{
    for k in list {
        if k.around.meets(at) {
            into.push(k.item)?;
        }
    }
    Ok(())
}

// Adds the items of the list.
fn add_all(list: &[u64], into: &mut Vec<u64>) -> Result<(), NoMemory>
    ensures { OnOk result (into.new.items ≡ into.old.items ++ list.now) }
{
    for i in list {
        into.push(*i)?;
    }
    Ok(())
}

// Whether the item's extent meets this one.
fn is_met(items: &HashMap<u64, Extent>, i: u64, at: &Extent) -> bool
    ensures { result ≡ is_met items.now at.now i }
{
    match items.get(&i) {
        Some(e) => e.overlaps(at),
        None => false,
    }
}

// Adds the items that the question finds at a cell.
fn look_at(
    cells: &HashMap<Cell, Vec<Entry>>,
    c: Cell,
    at: &Bounds,
    into: &mut Vec<u64>,
) -> Result<(), NoMemory>
    ensures { OnOk result (into.new.items ≡ into.old.items ++ found_in at.now (held cells.now c)) }
{
    if let Some(list) = cells.get(&c) {
        look_in(list, at, into)?;
    }
    Ok(())
}

// Adds the items that the question finds at the cells of the span.
fn look_along(
    cells: &HashMap<Cell, Vec<Entry>>,
    s: &Span,
    at: &Bounds,
    into: &mut Vec<u64>,
) -> Result<(), NoMemory>
    ensures found { OnOk result (FindsAlong cells.now s.now at.now into.new.items) }
    ensures keeps { OnOk result ((i : ℕ)
        → IsTrue (has i into.old.items) → IsTrue (has i into.new.items)) }
{
    for n in 0..s.count {
        look_at(cells, nth_cell(s, n), at, into)?;
    }
    Ok(())
}

// Adds all whose extents meet this one.
fn look_everywhere(
    items: &HashMap<u64, Extent>,
    at: &Extent,
    into: &mut Vec<u64>,
) -> Result<(), NoMemory>
    ensures found { OnOk result (into.new.items ≡ into.old.items ++ all_met items.now at.now) }
    ensures unique { IsUnique nat_eq items.now }
{
    for (i, e) in items {
        if e.overlaps(at) {
            into.push(*i)?;
        }
    }
    Ok(())
}

// Finds all items whose extents meet this one, and maybe others, in any order, some of them more than once.
fn look(
    cell: u32,
    items: &HashMap<u64, Extent>,
    large: &[u64],
    cells: &HashMap<Cell, Vec<Entry>>,
    at: &Extent,
    into: &mut Vec<u64>,
) -> Result<(), NoMemory>
    requires some_size { 0 < cell }
    requires filed { AreFiled cell items.now large.now cells.now }
    requires empty { into.old.items ≡ [] }
    ensures { OnOk result (HasAllMet items.now at.now into.new.items) }
{
    match span_of(at, cell) {
        Some(span) => {
            add_all(large, into)?;
            look_along(cells, &span, &Bounds::of(at), into)
        }
        None => look_everywhere(items, at, into),
    }
}

/// Sets the list to all items whose extents meet this one, and maybe others, rising. Where there is no memory, the list is
/// empty.
pub(crate) fn look_rising(
    cell: u32,
    items: &HashMap<u64, Extent>,
    large: &[u64],
    cells: &HashMap<Cell, Vec<Entry>>,
    at: &Extent,
    into: &mut Vec<u64>,
) -> Result<(), NoMemory>
    requires some_size { 0 < cell }
    requires filed { AreFiled cell items.now large.now cells.now }
    ensures sorted { OnOk result (IsStrictlySortedBy nat_cmp into.new.items) }
    ensures all { OnOk result (HasAllMet items.now at.now into.new.items) }
    ensures err { OnErr result (into.new.items ≡ []) }
{
    into.clear();
    if let Err(e) = look(cell, items, large, cells, at, into) {
        into.clear();
        return Err(e);
    }
    rising(into);
    Ok(())
}

/// Leaves those items of the list whose extents meet this one.
pub(crate) fn keep_met(items: &HashMap<u64, Extent>, at: &Extent, list: &mut Vec<u64>)
    ensures { list.new.items ≡ filter (is_met items.now at.now) list.old.items }
{
    list.retain(|i| is_met(items, *i, at));
}
