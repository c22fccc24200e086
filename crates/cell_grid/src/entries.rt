// Where items stand: in the lists of the cells, or in the list of the large ones.
ghost use Rattle.std.specs.Prelude.{◌≡◌, ◌≢◌, ℕ, ◌<◌, ◌++◌, [], ◌∷◌, not, ◌==◌, ◌||◌, IsTrue, OnOk, OnErr, IfOk, IfSome, Some, slice_get, option_map};
ghost use Rattle.std.specs.List.{filter};
ghost use Rattle.cell_grid.specs.declared.cells.Cell.{Cell as CellAt};
ghost use Rattle.cell_grid.specs.Cells.{nth_cell};
ghost use Rattle.cell_grid.specs.Filed.{has, held, IsFoundIn, KeepsFound, KeepsAll, KeepsOthers, KeepsElsewhere};
ghost use Rattle.cell_grid.specs.Filed.{KeepsTouched, KeepsSeen, KeepsOthersSeen, StandsAlong, IsSeenOver};

use crate::Extent;
use crate::bounds::Bounds;
use crate::cells::{Cell, Entry, Span, nth_cell, span_of, touches};
use grid_base::NoMemory;
use std::alloc::Global;
use std::collections::HashMap;

// Puts the item into the list of the large ones, if it is not there.
fn put_large(large: &mut Vec<u64>, item: u64) -> Result<(), NoMemory>
    ensures ok { OnOk result (IsTrue (has item large.new.items)) }
    ensures keeps { (i : ℕ) → IsTrue (has i large.old.items) → IsTrue (has i large.new.items) }
{
    if !large.contains(&item) {
        large.push(item)?;
    }
    Ok(())
}

// Where the item's entry stands in the list.
fn place_of(list: &[Entry], item: u64) -> Option<usize>
    ensures { IfSome result (λ n. option_map (λ k. k.item) (slice_get list.now n) ≡ Some item) }
{
    for n in 0..list.len() {
        if list[n].item == item {
            return Some(n);
        }
    }
    None
}

// Makes the entry that stands at a place wide enough for another one of its item.
fn widen(list: &mut Vec<Entry>, n: usize, k: Entry)
    requires { option_map (λ e. e.item) (slice_get list.old.items n) ≡ Some k.item }
    ensures found { IsFoundIn k.item k.around list.new.items }
    ensures keeps { KeepsFound list.old.items list.new.items }
{
    let around = list[n].around.united(k.around);
    list[n] = Entry {
        item: k.item,
        around,
    };
}

// Puts the entry into the list; unless its item is new, it makes the one that is there wide enough, if any is.
fn put(list: &mut Vec<Entry>, k: Entry, is_new: bool) -> Result<(), NoMemory>
    ensures ok { OnOk result (IsFoundIn k.item k.around list.new.items) }
    ensures keeps { KeepsFound list.old.items list.new.items }
{
    if !is_new {
        if let Some(n) = place_of(list, k.item) {
            widen(list, n, k);
            return Ok(());
        }
    }
    list.push(k)?;
    Ok(())
}

// Takes the item out of the list of the large ones.
fn take_out_large(large: &mut Vec<u64>, item: u64)
    ensures { large.new.items ≡ filter (λ i. not (i == item)) large.old.items }
{
    large.retain(|i| *i != item);
}

// Takes the item's entries out of the list.
fn take_out(list: &mut Vec<Entry>, item: u64)
    ensures { list.new.items ≡ filter (λ k. not (k.item == item)) list.old.items }
{
    list.retain(|k| k.item != item);
}

// Puts the entry into a cell's list.
fn put_at(
    alloc: Global,
    cells: &mut HashMap<Cell, Vec<Entry>>,
    at: Cell,
    k: Entry,
    is_new: bool,
) -> Result<(), NoMemory>
    ensures ok { OnOk result (IsFoundIn k.item k.around (held cells.new at)) }
    ensures keeps { KeepsAll cells.old cells.new }
{
    if let Some(list) = cells.get_mut(&at) {
        put(list, k, is_new)?;
        return Ok(());
    }
    let mut list = Vec::new(alloc);
    list.push(k)?;
    cells.insert(at, list)?;
    Ok(())
}

// Takes the item out of a cell's list, and the list out of the map, if it is empty then.
fn take_out_at(cells: &mut HashMap<Cell, Vec<Entry>>, at: Cell, item: u64)
    ensures keeps { KeepsOthers item cells.old cells.new }
    ensures elsewhere { KeepsElsewhere at cells.old cells.new }
{
    if take_out_within(cells, at, item) {
        let _ = cells.remove(&at);
    }
}

// Takes the item out of a cell's list, and leaves the list. Whether there is one, and it is empty then.
fn take_out_within(cells: &mut HashMap<Cell, Vec<Entry>>, at: Cell, item: u64) -> bool
    ensures empty { IsTrue result → held cells.new at ≡ [] }
    ensures keeps { KeepsOthers item cells.old cells.new }
    ensures elsewhere { KeepsElsewhere at cells.old cells.new }
{
    match cells.get_mut(&at) {
        Some(list) => {
            take_out(list, item);
            list.is_empty()
        }
        None => false,
    }
}

// Puts the entry into the list of each cell of the span.
fn put_along(
    alloc: Global,
    cells: &mut HashMap<Cell, Vec<Entry>>,
    s: &Span,
    k: Entry,
    is_new: bool,
) -> Result<(), NoMemory>
    ensures ok { OnOk result (StandsAlong k s.now cells.new) }
    ensures keeps { KeepsAll cells.old cells.new }
{
    for n in 0..s.count {
        put_at(alloc, cells, nth_cell(s, n), k, is_new)?;
    }
    Ok(())
}

/// Files the item under each cell that its extent touches, or among the large ones.
/// What was filed stays, also where memory runs out. An item that is new is not looked for.
pub(crate) fn file(
    alloc: Global,
    cell: u32,
    large: &mut Vec<u64>,
    cells: &mut HashMap<Cell, Vec<Entry>>,
    item: u64,
    at: &Extent,
    is_new: bool,
) -> Result<(), NoMemory>
    requires { 0 < cell }
    ensures ok { OnOk result (IsSeenOver cell at.now item large.new.items cells.new) }
    ensures keeps { KeepsSeen large.old.items cells.old large.new.items cells.new }
{
    match span_of(at, cell) {
        Some(span) => {
            let around = Bounds::of(at);
            put_along(alloc, cells, &span, Entry { item, around }, is_new)
        }
        None => put_large(large, item),
    }
}

// Takes the item out of the list of each cell of the span, but for those that the other extent touches.
fn take_out_along(
    cell: u32,
    cells: &mut HashMap<Cell, Vec<Entry>>,
    s: &Span,
    item: u64,
    but: &Extent,
)
    requires { 0 < cell }
    ensures others { KeepsOthers item cells.old cells.new }
    ensures spared { KeepsTouched cell but.now cells.old cells.new }
{
    for n in 0..s.count {
        let c = nth_cell(s, n);
        if !touches(but, cell, c) {
            take_out_at(cells, c, item);
        }
    }
}

// Takes the item out of the list of each cell of the span.
fn take_out_all(cells: &mut HashMap<Cell, Vec<Entry>>, s: &Span, item: u64)
    ensures { KeepsOthers item cells.old cells.new }
{
    for n in 0..s.count {
        take_out_at(cells, nth_cell(s, n), item);
    }
}

/// Takes the item out of the lists of the cells that an extent touches, but for those that the other extent touches.
/// Among the large ones it stays.
pub(crate) fn unfile_but(
    cell: u32,
    cells: &mut HashMap<Cell, Vec<Entry>>,
    item: u64,
    was: &Extent,
    but: &Extent,
)
    requires { 0 < cell }
    ensures others { KeepsOthers item cells.old cells.new }
    ensures spared { KeepsTouched cell but.now cells.old cells.new }
{
    if let Some(span) = span_of(was, cell) {
        take_out_along(cell, cells, &span, item, but);
    }
}

/// Takes the item out of the lists where an extent had it filed, and out of the large ones.
pub(crate) fn unfile(
    cell: u32,
    large: &mut Vec<u64>,
    cells: &mut HashMap<Cell, Vec<Entry>>,
    item: u64,
    was: &Extent,
)
    requires { 0 < cell }
    ensures { KeepsOthersSeen item large.old.items cells.old large.new.items cells.new }
{
    take_out_large(large, item);
    if let Some(span) = span_of(was, cell) {
        take_out_all(cells, &span, item);
    }
}
