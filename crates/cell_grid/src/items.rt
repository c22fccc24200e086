// Changes of the items and of where they stand.
ghost use Rattle.std.specs.Prelude.{◌≡◌, ℕ, ◌<◌, cond, nat_eq, OnOk, OnErr};
ghost use Rattle.std.specs.HashMap.{get};
ghost use Rattle.std.specs.List.Sorted.{IsStrictlySortedBy};
ghost use Rattle.std.specs.Ordering.{nat_cmp};
ghost use Rattle.cell_grid.specs.Filed.{has, AreFiled, SetsExtent};

use crate::Extent;
use crate::cells::{Cell, Entry};
use crate::entries::{file, unfile, unfile_but};
use grid_base::NoMemory;
use std::alloc::Global;
use std::collections::HashMap;

/// Sets the extent of an item. Where memory runs out, the item may be filed at cells where it need not be.
pub(crate) fn set(
    alloc: Global,
    cell: u32,
    items: &mut HashMap<u64, Extent>,
    large: &mut Vec<u64>,
    cells: &mut HashMap<Cell, Vec<Entry>>,
    item: u64,
    at: &Extent,
) -> Result<(), NoMemory>
    requires some_size { 0 < cell }
    requires filed { AreFiled cell items.old large.old.items cells.old }
    ensures filed { AreFiled cell items.new large.new.items cells.new }
    ensures ok { OnOk result (SetsExtent item at.now items.old items.new) }
    ensures err { OnErr result (items.new.entries ≡ items.old.entries) }
{
    let is_new = !items.contains_key(&item);
    file(alloc, cell, large, cells, item, at, is_new)?;
    match items.insert(item, *at)? {
        Some(was) => {
            unfile_but(cell, cells, item, &was, at);
            Ok(())
        }
        None => Ok(()),
    }
}

/// Takes the item out, and answers its extent.
pub(crate) fn take(
    cell: u32,
    items: &mut HashMap<u64, Extent>,
    large: &mut Vec<u64>,
    cells: &mut HashMap<Cell, Vec<Entry>>,
    item: u64,
) -> Option<Extent>
    requires some_size { 0 < cell }
    requires filed { AreFiled cell items.old large.old.items cells.old }
    ensures filed { AreFiled cell items.new large.new.items cells.new }
    ensures value { result ≡ get nat_eq items.old item }
    ensures removed { (q : ℕ)
        → get nat_eq items.new q ≡ cond (nat_eq item q) None (get nat_eq items.old q) }
{
    match items.remove(&item) {
        Some(was) => {
            unfile(cell, large, cells, item, &was);
            Some(was)
        }
        None => None,
    }
}

/// Puts the numbers in order, each of them once.
pub(crate) fn rising(list: &mut Vec<u64>)
    ensures sorted { IsStrictlySortedBy nat_cmp list.new.items }
    ensures same { (i : ℕ) → has i list.new.items ≡ has i list.old.items }
{
    list.sort_unstable();
    list.dedup();
}
