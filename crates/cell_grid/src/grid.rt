ghost use Rattle.std.specs.Prelude.{◌≡◌, ◌<◌, IsOk, OnOk, OnErr, IfOk, []};
ghost use Rattle.std.specs.FinMap as map;
ghost use Rattle.std.specs.List.Sorted.{IsStrictlySortedBy};
ghost use Rattle.std.specs.Ordering.{nat_cmp};
ghost use Rattle.cell_grid.specs.Overlapping.{overlapping, HasEachAt};

use crate::Extent;
use crate::cells::{Cell, Entry};
use crate::items::{set, take};
use crate::lookup::{keep_met, look_rising};
use grid_base::NoMemory;
use std::alloc::Global;
use std::collections::HashMap;
use std::marker::Model;

/// A map from items to extents. A question finds the items near an extent by the cells that it touches (a hashed grid,
/// as broad phases use), where each stands with bounds that have its extent. An extent that touches more than 64 cells is
/// kept in a list of its own, which every question looks through; a question whose extent touches more than 64 cells
/// looks at every item.
#[derive(Drop)]
pub struct Grid {
    alloc: Global,
    cell: u32,
    items: HashMap<u64, Extent>,
    large: Vec<u64>,
    cells: HashMap<Cell, Vec<Entry>>,
}

impl Model for Grid {
    ghost use Rattle.std.specs.Prelude.{ℕ, ◌<◌};
    ghost use Rattle.std.specs.Ordering.{nat_cmp};
    ghost use Rattle.std.specs.Coded.{coded_ℕ};
    ghost use Rattle.std.specs.FinMap as map;
    ghost use Rattle.grid_base.specs.declared.Extent.{Extent};

    ghost Value = { map.FinMap nat_cmp Extent };

    ghost use Rattle.grid_base.specs.contracts.Extent as extent;

    ghost coded = { map.code coded_ℕ extent.the_row.coded };

    ghost use Rattle.cell_grid.specs.Filed.{AreFiled};

    ghost view = { λ g. map.from_entries g.items.entries };

    ghost invariant = { λ g. (0 < g.cell) × AreFiled g.cell g.items g.large.items g.cells };
}

impl Grid {
    /// The empty map, over cells whose sides have this length. Twice the mean of the longest sides of the extents to
    /// come serves well. Takes no memory, and is never refused.
    pub fn new(alloc: Global, cell: u32) -> Result<Grid, NoMemory>
        requires { 0 < cell }
        ensures empty { IfOk result (λ g. g ≡ map.empty) }
        ensures ok { IsOk result }
    {
        Ok(Grid {
            alloc,
            cell,
            items: HashMap::new(alloc),
            large: Vec::new(alloc),
            cells: HashMap::new(alloc),
        })
    }

    /// Sets the extent of an item. Where there is no memory, the map is as before.
    pub fn insert(&mut self, item: u64, at: Extent) -> Result<(), NoMemory>
        ensures ok { OnOk result (self.new ≡ map.insert self.old item at) }
        ensures err { OnErr result (self.new ≡ self.old) }
    {
        set(
            self.alloc,
            self.cell,
            &mut self.items,
            &mut self.large,
            &mut self.cells,
            item,
            &at,
        )
    }

    /// Takes the item out, and answers its extent: `None` exactly where it was not there. Takes no memory.
    pub fn remove(&mut self, item: u64) -> Option<Extent>
        ensures value { result ≡ map.get self.old item }
        ensures removed { self.new ≡ map.remove self.old item }
    {
        take(
            self.cell,
            &mut self.items,
            &mut self.large,
            &mut self.cells,
            item,
        )
    }

    /// The extent of an item: `None` exactly where it is not there.
    pub fn get(&self, item: u64) -> Option<Extent>
        ensures { result ≡ map.get self.now item }
    {
        self.items.get(&item).copied()
    }

    /// Sets the list to the items whose extents have a common point with this one, rising. Where there is no memory,
    /// the list is empty.
    pub fn overlapping(&self, at: Extent, into: &mut Vec<u64>) -> Result<(), NoMemory>
        ensures ok { OnOk result (into.new.items ≡ overlapping self.now at) }
        ensures err { OnErr result (into.new.items ≡ []) }
    {
        look_rising(self.cell, &self.items, &self.large, &self.cells, &at, into)?;
        keep_met(&self.items, &at, into);
        Ok(())
    }

    /// Sets the list to rising items, of which some may be apart from this extent: all whose extents have a common point with it are
    /// among them. It takes less time than `overlapping`, and serves who tests each item again. Where there is no memory, the list is
    /// empty.
    pub fn near(&self, at: Extent, into: &mut Vec<u64>) -> Result<(), NoMemory>
        ensures rising { OnOk result (IsStrictlySortedBy nat_cmp into.new.items) }
        ensures all { OnOk result (HasEachAt self.now at into.new.items) }
        ensures err { OnErr result (into.new.items ≡ []) }
    {
        look_rising(self.cell, &self.items, &self.large, &self.cells, &at, into)
    }
}
