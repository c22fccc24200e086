//! A table by rising ids.
ghost use Rattle.std.specs.Prelude.{◌≡◌, ⊤, ℕ, is_some, ◌≤◌, ◌<◌, ◌^◌, ◌+◌, ◌-◌, None, Some, vec_len, vec_capacity, drop, map as map_list, IfOk, OnOk, OnErr, IsSome, slice_get, length};
ghost use Rattle.std.specs.List.{filter};
ghost use Rattle.std.specs.FinMap as map;
ghost use Rattle.mesh_base.specs.Sides.{above};
ghost use Rattle.id_table.specs.Stock.{AreApart, Inserts, Removes, Buries, Raises, Discards};
ghost use Rattle.id_table.specs.Stones.{held_of, buried_of, is_held, is_left, RiseFrom, IsLower, AreBelow, AreOver, IsAround, IsFound, Holds};

use crate::hints::Hints;
use grid_base::NoMemory;
use std::alloc::{AllocError, Global};
use std::marker::Model;

/// An id, with what is held of it, or what is buried of it; nothing, once it is removed.
#[derive(Copy)]
struct Item<T> {
    id: u32,
    held: Option<T>,
    buried: Option<T>,
}

impl<T: Copy> Clone for Item<T> {
    ghost is_clone = { λ item copy. copy ≡ item };

    ghost is_infallible = { λ _. ⊤ };

    fn clone(&self) -> Result<Self, AllocError> {
        Ok(*self)
    }
}

/// What is kept of each live id, and of each buried one, by rising id in one list, where the removed make up a half at
/// most. A contract sees two finite maps, and how many insertions find memory.
#[derive(Drop)]
pub struct Rows<T> {
    items: Vec<Item<T>>,
    live: usize,
    // About how many are buried; it decides when the list is tidied, and nothing else.
    down: usize,
    hints: Hints,
}

impl<T> Model for Rows<T> {
    ghost use Rattle.id_table.specs.Stock.{Stock, stock_code};
    ghost use Rattle.std.specs.FinMap as map;
    ghost use Rattle.std.specs.Prelude.{◌-◌, vec_len, vec_capacity};

    ghost Value = { Stock T };

    ghost coded = { stock_code T.code };

    ghost use Rattle.id_table.specs.Stones.{held_of, buried_of, AreCounted};

    ghost view = { λ r. record {
      live = map.from_entries (held_of r.items.items);
      buried = map.from_entries (buried_of r.items.items);
      room = vec_capacity r.items - vec_len r.items;
    } };

    ghost invariant = { λ r. AreCounted r.items.items r.live };
}

impl<T: Copy> Rows<T> {
    /// A table of nothing.
    pub fn new(alloc: Global) -> Rows<T>
        ensures live { result.live ≡ map.empty }
        ensures buried { result.buried ≡ map.empty }
    {
        Rows {
            items: Vec::new(alloc),
            live: 0,
            down: 0,
            hints: Hints::new(alloc),
        }
    }

    /// How many ids are live.
    pub fn len(&self) -> usize
        ensures { result ≡ map.len self.now.live }
    {
        self.live
    }

    /// What is held of a live id.
    pub fn get(&self, id: u32) -> Option<T>
        ensures { result ≡ map.get self.now.live id }
    {
        match find(&self.hints, self.items.as_slice(), id) {
            Ok(at) => self.items[at].held,
            Err(_) => None,
        }
    }

    /// What is buried of an id.
    pub fn get_buried(&self, id: u32) -> Option<T>
        ensures { result ≡ map.get self.now.buried id }
    {
        match find(&self.hints, self.items.as_slice(), id) {
            Ok(at) => self.items[at].buried,
            Err(_) => None,
        }
    }

    /// The least live id above the number.
    pub fn above(&self, n: u32) -> Option<u32>
        ensures { result ≡ slice_get (above n (map.keys self.now.live)) 0 }
    {
        first_held(
            self.items.as_slice(),
            lower(&self.hints, self.items.as_slice(), n as u64 + 1),
        )
    }

    /// The least buried id above the number.
    pub fn buried_above(&self, n: u32) -> Option<u32>
        ensures { result ≡ slice_get (above n (map.keys self.now.buried)) 0 }
    {
        first_buried(
            self.items.as_slice(),
            lower(&self.hints, self.items.as_slice(), n as u64 + 1),
        )
    }

    /// Finds memory for so many insertions.
    pub fn reserve(&mut self, more: usize) -> Result<(), NoMemory>
        ensures ok { OnOk result (more ≤ self.new.room) }
        ensures kept { self.new ≡ record self.old { room = self.new.room } }
        ensures room { self.old.room ≤ self.new.room }
    {
        self.items.reserve(more)?;
        self.hints.reserve(self.items.capacity());
        Ok(())
    }

    /// Puts a row under an id that is not there.
    pub fn insert(&mut self, id: u32, row: T) -> Result<(), NoMemory>
        requires new { map.get self.old.live id ≡ None }
        requires few { map.len self.old.live < 2 ^ 32 }
        ensures ok { OnOk result (Inserts self.old self.new id row) }
        ensures err { OnErr result (self.new ≡ self.old) }
        ensures memory { OnErr result (self.old.room ≡ 0) }
        ensures room { self.old.room ≤ self.new.room + 1 }
    {
        put(&self.hints, &mut self.items, id, row)?;
        self.live += 1;
        self.hints.reserve(self.items.capacity());
        Ok(())
    }

    /// Puts another row under an id that is there. Takes no memory.
    pub fn set(&mut self, id: u32, row: T)
        requires { IsSome (map.get self.old.live id) }
        ensures { self.new ≡ record self.old { live = map.insert self.old.live id row } }
    {
        if let Ok(at) = find(&self.hints, self.items.as_slice(), id) {
            let item = self.items[at];
            self.items[at] = Item {
                held: Some(row),
                ..item
            };
        }
    }

    /// Takes an id out of the live ones; what is buried of it stays. Takes no memory.
    pub fn remove(&mut self, id: u32)
        requires { IsSome (map.get self.old.live id) }
        ensures kept { Removes self.old self.new id }
        ensures room { self.old.room ≤ self.new.room }
    {
        if let Ok(at) = find(&self.hints, self.items.as_slice(), id) {
            let item = self.items[at];
            self.items[at] = Item { held: None, ..item };
            self.live -= 1;
            tidy(
                &mut self.hints,
                &mut self.items,
                self.live.saturating_add(self.down),
            );
        }
    }

    /// Buries what is held of an id. Takes no memory.
    pub fn bury(&mut self, id: u32)
        requires { IsSome (map.get self.old.live id) }
        ensures { Buries self.old self.new id }
    {
        if let Ok(at) = find(&self.hints, self.items.as_slice(), id) {
            let item = self.items[at];
            self.items[at] = Item {
                id: item.id,
                held: None,
                buried: item.held,
            };
            self.live -= 1;
            self.down = self.down.saturating_add(1);
        }
    }

    /// Holds a row of an id of which something is buried and nothing is held; what is buried is given up. Takes no memory.
    pub fn raise(&mut self, id: u32, row: T)
        requires buried { IsSome (map.get self.old.buried id) }
        requires new { map.get self.old.live id ≡ None }
        requires few { map.len self.old.live < 2 ^ 32 }
        ensures { Raises self.old self.new id row }
    {
        if let Ok(at) = find(&self.hints, self.items.as_slice(), id) {
            let item = self.items[at];
            self.items[at] = Item {
                id: item.id,
                held: Some(row),
                buried: None,
            };
            self.live += 1;
            self.down = self.down.saturating_sub(1);
        }
    }

    /// Gives up what is buried of an id. Takes no memory.
    pub fn discard(&mut self, id: u32)
        ensures kept { Discards self.old self.new id }
        ensures room { self.old.room ≤ self.new.room }
    {
        if let Ok(at) = find(&self.hints, self.items.as_slice(), id) {
            let item = self.items[at];
            self.items[at] = Item {
                buried: None,
                ..item
            };
            self.down = self.down.saturating_sub(1);
            tidy(
                &mut self.hints,
                &mut self.items,
                self.live.saturating_add(self.down),
            );
        }
    }

    /// Gives up all that is buried, where nothing is both held and buried. Takes no memory.
    pub fn forget(&mut self)
        requires { AreApart self.old }
        ensures kept { self.new ≡ record self.old { buried = map.empty; room = self.new.room } }
        ensures room { self.old.room ≤ self.new.room }
    {
        keep_held(&mut self.items);
        learn(&mut self.hints, self.items.as_slice());
        self.down = 0;
    }

    /// The same table once more, or want of memory.
    pub fn copy(&self) -> Result<Rows<T>, NoMemory>
        ensures { IfOk result (λ copy. copy ≡ record self.now { room = copy.room }) }
    {
        Ok(Rows {
            items: self.items.clone()?,
            live: self.live,
            down: self.down,
            hints: self.hints.copy()?,
        })
    }
}

/// The place of an id, whether something is held of it or not; or else where it belongs. It is looked for first at the very place where
/// it stands if the ids rise by one from the first up to it.
#[inline(always)]
fn find<T: Copy>(hints: &Hints, items: &[Item<T>], id: u32) -> Result<usize, usize>
    requires { RiseFrom 0 items.now }
    ensures { IsFound items.now id result }
{
    let front = after_first(items, id);
    if front < items.len() {
        if items[front].id == id {
            return Ok(front);
        }
    }
    look_up(hints, items, id)
}

/// How far an id is from the first.
#[inline(always)]
fn after_first<T: Copy>(items: &[Item<T>], id: u32) -> usize {
    match items.get(0) {
        Some(first) => id.wrapping_sub(first.id) as usize,
        None => 0,
    }
}

/// The place of an id, or else where it belongs, where it is not at the very place.
#[inline(never)]
fn look_up<T: Copy>(hints: &Hints, items: &[Item<T>], id: u32) -> Result<usize, usize>
    requires { RiseFrom 0 items.now }
    ensures { IsFound items.now id result }
{
    let likely = guess(hints, items, id as u64);
    if likely < items.len() {
        if items[likely].id == id {
            return Ok(likely);
        }
    }
    let at = lower_near(items, likely, id as u64);
    if at < items.len() {
        if items[at].id == id {
            return Ok(at);
        }
    }
    Err(at)
}

/// A place near which the number may belong: the very place, where the ids rise by one from the first up to it; and else by what was
/// learned, if that is of the number; and else the very place, where the ids rise by one from it up to the last.
fn guess<T: Copy>(hints: &Hints, items: &[Item<T>], id: u64) -> usize {
    if items.is_empty() {
        return 0;
    }
    let last = items.len() - 1;
    let front = id.saturating_sub(items[0].id as u64) as usize;
    if front <= last {
        if items[front].id as u64 == id {
            return front;
        }
    }
    if let Some(place) = hints.place(id) {
        return place.min(last);
    }
    let back = last.saturating_sub((items[last].id as u64).saturating_sub(id) as usize);
    if items[back].id as u64 == id {
        return back;
    }
    let between = even_place(items[0].id as u64, items[last].id as u64, last as u64, id);
    between.min(front as u64).max(back as u64) as usize
}

/// Where a number belongs if the ids rise evenly from the first to the last.
fn even_place(first: u64, end: u64, last: u64, id: u64) -> u64 {
    let span = end.saturating_sub(first).max(1);
    let after = id.saturating_sub(first).min(span);
    after.saturating_mul(last) / span
}

/// Takes out the items of which nothing is left, where they are more than half.
fn tidy<T: Copy>(hints: &mut Hints, items: &mut Vec<Item<T>>, left: usize)
    ensures held { held_of items.new.items ≡ held_of items.old.items }
    ensures buried { buried_of items.new.items ≡ buried_of items.old.items }
    ensures rise { RiseFrom 0 items.old.items → RiseFrom 0 items.new.items }
    ensures capacity { vec_capacity items.new ≡ vec_capacity items.old }
    ensures len { vec_len items.new ≤ vec_len items.old }
{
    if items.len() / 2 > left {
        drop_empty(items);
        learn(hints, items.as_slice());
    }
}

/// Learns where the ids stand. Takes no memory.
fn learn<T: Copy>(hints: &mut Hints, items: &[Item<T>]) {
    if items.is_empty() {
        hints.start(0, 0);
        return;
    }
    hints.start(items[0].id, items[items.len() - 1].id);
    let mut before: u32 = 0;
    for item in items {
        hints.learn(item.id, before);
        before = before.saturating_add(1);
    }
    hints.end(before);
}

/// Takes out the items of which nothing is left.
fn drop_empty<T: Copy>(items: &mut Vec<Item<T>>)
    ensures items { items.new.items ≡ filter is_left items.old.items }
    ensures capacity { vec_capacity items.new ≡ vec_capacity items.old }
    ensures len { vec_len items.new ≤ vec_len items.old }
{
    items.retain(|e| is_left(e));
}

/// Leaves the items of which something is held.
fn keep_held<T: Copy>(items: &mut Vec<Item<T>>)
    ensures items { items.new.items ≡ filter is_held items.old.items }
    ensures capacity { vec_capacity items.new ≡ vec_capacity items.old }
    ensures len { vec_len items.new ≤ vec_len items.old }
{
    items.retain(|e| is_held(e));
}

/// Whether something is held of the id.
fn is_held<T: Copy>(item: &Item<T>) -> bool
    ensures { result ≡ is_held item.now }
{
    item.held.is_some()
}

/// Whether something is held or buried of the id.
fn is_left<T: Copy>(item: &Item<T>) -> bool
    ensures { result ≡ is_left item.now }
{
    item.held.is_some() || item.buried.is_some()
}

/// Puts a row under an id, where nothing is held of it.
fn put<T: Copy>(hints: &Hints, items: &mut Vec<Item<T>>, id: u32, row: T) -> Result<(), NoMemory>
    requires { RiseFrom 0 items.old.items }
    ensures ok { OnOk result (Holds items.old.items items.new.items id row) }
    ensures err { OnErr result
        ((items.new.items ≡ items.old.items) × (vec_capacity items.new ≡ vec_capacity items.old)) }
    ensures memory { OnErr result (vec_capacity items.old ≤ vec_len items.old) }
    ensures room { vec_capacity items.old - vec_len items.old ≤
        (vec_capacity items.new - vec_len items.new) + 1 }
{
    match find(hints, items.as_slice(), id) {
        Ok(at) => {
            let item = items[at];
            items[at] = Item {
                held: Some(row),
                ..item
            };
            Ok(())
        }
        Err(at) => {
            items.reserve(1)?;
            items.insert(
                at,
                Item {
                    id,
                    held: Some(row),
                    buried: None,
                },
            )?;
            Ok(())
        }
    }
}

/// How many of the items have ids below a number.
fn lower<T: Copy>(hints: &Hints, items: &[Item<T>], id: u64) -> usize
    requires { RiseFrom 0 items.now }
    ensures { IsLower id result items.now }
{
    lower_near(items, guess(hints, items, id), id)
}

/// The same, where the number is looked for near a place.
fn lower_near<T: Copy>(items: &[Item<T>], near: usize, id: u64) -> usize
    requires { RiseFrom 0 items.now }
    ensures { IsLower id result items.now }
{
    let (from, to) = around(items, near, id);
    let mut low = from;
    let mut high = to;
    while low < high {
        let mid = low + (high - low) / 2;
        if (items[mid].id as u64) < id {
            low = mid + 1;
        } else {
            high = mid;
        }
    }
    low
}

/// Two places between which a number belongs, near a place.
fn around<T: Copy>(items: &[Item<T>], at: usize, id: u64) -> (usize, usize)
    requires { RiseFrom 0 items.now }
    ensures { IsAround id items.now result }
{
    if at >= items.len() {
        return downward(items, id, items.len());
    }
    if (items[at].id as u64) < id {
        upward(items, id, at)
    } else {
        downward(items, id, at)
    }
}

/// The next step, twice as long.
fn next_step(step: usize) -> usize
    requires { 0 < step }
    ensures { 0 < result }
{
    if step < 1_000_000_000 { step * 2 } else { step }
}

/// The same, where the number belongs after the place. Each step is twice as long as the one before.
fn upward<T: Copy>(items: &[Item<T>], id: u64, at: usize) -> (usize, usize)
    requires rise { RiseFrom 0 items.now }
    requires after { at < length items.now }
    requires below { AreBelow id (at + 1) items.now }
    ensures { IsAround id items.now result }
{
    let mut low = at;
    let mut step = 1;
    while step < items.len() - low {
        if items[low + step].id as u64 >= id {
            return (low + 1, low + step);
        }
        low += step;
        step = next_step(step);
    }
    (low + 1, items.len())
}

/// The same, where the number belongs at the place or before.
fn downward<T: Copy>(items: &[Item<T>], id: u64, at: usize) -> (usize, usize)
    requires rise { RiseFrom 0 items.now }
    requires inside { at ≤ length items.now }
    requires over { AreOver id at items.now }
    ensures { IsAround id items.now result }
{
    let mut high = at;
    let mut step = 1;
    while step <= high {
        if (items[high - step].id as u64) < id {
            return (high - step + 1, high);
        }
        high -= step;
        step = next_step(step);
    }
    (0, high)
}

/// The first id from a place on of which something is held.
fn first_held<T: Copy>(items: &[Item<T>], from: usize) -> Option<u32>
    ensures { result ≡ slice_get (map_list (λ e. e.0) (held_of (drop from items.now))) 0 }
{
    let mut at = from;
    while at < items.len() {
        if items[at].held.is_some() {
            return Some(items[at].id);
        }
        at += 1;
    }
    None
}

/// The first id from a place on of which something is buried.
fn first_buried<T: Copy>(items: &[Item<T>], from: usize) -> Option<u32>
    ensures { result ≡ slice_get (map_list (λ e. e.0) (buried_of (drop from items.now))) 0 }
{
    let mut at = from;
    while at < items.len() {
        if items[at].buried.is_some() {
            return Some(items[at].id);
        }
        at += 1;
    }
    None
}
