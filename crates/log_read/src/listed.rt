ghost use Rattle.std.specs.Prelude.{◌≡◌, ◌≤◌, ◌+◌, [], Ok, IfOk};
ghost use Rattle.grid_base.specs.declared.TheConstants.{ID_MAX};
ghost use Rattle.line_text.specs.Faults.{GivesAt};
ghost use Rattle.line_text.specs.Fields.{TakesParts};
ghost use Rattle.line_text.specs.Remaining.{parts_left};
ghost use Rattle.log_read.specs.EditLines as spec;

use crate::edit_values::place_at;
use crate::values::{count_at, number_of};
use edit_base::{Change, Copies, CopyAt};
use grid_base::{ID_MAX, Items};
use line_text::{Parts, ReadFault, TextFault, TextWhy, count_parts_up_to};
use log_text::{LogLine, NewIds};
use mesh_base::{Ids, VertexId};
use std::alloc::Global;

#[tactic(auto, unfolding(crate::specs::EditLines::at_least))]
fn at_least(ended: bool, count: usize, words: Parts<'_>) -> Result<(), TextWhy>
    ensures { result ≡ spec.at_least ended count (parts_left words.entry) }
{
    if count_parts_up_to(count, words) < count {
        return Err(TextWhy::Short);
    }
    if ended { Ok(()) } else { Err(TextWhy::Short) }
}

// The ids of vertices that the words spell, each above the one before.
fn ids(alloc: Global, words: Parts<'_>, number: u32) -> Result<Ids, ReadFault>
    ensures { GivesAt number result (spec.ids_add ID_MAX [] 1 (parts_left words.entry)) }
{
    let mut ids = Ids::new(alloc);
    let mut low = 1;
    for word in words {
        match number_of(word, low, ID_MAX) {
            Ok(v) => {
                ids.push(VertexId(v))?;
                low = v + 1;
            }
            Err(why) => return Err(ReadFault::Text(TextFault { line: number, why })),
        }
    }
    Ok(ids)
}

// The ids, of whatever kind, that the words spell, each above the one before and none above the most.
fn ids_up_to(
    alloc: Global,
    most: u32,
    words: Parts<'_>,
    number: u32,
) -> Result<Items<u32>, ReadFault>
    requires { most ≤ ID_MAX }
    ensures { GivesAt number result (spec.ids_add most [] 1 (parts_left words.entry)) }
{
    let mut ids = Items::new(alloc);
    let mut low = 1;
    for word in words {
        match number_of(word, low, most) {
            Ok(id) => {
                ids.push(id)?;
                low = id + 1;
            }
            Err(why) => return Err(ReadFault::Text(TextFault { line: number, why })),
        }
    }
    Ok(ids)
}

// The next id, where none or more stand after it.
#[tactic(auto, unfolding(crate::specs::EditLines::next_of))]
fn next_id(ended: bool, words: &mut Parts<'_>) -> Result<u32, TextWhy>
    ensures value { TakesParts words.old words.new result (spec.next_of ended) }
    ensures above { IfOk result (λ next. 1 ≤ next) }
    ensures below { IfOk result (λ next. next ≤ (ID_MAX + 1)) }
{
    at_least(ended, 1, *words)?;
    count_at(words, 1, ID_MAX + 1)
}

// The next id, and the ids that are taken.
#[tactic(auto, unfolding(crate::specs::EditLines::new_ids_of))]
pub(crate) fn new_ids(
    alloc: Global,
    ended: bool,
    words: Parts<'_>,
    number: u32,
) -> Result<NewIds, ReadFault>
    ensures { GivesAt number result (spec.new_ids_of ended (parts_left words.entry)) }
{
    let mut words = words;
    match next_id(ended, &mut words) {
        Ok(next) => {
            let ids = ids_up_to(alloc, next - 1, words, number)?;
            Ok(NewIds { next, ids })
        }
        Err(why) => Err(ReadFault::Text(TextFault { line: number, why })),
    }
}

#[tactic(auto, unfolding(crate::specs::EditLines::block_of))]
pub(crate) fn block(
    alloc: Global,
    ended: bool,
    words: Parts<'_>,
    number: u32,
) -> Result<LogLine, ReadFault>
    ensures { GivesAt number result (spec.block_of ended (parts_left words.entry)) }
{
    match at_least(ended, 2, words) {
        Ok(()) => {
            let ids = ids(alloc, words, number)?;
            Ok(LogLine::Block(ids))
        }
        Err(why) => Err(ReadFault::Text(TextFault { line: number, why })),
    }
}

// That the words stand four by four.
fn four_by_four(words: Parts<'_>) -> Result<(), TextWhy>
    ensures { result ≡ spec.four_by_four (parts_left words.entry) }
{
    let mut words = words;
    while words.next().is_some() {
        if words.next().is_none() {
            return Err(TextWhy::Short);
        }
        if words.next().is_none() {
            return Err(TextWhy::Short);
        }
        if words.next().is_none() {
            return Err(TextWhy::Short);
        }
    }
    Ok(())
}

// The places that the words spell, four words each.
fn places(alloc: Global, words: Parts<'_>, number: u32) -> Result<Copies, ReadFault>
    requires { spec.four_by_four (parts_left words) ≡ Ok tt }
    ensures { GivesAt number result (spec.places_add [] (parts_left words.entry)) }
{
    let mut places = Copies::new(alloc);
    let mut words = words;
    loop {
        let mut ahead = words;
        if ahead.next().is_none() {
            return Ok(places);
        }
        match place_at(&mut words) {
            Ok(place) => places.push(place)?,
            Err(why) => return Err(ReadFault::Text(TextFault { line: number, why })),
        }
    }
}

// The vertex and its point, where one copy or more stands after it.
#[tactic(auto, unfolding(crate::specs::EditLines::first_place))]
fn first_place(ended: bool, words: &mut Parts<'_>) -> Result<CopyAt, TextWhy>
    ensures { TakesParts words.old words.new result (spec.first_place ended) }
{
    at_least(ended, 8, *words)?;
    four_by_four(*words)?;
    place_at(words)
}

#[tactic(auto, unfolding(crate::specs::EditLines::pinch_of))]
pub(crate) fn pinch(
    alloc: Global,
    ended: bool,
    words: Parts<'_>,
    number: u32,
) -> Result<LogLine, ReadFault>
    ensures { GivesAt number result (spec.pinch_of ended (parts_left words.entry)) }
{
    let mut words = words;
    match first_place(ended, &mut words) {
        Ok(CopyAt { w, at }) => {
            let copies = places(alloc, words, number)?;
            Ok(LogLine::Did(Change::Pinch { v: w, at, copies }))
        }
        Err(why) => Err(ReadFault::Text(TextFault { line: number, why })),
    }
}
