ghost use Rattle.std.specs.Prelude.{◌≡◌, ◌≤◌, ◌+◌, Ok, length, IfOk, IfSome};
ghost use Rattle.grid_base.specs.declared.TheConstants.{TEXT_MAX};
ghost use Rattle.line_text.specs.Faults.{Gives, Leaves, at_line};
ghost use Rattle.line_text.specs.Remaining.{words_left};
ghost use Rattle.step_text.specs.Steps as spec;
ghost use Rattle.step_text.specs.Laws.{line_count};
ghost use Rattle.step_text.specs.Ranges.{AreInRange, AreOnLines, AreNested};

use crate::directive::{Directive, Directives, Placed};
use crate::{GROUPS_MAX, PASSES_MAX};
use edit_base::PassKind;
use grid_base::{DEPTH_MAX, HALVINGS_MAX, ID_MAX, LENGTH_MAX, SHIFT_MAX, Shift};
use line_text::{
    Lines, ReadFault, TextFault, TextWhy, Words, count_is, is_word, number_at, shift_with,
    signed_at, words,
};
use mesh_plain::FieldName;
use std::alloc::Global;

#[tactic(auto, unfolding(crate::specs::Steps::set_of))]
fn set(words: Words<'_>) -> Result<Directive, TextWhy>
    ensures { result ≡ spec.set_of (words_left words.entry) }
{
    let mut words = words;
    let Some(name) = words.next() else {
        return Err(TextWhy::Short);
    };
    if is_word(name, b"depth") {
        count_is(1, words)?;
        let depth = number_at(&mut words, 0, u32::from(DEPTH_MAX))?;
        return Ok(Directive::SetDepth(depth as u8));
    }
    if is_word(name, b"passes") {
        count_is(1, words)?;
        let passes = number_at(&mut words, 0, u32::from(PASSES_MAX))?;
        return Ok(Directive::SetPasses(passes as u8));
    }
    if is_word(name, b"zones") {
        count_is(1, words)?;
        let zones = number_at(&mut words, 0, 1)?;
        return Ok(Directive::SetZones(zones == 1));
    }
    if is_word(name, b"halvings") {
        count_is(1, words)?;
        let halvings = number_at(&mut words, 0, u32::from(HALVINGS_MAX))?;
        return Ok(Directive::SetHalvings(halvings as u8));
    }
    Err(TextWhy::Unknown)
}

#[tactic(auto, unfolding(crate::specs::Steps::shift_at))]
fn shift_at(words: Words<'_>) -> Result<Shift, TextWhy>
    ensures { result ≡ spec.shift_at (words_left words.entry) }
{
    let mut words = words;
    let x = signed_at(&mut words, SHIFT_MAX)?;
    let y = signed_at(&mut words, SHIFT_MAX)?;
    let z = signed_at(&mut words, SHIFT_MAX)?;
    Ok(shift_with(x, y, z))
}

#[tactic(auto, unfolding(crate::specs::Steps::shift_one_of))]
fn shift_one(words: Words<'_>) -> Result<Directive, TextWhy>
    ensures { result ≡ spec.shift_one_of (words_left words.entry) }
{
    let mut words = words;
    let v = number_at(&mut words, 1, ID_MAX)?;
    let by = shift_at(words)?;
    Ok(Directive::ShiftOne { v, by })
}

// The shift of one vertex, where the words are its id and three components: read in one go. None says nothing.
fn whole_shift(words: Words<'_>) -> Option<Directive>
    ensures four { IfSome result (λ _. length (words_left words.entry) ≡ 4) }
    ensures value { IfSome result (λ d. spec.shift_one_of (words_left words.entry) ≡ Ok d) }
{
    let mut words = words;
    let Ok(v) = number_at(&mut words, 1, ID_MAX) else {
        return None;
    };
    let Ok(x) = signed_at(&mut words, SHIFT_MAX) else {
        return None;
    };
    let Ok(y) = signed_at(&mut words, SHIFT_MAX) else {
        return None;
    };
    let Ok(z) = signed_at(&mut words, SHIFT_MAX) else {
        return None;
    };
    let None = words.next() else {
        return None;
    };
    let by = shift_with(x, y, z);
    Some(Directive::ShiftOne { v, by })
}

#[tactic(auto, unfolding(crate::specs::Steps::shift_of))]
fn shift(words: Words<'_>) -> Result<Directive, TextWhy>
    ensures { result ≡ spec.shift_of (words_left words.entry) }
{
    let mut behind = words;
    let Some(who) = behind.next() else {
        return Err(TextWhy::Short);
    };
    if is_word(who, b"all") {
        count_is(3, behind)?;
        let by = shift_at(behind)?;
        return Ok(Directive::ShiftAll { by });
    }
    if let Some(one) = whole_shift(words) {
        return Ok(one);
    }
    count_is(3, behind)?;
    shift_one(words)
}

// The name of the field that drives.
#[tactic(auto, unfolding(crate::specs::Steps::drive_of))]
fn drive(words: Words<'_>) -> Result<Directive, TextWhy>
    ensures { result ≡ spec.drive_of (words_left words.entry) }
{
    let mut words = words;
    let Some(word) = words.next() else {
        return Err(TextWhy::Short);
    };
    count_is(0, words)?;
    match FieldName::new(word) {
        Some(name) => Ok(Directive::Drive { name }),
        None => Err(TextWhy::Range),
    }
}

#[tactic(auto, unfolding(crate::specs::Steps::solid_of))]
fn solid(words: Words<'_>) -> Result<Directive, TextWhy>
    ensures { result ≡ spec.solid_of (words_left words.entry) }
{
    let mut words = words;
    count_is(1, words)?;
    let v = number_at(&mut words, 1, ID_MAX)?;
    Ok(Directive::Solid { v })
}

// The length that a pass goes by.
#[tactic(auto, unfolding(crate::specs::Steps::length_of))]
fn length(words: Words<'_>) -> Result<u32, TextWhy>
    ensures { result ≡ spec.length_of (words_left words.entry) }
{
    let mut words = words;
    count_is(1, words)?;
    number_at(&mut words, 0, LENGTH_MAX)
}

#[tactic(auto, unfolding(crate::specs::Steps::without_more_words))]
fn without_more_words(directive: Directive, words: Words<'_>) -> Result<Directive, TextWhy>
    ensures { result ≡ spec.without_more_words directive (words_left words.entry) }
{
    count_is(0, words)?;
    Ok(directive)
}

#[tactic(auto, unfolding(crate::specs::Steps::directive_of))]
fn directive(first: &[u8], words: Words<'_>) -> Result<Directive, TextWhy>
    ensures { result ≡ spec.directive_of first.now (words_left words.entry) }
{
    if is_word(first, b"set") {
        return set(words);
    }
    if is_word(first, b"shift") {
        return shift(words);
    }
    if is_word(first, b"drive") {
        return drive(words);
    }
    if is_word(first, b"solid") {
        return solid(words);
    }
    if is_word(first, b"step") {
        return without_more_words(Directive::Step, words);
    }
    if is_word(first, b"split") {
        let over = length(words)?;
        return Ok(Directive::Pass(PassKind::Split { over }));
    }
    if is_word(first, b"collapse") {
        let under = length(words)?;
        return Ok(Directive::Pass(PassKind::Collapse { under }));
    }
    if is_word(first, b"flip") {
        return without_more_words(Directive::Pass(PassKind::Flip), words);
    }
    if is_word(first, b"zip") {
        let within = length(words)?;
        return Ok(Directive::Pass(PassKind::Zip { within }));
    }
    if is_word(first, b"pinch") {
        return without_more_words(Directive::Pass(PassKind::Pinch), words);
    }
    if is_word(first, b"fit") {
        return without_more_words(Directive::Fit, words);
    }
    if is_word(first, b"save") {
        return without_more_words(Directive::Save, words);
    }
    if is_word(first, b"group") {
        return without_more_words(Directive::Group, words);
    }
    if is_word(first, b"close") {
        return without_more_words(Directive::Close, words);
    }
    Err(TextWhy::Unknown)
}

// Opens the group of a line, or closes the innermost one, if the directive is to.
fn nest(groups: &mut Vec<u32>, what: &Directive, line: u32) -> Result<(), ReadFault>
    ensures { Leaves groups.new.items result
        (at_line line (spec.groups_behind line what.now groups.old.items)) }
{
    let why = TextWhy::Nesting;
    match what {
        Directive::Group => {
            if groups.len() >= GROUPS_MAX {
                return Err(ReadFault::Text(TextFault { line, why }));
            }
            groups.push(line)?;
            Ok(())
        }
        Directive::Close => match groups.pop() {
            None => Err(ReadFault::Text(TextFault { line, why })),
            Some(_line) => Ok(()),
        },
        _ => Ok(()),
    }
}

// Adds the directive of a line of these words, if it has any.
#[tactic(auto, unfolding(crate::specs::Steps::words_add))]
fn add_words(
    directives: &mut Directives,
    groups: &mut Vec<u32>,
    words: Words<'_>,
    line: u32,
) -> Result<(), ReadFault>
    ensures value { Leaves (spec.so_far directives.new groups.new.items) result
        (at_line line
        (spec.words_add line (spec.so_far directives.old groups.old.items)
        (words_left words.entry))) }
    ensures more { length directives.new ≤ length directives.old + 1 }
{
    let mut words = words;
    let Some(first) = words.next() else {
        return Ok(());
    };
    match directive(first, words) {
        Ok(what) => {
            nest(groups, &what, line)?;
            directives.push(Placed { line, what })?;
            Ok(())
        }
        Err(why) => Err(ReadFault::Text(TextFault { line, why })),
    }
}

// The directives, where no group is open.
fn check_closed(directives: Directives, groups: &[u32]) -> Result<Directives, ReadFault>
    ensures value { Gives (λ d. d) result (spec.closed_or_nesting directives groups.now) }
    ensures same { IfOk result (λ d. d ≡ directives) }
{
    match groups.first() {
        None => Ok(directives),
        Some(outermost) => Err(ReadFault::Text(TextFault {
            line: *outermost,
            why: TextWhy::Nesting,
        })),
    }
}

/// The directives of a step text, or the first line outside its grammar with the reason. Nesting is the last reason of a line:
/// a group would be open after `GROUPS_MAX` others, or a close has none. Where no line has a fault and groups are left open,
/// it is the reason of the outermost one's line.
pub fn read_steps(alloc: Global, bytes: &[u8]) -> Result<Directives, ReadFault>
    requires { length bytes.now ≤ TEXT_MAX }
    ensures value { Gives (λ d. d) result (spec.steps_of bytes.now) }
    ensures few { IfOk result (λ d. length d ≤ TEXT_MAX) }
    // Settings, ids and lengths are within their limits.
    ensures ranges { IfOk result AreInRange }
    // Each directive is on a line of the text.
    ensures lines { IfOk result (AreOnLines (line_count bytes.now)) }
    // No close lacks its group, no group lies too deep, and none is left open.
    ensures nested { IfOk result (λ d. AreNested 0 d 0) }
{
    let mut directives = Directives::new(alloc);
    let mut groups = Vec::new(alloc);
    for line in Lines::new(bytes) {
        add_words(&mut directives, &mut groups, words(line.bytes), line.number)?;
    }
    check_closed(directives, groups.as_slice())
}
