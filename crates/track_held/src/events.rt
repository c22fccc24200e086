//! What a log tells, as numbers.
ghost use Rattle.std.specs.Prelude.{◌≡◌, ◌++◌, map, IfOk, OnOk};
ghost use Rattle.track_held.specs.Events.{event_of, event_at, copy_event, edit_events, closing_kind, line_events, log_events};

use edit_base::{Change, CopyAt};
use grid_base::{Items, NoMemory, Point};
use log_text::LogLine;
use std::alloc::Global;

/// What a line of a log tells that changes the surface or a group: the kind, up to four numbers, and a point or a shift.
#[repr(C)]
#[derive(Clone, Copy, Debug, PartialEq, Eq)]
pub struct Event {
    pub kind: u32,
    pub a: u32,
    pub b: u32,
    pub c: u32,
    pub d: u32,
    pub x: i32,
    pub y: i32,
    pub z: i32,
}

/// Events, in order.
pub type Events = Items<Event>;

// An event with no place.
fn event_of(kind: u32, a: u32, b: u32, c: u32, d: u32) -> Event
    ensures { result ≡ event_of kind a b c d }
{
    Event {
        kind,
        a,
        b,
        c,
        d,
        x: 0,
        y: 0,
        z: 0,
    }
}

// An event at a place.
fn event_at(kind: u32, a: u32, b: u32, c: u32, at: Point) -> Event
    ensures { result ≡ event_at kind a b c at }
{
    Event {
        kind,
        a,
        b,
        c,
        d: 0,
        x: at.x,
        y: at.y,
        z: at.z,
    }
}

// The event of a copy of a vertex.
fn copy_event(v: u32, copy: &CopyAt) -> Event
    ensures { result ≡ copy_event v copy.now }
{
    event_at(6, v, copy.w.0, 0, copy.at)
}

// The events of copies of a vertex.
fn put_copies(v: u32, copies: &[CopyAt], events: &mut Events) -> Result<(), NoMemory>
    ensures { OnOk result (events.new ≡ events.old ++ map (copy_event v) copies.now) }
{
    for copy in copies {
        events.push(copy_event(v, copy))?;
    }
    Ok(())
}

// The events of a done edit.
fn put_edit(change: &Change, events: &mut Events) -> Result<(), NoMemory>
    ensures { OnOk result (events.new ≡ events.old ++ edit_events change.now) }
{
    match change {
        Change::Split { a, b, w, at } => events.push(event_at(2, a.0, b.0, w.0, *at)),
        Change::Flip { a, b } => events.push(event_of(3, a.0, b.0, 0, 0)),
        Change::Collapse { a, b, at } => events.push(event_at(4, a.0, b.0, 0, *at)),
        Change::Zip {
            a,
            b,
            e,
            f,
            turn: _,
        } => events.push(event_of(5, a.0, b.0, e.0, f.0)),
        Change::Pinch { v, at, copies } => {
            events.push(event_at(6, v.0, v.0, 0, *at))?;
            put_copies(v.0, copies.as_slice(), events)
        }
    }
}

// The kind of the event of a group that ends.
fn closing_kind(kept: bool) -> u32
    ensures { result ≡ closing_kind kept }
{
    if kept { 9 } else { 10 }
}

// The events of a line.
fn put_line(line: &LogLine, events: &mut Events) -> Result<(), NoMemory>
    ensures { OnOk result (events.new ≡ events.old ++ line_events line.now) }
{
    match line {
        LogLine::Move(s) => {
            let place = Event {
                kind: 1,
                a: s.v.0,
                b: 0,
                c: 0,
                d: 0,
                x: s.by.x,
                y: s.by.y,
                z: s.by.z,
            };
            events.push(place)
        }
        LogLine::Did(change) => put_edit(change, events),
        LogLine::Solid { v } => events.push(event_of(7, v.0, 0, 0, 0)),
        LogLine::Group => events.push(event_of(8, 0, 0, 0, 0)),
        LogLine::Close { kept } => events.push(event_of(closing_kind(*kept), 0, 0, 0, 0)),
        _ => Ok(()),
    }
}

/// The events of lines, in order. NoMemory at any lines.
pub fn events_of(alloc: Global, lines: &[LogLine]) -> Result<Events, NoMemory>
    ensures { IfOk result (λ events. events ≡ log_events lines.now) }
{
    let mut events = Events::new(alloc);
    for line in lines {
        put_line(line, &mut events)?;
    }
    Ok(events)
}
