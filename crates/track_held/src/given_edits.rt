//! Edits as a caller in C asks for them, and what came of each.
ghost use Rattle.std.specs.Prelude.{◌≡◌, ◌≤◌, ◌++◌, length, drop, map, slice_get, IfOk};
ghost use Rattle.edit_base.specs.declared.Asked.TheVariants.{Split, Flip, Collapse};
ghost use Rattle.track_held.specs.Editing.{is_id, ends, edge_edit, zip_edit, pinch_edit, edit_asked, edits_asked, done_at, done_with, first_copy, capped_number, change_told, reason_at, why_told, answer_told, RowsAskInRange, RowsAskEach};

use edit_base::{Asked, Change, Copies, Edit, Why};
use grid_base::{ID_MAX, Items, NoMemory, Point};
use mesh_base::VertexId;
use std::alloc::Global;

/// An edit that is asked for: a number for the kind, and up to four ids.
#[repr(C)]
#[derive(Clone, Copy, Debug, PartialEq, Eq)]
pub struct GivenEdit {
    pub kind: u32,
    pub a: u32,
    pub b: u32,
    pub c: u32,
    pub d: u32,
}

/// What came of an edit: 0, or a number for the reason against it; up to three numbers, and a place.
#[repr(C)]
#[derive(Clone, Copy, Debug, PartialEq, Eq)]
pub struct ToldAnswer {
    pub why: u32,
    pub a: u32,
    pub b: u32,
    pub c: u32,
    pub x: i32,
    pub y: i32,
    pub z: i32,
}

/// Edits that are asked for, in order.
pub type AskedEdits = Items<Asked>;

// Whether a vertex may have this id.
fn is_id(v: u32) -> bool
    ensures { result ≡ is_id v }
{
    1 <= v && v <= ID_MAX
}

/// The ends of an edge, the smaller first; None where one may not be an id, or both are one.
pub fn edge_ends(a: u32, b: u32) -> Option<(u32, u32)>
    ensures { result ≡ ends a b }
{
    if is_id(a) && is_id(b) {
        if a < b {
            Some((a, b))
        } else if b < a {
            Some((b, a))
        } else {
            None
        }
    } else {
        None
    }
}

// The split of an edge.
fn split_of(edge: Option<(u32, u32)>) -> Option<Asked>
    ensures { result ≡ edge_edit Split edge }
{
    match edge {
        None => None,
        Some((a, b)) => Some(Asked::Split {
            a: VertexId(a),
            b: VertexId(b),
        }),
    }
}

// The flip of an edge.
fn flip_of(edge: Option<(u32, u32)>) -> Option<Asked>
    ensures { result ≡ edge_edit Flip edge }
{
    match edge {
        None => None,
        Some((a, b)) => Some(Asked::Flip {
            a: VertexId(a),
            b: VertexId(b),
        }),
    }
}

// The collapse of an edge.
fn collapse_of(edge: Option<(u32, u32)>) -> Option<Asked>
    ensures { result ≡ edge_edit Collapse edge }
{
    match edge {
        None => None,
        Some((a, b)) => Some(Asked::Collapse {
            a: VertexId(a),
            b: VertexId(b),
        }),
    }
}

// The zip of two edges.
fn zip_of(first: Option<(u32, u32)>, second: Option<(u32, u32)>) -> Option<Asked>
    ensures { result ≡ zip_edit first second }
{
    match first {
        None => None,
        Some((a, b)) => match second {
            None => None,
            Some((e, f)) => Some(Asked::Zip {
                a: VertexId(a),
                b: VertexId(b),
                e: VertexId(e),
                f: VertexId(f),
            }),
        },
    }
}

// The pinch of a vertex.
fn pinch_of(v: u32) -> Option<Asked>
    ensures { result ≡ pinch_edit v }
{
    if is_id(v) {
        Some(Asked::Pinch { v: VertexId(v) })
    } else {
        None
    }
}

/// The edit that is asked for, by its kind, an edge by its ends in either order; None where the kind is none, one of its ids none that a vertex
/// may have, or the ends of an edge are one.
pub fn edit_asked(row: &GivenEdit) -> Option<Asked>
    ensures { result ≡ edit_asked row.now }
{
    if row.kind == 2 {
        split_of(edge_ends(row.a, row.b))
    } else if row.kind == 3 {
        flip_of(edge_ends(row.a, row.b))
    } else if row.kind == 4 {
        collapse_of(edge_ends(row.a, row.b))
    } else if row.kind == 5 {
        zip_of(edge_ends(row.a, row.b), edge_ends(row.c, row.d))
    } else if row.kind == 6 {
        pinch_of(row.a)
    } else {
        None
    }
}

/// The edits of rows, in order; None where one of the rows is none.
pub fn edits_asked(alloc: Global, rows: &[GivenEdit]) -> Result<Option<AskedEdits>, NoMemory>
    ensures { IfOk result (λ found. found ≡ edits_asked rows.now) }
{
    let mut asked = AskedEdits::new(alloc);
    for row in rows {
        let Some(what) = edit_asked(row) else {
            return Ok(None);
        };
        asked.push(what)?;
    }
    Ok(Some(asked))
}

// A done edit, with an id, a number and a place.
fn done_at(a: u32, b: u32, at: Point) -> ToldAnswer
    ensures { result ≡ done_at a b at }
{
    ToldAnswer {
        why: 0,
        a,
        b,
        c: 0,
        x: at.x,
        y: at.y,
        z: at.z,
    }
}

// A done edit of which nothing more is told than a number.
fn done_with(b: u32) -> ToldAnswer
    ensures { result ≡ done_with b }
{
    ToldAnswer {
        why: 0,
        a: 0,
        b,
        c: 0,
        x: 0,
        y: 0,
        z: 0,
    }
}

// The id of the first copy; 0, where there is none.
fn first_copy(copies: &Copies) -> u32
    ensures { result ≡ first_copy (slice_get copies.now 0) }
{
    match copies.get(0) {
        None => 0,
        Some(copy) => copy.w.0,
    }
}

/// A reason, with its place.
pub(crate) fn reason_at(why: u32, a: u32, b: u32, c: u32) -> ToldAnswer
    ensures { result ≡ reason_at why a b c }
{
    ToldAnswer {
        why,
        a,
        b,
        c,
        x: 0,
        y: 0,
        z: 0,
    }
}

/// A reason against an edit.
pub(crate) fn why_told(why: Why) -> ToldAnswer
    ensures { result ≡ why_told why }
{
    match why {
        Why::NoEdge => reason_at(1, 0, 0, 0),
        Why::Crowded => reason_at(2, 0, 0, 0),
        Why::Edge => reason_at(3, 0, 0, 0),
        Why::Shared => reason_at(4, 0, 0, 0),
        Why::Full => reason_at(5, 0, 0, 0),
        Why::Doubled => reason_at(6, 0, 0, 0),
        Why::OneFan => reason_at(7, 0, 0, 0),
        Why::Hit(pair) => reason_at(8, pair.a.0, pair.b.0, pair.face.0),
        Why::Solid => reason_at(9, 0, 0, 0),
    }
}

// A count, or the greatest number that is told.
fn capped_number(count: usize) -> u32
    ensures { result ≡ capped_number count }
{
    if count < u32::MAX as usize {
        count as u32
    } else {
        u32::MAX
    }
}

// What a done edit made.
fn change_told(change: &Change) -> ToldAnswer
    ensures { result ≡ change_told change.now }
{
    match change {
        Change::Split { a: _, b: _, w, at } => done_at(w.0, 0, *at),
        Change::Flip { a: _, b: _ } => done_with(0),
        Change::Collapse { a, b: _, at } => done_at(a.0, 0, *at),
        Change::Zip {
            a: _,
            b: _,
            e: _,
            f: _,
            turn,
        } => done_with(u32::from(*turn)),
        Change::Pinch { v: _, at, copies } => done_at(
            first_copy(copies),
            capped_number(copies.len()),
            *at,
        ),
    }
}

/// What came of an edit.
pub fn answer_told(answer: &Edit) -> ToldAnswer
    ensures { result ≡ answer_told answer.now }
{
    match answer {
        Edit::Done(change) => change_told(change),
        Edit::No(why) => why_told(*why),
    }
}

/// Sets the first places to what came of edits. There is room for all of them.
pub fn put_answers(answers: &[Edit], into: &mut [ToldAnswer])
    requires { length answers.now ≤ length into.old }
    ensures { into.new ≡ map answer_told answers.now ++ drop (length answers.now) into.old }
{
    for (i, answer) in answers.iter().enumerate() {
        into[i] = answer_told(answer);
    }
}

/// Each edit of rows is in the log's ranges, so that its line is read again; and there are as many edits as rows.
pub fn rows_ask_in_range()
    ensures ranges { RowsAskInRange }
    ensures each { RowsAskEach }
{}
