ghost use Rattle.std.specs.Prelude.{◌∷◌, [], decimal, OnErr};
ghost use Rattle.line_text.specs.WrittenLines.{Keeps, Appends};
ghost use Rattle.log_text.specs.Lines as spec;

use crate::fields::{put_place, put_places, put_spaced, put_words};
use crate::log_line::LogLine;
use edit_base::{Asked, Change, Copies, CopyAt, PassKind, Why};
use grid_base::{NoMemory, Point};
use line_text::Field;
use mesh_base::{PairName, VertexId};

pub(crate) fn print_pass(pass: PassKind, into: &mut Vec<u8>) -> Result<(), NoMemory>
    ensures ok { Appends result into.old into.new (spec.text_of_line (LogLine.Pass pass)) }
    ensures err { OnErr result (Keeps into.old.items into.new.items) }
{
    let name = Field::Text(b"pass");
    let (kind, length) = match pass {
        PassKind::Split { over } => (Field::Text(b"split"), over),
        PassKind::Collapse { under } => (Field::Text(b"collapse"), under),
        PassKind::Zip { within } => (Field::Text(b"zip"), within),
        PassKind::Flip => return put_words(&[name, Field::Text(b"flip")], into),
        PassKind::Pinch => return put_words(&[name, Field::Text(b"pinch")], into),
    };
    put_words(&[name, kind, Field::Number(u64::from(length))], into)
}

// Appends the vertex, and then each copy, with its point, each word with a space in front.
fn put_fans(v: VertexId, at: Point, copies: &[CopyAt], into: &mut Vec<u8>) -> Result<(), NoMemory>
    ensures ok { Appends result into.old into.new (spec.spaced_pinch v at copies.now) }
    ensures err { OnErr result (Keeps into.old.items into.new.items) }
{
    put_place(CopyAt { w: v, at }, into)?;
    put_places(copies, into)
}

fn print_pinch(v: VertexId, at: Point, copies: &Copies, into: &mut Vec<u8>) -> Result<(), NoMemory>
    ensures ok { Appends result into.old into.new (spec.done_text (Change.Pinch v at copies.now)) }
    ensures err { OnErr result (Keeps into.old.items into.new.items) }
{
    into.extend_from_slice(b"pinch")?;
    put_fans(v, at, copies.as_slice(), into)?;
    into.push(b'\n')?;
    Ok(())
}

fn print_split(
    a: VertexId,
    b: VertexId,
    w: VertexId,
    at: Point,
    into: &mut Vec<u8>,
) -> Result<(), NoMemory>
    ensures ok { Appends result into.old into.new (spec.done_text (Change.Split a b w at)) }
    ensures err { OnErr result (Keeps into.old.items into.new.items) }
{
    put_words(
        &[
            Field::Text(b"split"),
            Field::Number(u64::from(a.0)),
            Field::Number(u64::from(b.0)),
            Field::Number(u64::from(w.0)),
            Field::Signed(at.x),
            Field::Signed(at.y),
            Field::Signed(at.z),
        ],
        into,
    )
}

fn print_flip(a: VertexId, b: VertexId, into: &mut Vec<u8>) -> Result<(), NoMemory>
    ensures ok { Appends result into.old into.new (spec.done_text (Change.Flip a b)) }
    ensures err { OnErr result (Keeps into.old.items into.new.items) }
{
    put_words(
        &[
            Field::Text(b"flip"),
            Field::Number(u64::from(a.0)),
            Field::Number(u64::from(b.0)),
        ],
        into,
    )
}

fn print_collapse(a: VertexId, b: VertexId, end: Point, into: &mut Vec<u8>) -> Result<(), NoMemory>
    ensures ok { Appends result into.old into.new (spec.done_text (Change.Collapse a b end)) }
    ensures err { OnErr result (Keeps into.old.items into.new.items) }
{
    put_words(
        &[
            Field::Text(b"collapse"),
            Field::Number(u64::from(a.0)),
            Field::Number(u64::from(b.0)),
            Field::Signed(end.x),
            Field::Signed(end.y),
            Field::Signed(end.z),
        ],
        into,
    )
}

fn print_zip(
    a: VertexId,
    b: VertexId,
    e: VertexId,
    f: VertexId,
    turn: u8,
    into: &mut Vec<u8>,
) -> Result<(), NoMemory>
    ensures ok { Appends result into.old into.new (spec.done_text (Change.Zip a b e f turn)) }
    ensures err { OnErr result (Keeps into.old.items into.new.items) }
{
    put_words(
        &[
            Field::Text(b"zip"),
            Field::Number(u64::from(a.0)),
            Field::Number(u64::from(b.0)),
            Field::Number(u64::from(e.0)),
            Field::Number(u64::from(f.0)),
            Field::Number(u64::from(turn)),
        ],
        into,
    )
}

pub(crate) fn print_change(change: &Change, into: &mut Vec<u8>) -> Result<(), NoMemory>
    ensures ok { Appends result into.old into.new (spec.text_of_line (LogLine.Did change.now)) }
    ensures err { OnErr result (Keeps into.old.items into.new.items) }
{
    match change {
        Change::Split { a, b, w, at } => print_split(*a, *b, *w, *at, into),
        Change::Flip { a, b } => print_flip(*a, *b, into),
        Change::Collapse { a, b, at } => print_collapse(*a, *b, *at, into),
        Change::Zip { a, b, e, f, turn } => print_zip(*a, *b, *e, *f, *turn, into),
        Change::Pinch { v, at, copies } => print_pinch(*v, *at, copies, into),
    }
}

// Appends a word and an edge, each word with a space in front.
fn put_edge(word: &[u8], a: VertexId, b: VertexId, into: &mut Vec<u8>) -> Result<(), NoMemory>
    ensures ok { let words = word.now ∷ decimal a ∷ decimal b ∷ [] in
        Appends result into.old into.new (spec.spaced words) }
    ensures err { OnErr result (Keeps into.old.items into.new.items) }
{
    put_spaced(
        &[
            Field::Text(word),
            Field::Number(u64::from(a.0)),
            Field::Number(u64::from(b.0)),
        ],
        into,
    )
}

// Appends that a zip of two edges was asked for, each word with a space in front.
fn put_zip(
    a: VertexId,
    b: VertexId,
    e: VertexId,
    f: VertexId,
    into: &mut Vec<u8>,
) -> Result<(), NoMemory>
    ensures ok { let what = Asked.Zip a b e f in
        Appends result into.old into.new (spec.spaced (spec.asked_words what)) }
    ensures err { OnErr result (Keeps into.old.items into.new.items) }
{
    put_spaced(
        &[
            Field::Text(b"zip"),
            Field::Number(u64::from(a.0)),
            Field::Number(u64::from(b.0)),
            Field::Number(u64::from(e.0)),
            Field::Number(u64::from(f.0)),
        ],
        into,
    )
}

// Appends what was asked, each word with a space in front.
fn put_asked(what: Asked, into: &mut Vec<u8>) -> Result<(), NoMemory>
    ensures ok { Appends result into.old into.new (spec.spaced (spec.asked_words what)) }
    ensures err { OnErr result (Keeps into.old.items into.new.items) }
{
    match what {
        Asked::Split { a, b } => put_edge(b"split", a, b, into),
        Asked::Flip { a, b } => put_edge(b"flip", a, b, into),
        Asked::Collapse { a, b } => put_edge(b"collapse", a, b, into),
        Asked::Zip { a, b, e, f } => put_zip(a, b, e, f, into),
        Asked::Pinch { v } => put_spaced(
            &[Field::Text(b"pinch"), Field::Number(u64::from(v.0))],
            into,
        ),
    }
}

// Appends that a pair meets, each word with a space in front.
fn put_hit(pair: PairName, into: &mut Vec<u8>) -> Result<(), NoMemory>
    ensures ok { let why = Why.Hit pair in
        Appends result into.old into.new (spec.spaced (spec.reason_words why)) }
    ensures err { OnErr result (Keeps into.old.items into.new.items) }
{
    put_spaced(
        &[
            Field::Text(b"hit"),
            Field::Number(u64::from(pair.a.0)),
            Field::Number(u64::from(pair.b.0)),
            Field::Number(u64::from(pair.face.0)),
        ],
        into,
    )
}

// Appends why an edit isn't done, each word with a space in front.
fn put_reason(why: Why, into: &mut Vec<u8>) -> Result<(), NoMemory>
    ensures ok { Appends result into.old into.new (spec.spaced (spec.reason_words why)) }
    ensures err { OnErr result (Keeps into.old.items into.new.items) }
{
    let word: &[u8] = match why {
        Why::NoEdge => b"noedge",
        Why::Crowded => b"crowded",
        Why::Edge => b"edge",
        Why::Shared => b"shared",
        Why::Full => b"full",
        Why::Doubled => b"doubled",
        Why::OneFan => b"onefan",
        Why::Hit(pair) => return put_hit(pair, into),
        Why::Solid => b"solid",
    };
    put_spaced(&[Field::Text(word)], into)
}

// Appends what was asked and why it isn't done, each word with a space in front.
fn put_refused(what: Asked, why: Why, into: &mut Vec<u8>) -> Result<(), NoMemory>
    ensures ok { Appends result into.old into.new (spec.spaced_refusal what why) }
    ensures err { OnErr result (Keeps into.old.items into.new.items) }
{
    put_asked(what, into)?;
    put_reason(why, into)
}

pub(crate) fn print_no(what: Asked, why: Why, into: &mut Vec<u8>) -> Result<(), NoMemory>
    ensures ok { Appends result into.old into.new (spec.text_of_line (LogLine.No what why)) }
    ensures err { OnErr result (Keeps into.old.items into.new.items) }
{
    into.extend_from_slice(b"no")?;
    put_refused(what, why, into)?;
    into.push(b'\n')?;
    Ok(())
}
