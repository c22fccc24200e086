//! Copies of lines.
ghost use Rattle.std.specs.Prelude.{◌≡◌, IfOk};

use edit_base::Change;
use grid_base::{NoMemory, copy_of};
use log_text::{LogLine, NewIds};
use std::alloc::Global;

// The same edit.
fn copy_of_change(alloc: Global, change: &Change) -> Result<Change, NoMemory>
    ensures { IfOk result (λ copy. copy ≡ change.now) }
{
    match change {
        Change::Split { a, b, w, at } => Ok(Change::Split {
            a: *a,
            b: *b,
            w: *w,
            at: *at,
        }),
        Change::Flip { a, b } => Ok(Change::Flip { a: *a, b: *b }),
        Change::Collapse { a, b, at } => Ok(Change::Collapse {
            a: *a,
            b: *b,
            at: *at,
        }),
        Change::Zip { a, b, e, f, turn } => Ok(Change::Zip {
            a: *a,
            b: *b,
            e: *e,
            f: *f,
            turn: *turn,
        }),
        Change::Pinch { v, at, copies } => Ok(Change::Pinch {
            v: *v,
            at: *at,
            copies: copy_of(alloc, copies.as_slice())?,
        }),
    }
}

// The same ids.
fn copy_of_ids(alloc: Global, new: &NewIds) -> Result<NewIds, NoMemory>
    ensures { IfOk result (λ copy. copy ≡ new.now) }
{
    Ok(NewIds {
        next: new.next,
        ids: copy_of(alloc, new.ids.as_slice())?,
    })
}

/// The same line.
pub fn copy_of_line(alloc: Global, line: &LogLine) -> Result<LogLine, NoMemory>
    ensures { IfOk result (λ copy. copy ≡ line.now) }
{
    match line {
        LogLine::First { version } => Ok(LogLine::First { version: *version }),
        LogLine::Mesh { k, vertices, faces } => Ok(LogLine::Mesh {
            k: *k,
            vertices: *vertices,
            faces: *faces,
        }),
        LogLine::Step { k } => Ok(LogLine::Step { k: *k }),
        LogLine::Vertices(new) => Ok(LogLine::Vertices(copy_of_ids(alloc, new)?)),
        LogLine::Faces(new) => Ok(LogLine::Faces(copy_of_ids(alloc, new)?)),
        LogLine::Solid { v } => Ok(LogLine::Solid { v: *v }),
        LogLine::Hit(pair) => Ok(LogLine::Hit(*pair)),
        LogLine::Block(ids) => Ok(LogLine::Block(copy_of(alloc, ids.as_slice())?)),
        LogLine::Move(s) => Ok(LogLine::Move(*s)),
        LogLine::Moved(how) => Ok(LogLine::Moved(*how)),
        LogLine::Pass(kind) => Ok(LogLine::Pass(*kind)),
        LogLine::PassFit => Ok(LogLine::PassFit),
        LogLine::Did(change) => Ok(LogLine::Did(copy_of_change(alloc, change)?)),
        LogLine::No { what, why } => Ok(LogLine::No {
            what: *what,
            why: *why,
        }),
        LogLine::Group => Ok(LogLine::Group),
        LogLine::Close { kept } => Ok(LogLine::Close { kept: *kept }),
        LogLine::Refused(why) => Ok(LogLine::Refused(*why)),
        LogLine::End => Ok(LogLine::End),
    }
}
