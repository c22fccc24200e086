ghost use Rattle.std.specs.Prelude.{◌≡◌, ◌∷◌, ◌++◌, [], codes, decimal, OnErr};
ghost use Rattle.std.specs.List.{join_with_byte};
ghost use Rattle.line_text.specs.WrittenLines.{Keeps, Appends};
ghost use Rattle.mesh_base.specs.declared.UseWhy.TheVariants.{NoField};
ghost use Rattle.log_text.specs.Lines as spec;

use crate::edit_printer::{print_change, print_no, print_pass};
use crate::fields::{print_block, print_new_ids, put_words};
use crate::log_line::{LogLine, Refusal};
use grid_base::NoMemory;
use line_text::{Field, TextFault, TextWhy};
use mesh_base::{FileWord, How, PairName, ShapeFault, ShiftOf, UseWhy, VertexId};

fn file_word(file: FileWord) -> &'static [u8]
    ensures { result.now ≡ spec.file_word file }
{
    match file {
        FileWord::Mesh => b"mesh",
        FileWord::Steps => b"steps",
        FileWord::Log => b"log",
        FileWord::Proof => b"proof",
    }
}

/// The word of a text's reason.
pub fn why_word(why: TextWhy) -> &'static [u8]
    ensures { result.now ≡ spec.why_word why }
{
    match why {
        TextWhy::Number => b"number",
        TextWhy::Corner => b"corner",
        TextWhy::Range => b"range",
        TextWhy::Short => b"short",
        TextWhy::Long => b"long",
        TextWhy::Unknown => b"unknown",
        TextWhy::Continuation => b"continuation",
        TextWhy::Nesting => b"nesting",
        TextWhy::Order => b"order",
    }
}

fn print_first(version: u8, into: &mut Vec<u8>) -> Result<(), NoMemory>
    ensures ok { Appends result into.old into.new (spec.text_of_line (LogLine.First version)) }
    ensures err { OnErr result (Keeps into.old.items into.new.items) }
{
    put_words(
        &[
            Field::Text(b"topo"),
            Field::Text(b"log"),
            Field::Number(u64::from(version)),
        ],
        into,
    )
}

fn print_mesh(k: u32, vertices: u32, faces: u32, into: &mut Vec<u8>) -> Result<(), NoMemory>
    ensures ok { Appends result into.old into.new (spec.mesh_text k vertices faces) }
    ensures err { OnErr result (Keeps into.old.items into.new.items) }
{
    put_words(
        &[
            Field::Text(b"mesh"),
            Field::Number(u64::from(k)),
            Field::Number(u64::from(vertices)),
            Field::Number(u64::from(faces)),
        ],
        into,
    )
}

fn print_step(k: u32, into: &mut Vec<u8>) -> Result<(), NoMemory>
    ensures ok { Appends result into.old into.new (spec.text_of_line (LogLine.Step k)) }
    ensures err { OnErr result (Keeps into.old.items into.new.items) }
{
    put_words(&[Field::Text(b"step"), Field::Number(u64::from(k))], into)
}

fn print_solid(v: VertexId, into: &mut Vec<u8>) -> Result<(), NoMemory>
    ensures ok { Appends result into.old into.new (spec.text_of_line (LogLine.Solid v)) }
    ensures err { OnErr result (Keeps into.old.items into.new.items) }
{
    put_words(
        &[Field::Text(b"solid"), Field::Number(u64::from(v.0))],
        into,
    )
}

fn print_close(kept: bool, into: &mut Vec<u8>) -> Result<(), NoMemory>
    ensures ok { Appends result into.old into.new (spec.text_of_line (LogLine.Close kept)) }
    ensures err { OnErr result (Keeps into.old.items into.new.items) }
{
    if kept {
        return put_words(&[Field::Text(b"close"), Field::Text(b"kept")], into);
    }
    put_words(&[Field::Text(b"close"), Field::Text(b"undone")], into)
}

fn print_hit(pair: PairName, into: &mut Vec<u8>) -> Result<(), NoMemory>
    ensures ok { Appends result into.old into.new (spec.text_of_line (LogLine.Hit pair)) }
    ensures err { OnErr result (Keeps into.old.items into.new.items) }
{
    put_words(
        &[
            Field::Text(b"hit"),
            Field::Number(u64::from(pair.a.0)),
            Field::Number(u64::from(pair.b.0)),
            Field::Number(u64::from(pair.face.0)),
        ],
        into,
    )
}

fn print_move(s: ShiftOf, into: &mut Vec<u8>) -> Result<(), NoMemory>
    ensures ok { Appends result into.old into.new (spec.text_of_line (LogLine.Move s)) }
    ensures err { OnErr result (Keeps into.old.items into.new.items) }
{
    put_words(
        &[
            Field::Text(b"move"),
            Field::Number(u64::from(s.v.0)),
            Field::Signed(s.by.x),
            Field::Signed(s.by.y),
            Field::Signed(s.by.z),
        ],
        into,
    )
}

fn print_moved(how: How, into: &mut Vec<u8>) -> Result<(), NoMemory>
    ensures ok { Appends result into.old into.new (spec.text_of_line (LogLine.Moved how)) }
    ensures err { OnErr result (Keeps into.old.items into.new.items) }
{
    let moved = Field::Text(b"moved");
    let (word, n) = match how {
        How::Impulse { passes } => (Field::Text(b"impulse"), u32::from(passes)),
        How::Zones { rounds } => (Field::Text(b"zones"), rounds),
        How::Halved { times } => (Field::Text(b"halved"), u32::from(times)),
        How::Whole => return put_words(&[moved, Field::Text(b"whole")], into),
        How::Zero => return put_words(&[moved, Field::Text(b"zero")], into),
    };
    put_words(&[moved, word, Field::Number(u64::from(n))], into)
}

// Appends the line that refuses a mesh file by one number.
fn print_shape_by_one(word: &[u8], n: u64, into: &mut Vec<u8>) -> Result<(), NoMemory>
    ensures ok { let words = codes "refused" ∷ codes "shape" ∷ word.now ∷ decimal n ∷ [] in
        Appends result into.old into.new (join_with_byte 32 words ++ 10 ∷ []) }
    ensures err { OnErr result (Keeps into.old.items into.new.items) }
{
    put_words(
        &[
            Field::Text(b"refused"),
            Field::Text(b"shape"),
            Field::Text(word),
            Field::Number(n),
        ],
        into,
    )
}

// Appends the line that refuses the points and faces of a mesh file.
fn print_shape(fault: ShapeFault, into: &mut Vec<u8>) -> Result<(), NoMemory>
    ensures ok { Appends result into.old into.new (spec.refused_text (Refusal.Shape fault)) }
    ensures err { OnErr result (Keeps into.old.items into.new.items) }
{
    let (word, first, second) = match fault {
        ShapeFault::TooManyVertices { count } => {
            return print_shape_by_one(b"vertices", count, into);
        }
        ShapeFault::TooManyFaces { count } => return print_shape_by_one(b"faces", count, into),
        ShapeFault::Repeated { face } => {
            return print_shape_by_one(b"repeated", u64::from(face), into);
        }
        ShapeFault::NoVertex { face, corner } => (Field::Text(b"corner"), face, u32::from(corner)),
        ShapeFault::Doubled { first, second } => (Field::Text(b"doubled"), first, second),
        ShapeFault::Unbalanced { from, to } => (Field::Text(b"unbalanced"), from, to),
    };
    put_words(
        &[
            Field::Text(b"refused"),
            Field::Text(b"shape"),
            word,
            Field::Number(u64::from(first)),
            Field::Number(u64::from(second)),
        ],
        into,
    )
}

// Appends the line that refuses a directive which names no field.
fn print_no_field(at: u32, into: &mut Vec<u8>) -> Result<(), NoMemory>
    ensures ok { Appends result into.old into.new (spec.refused_text (Refusal.StepUse at NoField)) }
    ensures err { OnErr result (Keeps into.old.items into.new.items) }
{
    put_words(
        &[
            Field::Text(b"refused"),
            Field::Text(b"use"),
            Field::Number(u64::from(at)),
            Field::Text(b"field"),
        ],
        into,
    )
}

// Appends the line that refuses a directive.
fn print_use(at: u32, why: UseWhy, into: &mut Vec<u8>) -> Result<(), NoMemory>
    ensures ok { Appends result into.old into.new (spec.refused_text (Refusal.StepUse at why)) }
    ensures err { OnErr result (Keeps into.old.items into.new.items) }
{
    let (word, v) = match why {
        UseWhy::NoVertex { v } => (Field::Text(b"vertex"), v),
        UseWhy::ShiftRange { v } => (Field::Text(b"range"), v),
        UseWhy::Box { v } => (Field::Text(b"box"), v),
        UseWhy::Solid { v } => (Field::Text(b"solid"), v),
        UseWhy::NoField => return print_no_field(at, into),
    };
    put_words(
        &[
            Field::Text(b"refused"),
            Field::Text(b"use"),
            Field::Number(u64::from(at)),
            word,
            Field::Number(u64::from(v)),
        ],
        into,
    )
}

// Appends the line that refuses a file for one of its lines.
fn print_fault(file: FileWord, fault: TextFault, into: &mut Vec<u8>) -> Result<(), NoMemory>
    ensures ok { let words = codes "refused" ∷ spec.file_word file ∷ decimal fault.line
        ∷ spec.why_word fault.why ∷ [] in
        Appends result into.old into.new (join_with_byte 32 words ++ 10 ∷ []) }
    ensures err { OnErr result (Keeps into.old.items into.new.items) }
{
    put_words(
        &[
            Field::Text(b"refused"),
            Field::Text(file_word(file)),
            Field::Number(u64::from(fault.line)),
            Field::Text(why_word(fault.why)),
        ],
        into,
    )
}

// Appends the line that refuses a mesh which isn't clear.
fn print_meets(pair: PairName, into: &mut Vec<u8>) -> Result<(), NoMemory>
    ensures ok { Appends result into.old into.new (spec.refused_text (Refusal.Meets pair)) }
    ensures err { OnErr result (Keeps into.old.items into.new.items) }
{
    put_words(
        &[
            Field::Text(b"refused"),
            Field::Text(b"meets"),
            Field::Number(u64::from(pair.a.0)),
            Field::Number(u64::from(pair.b.0)),
            Field::Number(u64::from(pair.face.0)),
        ],
        into,
    )
}

fn print_refused(why: Refusal, into: &mut Vec<u8>) -> Result<(), NoMemory>
    ensures ok { Appends result into.old into.new (spec.text_of_line (LogLine.Refused why)) }
    ensures err { OnErr result (Keeps into.old.items into.new.items) }
{
    let refused = Field::Text(b"refused");
    match why {
        Refusal::Long { file, seen } => put_words(
            &[
                refused,
                Field::Text(b"long"),
                Field::Text(file_word(file)),
                Field::Number(seen),
            ],
            into,
        ),
        Refusal::Missing { file } => put_words(
            &[
                refused,
                Field::Text(b"missing"),
                Field::Text(file_word(file)),
            ],
            into,
        ),
        Refusal::Mesh(fault) => print_fault(FileWord::Mesh, fault, into),
        Refusal::Shape(fault) => print_shape(fault, into),
        Refusal::Meets(pair) => print_meets(pair, into),
        Refusal::Steps(fault) => print_fault(FileWord::Steps, fault, into),
        Refusal::StepUse { line, why } => print_use(line, why, into),
    }
}

// Appends the line. On refusal the bytes from before still stand in front.
fn put_any(line: &LogLine, into: &mut Vec<u8>) -> Result<(), NoMemory>
    ensures ok { Appends result into.old into.new (spec.text_of_line line.now) }
    ensures err { OnErr result (Keeps into.old.items into.new.items) }
{
    match line {
        LogLine::First { version } => print_first(*version, into),
        LogLine::Mesh { k, vertices, faces } => print_mesh(*k, *vertices, *faces, into),
        LogLine::Step { k } => print_step(*k, into),
        LogLine::Vertices(new) => print_new_ids(b"vertices", new, into),
        LogLine::Faces(new) => print_new_ids(b"faces", new, into),
        LogLine::Solid { v } => print_solid(*v, into),
        LogLine::Hit(pair) => print_hit(*pair, into),
        LogLine::Block(ids) => print_block(ids, into),
        LogLine::Move(s) => print_move(*s, into),
        LogLine::Moved(how) => print_moved(*how, into),
        LogLine::Pass(pass) => print_pass(*pass, into),
        LogLine::PassFit => put_words(&[Field::Text(b"pass"), Field::Text(b"fit")], into),
        LogLine::Did(change) => print_change(change, into),
        LogLine::No { what, why } => print_no(*what, *why, into),
        LogLine::Group => put_words(&[Field::Text(b"group")], into),
        LogLine::Close { kept } => print_close(*kept, into),
        LogLine::Refused(why) => print_refused(*why, into),
        LogLine::End => put_words(&[Field::Text(b"end")], into),
    }
}

/// Appends the one spelling of the line, with LF at its end, or changes nothing.
pub fn print_line(line: &LogLine, into: &mut Vec<u8>) -> Result<(), NoMemory>
    ensures ok { Appends result into.old into.new (spec.text_of_line line.now) }
    ensures err { OnErr result (into.new.items ≡ into.old.items) }
{
    let start = into.len();
    match put_any(line, into) {
        Ok(()) => Ok(()),
        Err(NoMemory) => {
            into.truncate(start);
            Err(NoMemory)
        }
    }
}
