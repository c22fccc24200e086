//! The text of a check.
ghost use Rattle.std.specs.Prelude.{◌≡◌, ◌∷◌, [], codes, decimal, length, IfOk, OnErr};
ghost use Rattle.std.specs.List.{flat_map};
ghost use Rattle.line_text.specs.WrittenLines.{Appends, line_of_words};
ghost use Rattle.obj_text.specs.Views.{lists_view};
ghost use Rattle.track_check.specs.Check.{fault_line, checked_line, report_of};

use crate::fault::Fault;
use grid_base::NoMemory;
use line_text::{Field, put_line};
use mesh_base::{MeshLists, PairName, ShapeFault};
use std::alloc::Global;

// Appends the line of a fault of shape with one number.
fn put_shape_by_one(word: &[u8], n: u64, into: &mut Vec<u8>) -> Result<(), NoMemory>
    ensures { Appends result into.old into.new
        (line_of_words (codes "shape" ∷ word.now ∷ decimal n ∷ [])) }
{
    put_line(
        &[Field::Text(b"shape"), Field::Text(word), Field::Number(n)],
        into,
    )
}

// Appends the line of a fault of shape with two numbers.
fn put_shape_by_two(
    word: &[u8],
    first: u32,
    second: u32,
    into: &mut Vec<u8>,
) -> Result<(), NoMemory>
    ensures { Appends result into.old into.new
        (line_of_words (codes "shape" ∷ word.now ∷ decimal first ∷ decimal second ∷ [])) }
{
    put_line(
        &[
            Field::Text(b"shape"),
            Field::Text(word),
            Field::Number(u64::from(first)),
            Field::Number(u64::from(second)),
        ],
        into,
    )
}

// Appends the line of a fault of shape.
fn put_shape(fault: ShapeFault, into: &mut Vec<u8>) -> Result<(), NoMemory>
    ensures { Appends result into.old into.new (fault_line (Fault.Shape fault)) }
{
    match fault {
        ShapeFault::TooManyVertices { count } => put_shape_by_one(b"vertices", count, into),
        ShapeFault::TooManyFaces { count } => put_shape_by_one(b"faces", count, into),
        ShapeFault::NoVertex { face, corner } => {
            put_shape_by_two(b"corner", face, u32::from(corner), into)
        }
        ShapeFault::Repeated { face } => put_shape_by_one(b"repeated", u64::from(face), into),
        ShapeFault::Doubled { first, second } => {
            put_shape_by_two(b"doubled", first, second, into)
        }
        ShapeFault::Unbalanced { from, to } => put_shape_by_two(b"unbalanced", from, to, into),
    }
}

// Appends the line of a pair that meets.
fn put_meets(pair: PairName, into: &mut Vec<u8>) -> Result<(), NoMemory>
    ensures { Appends result into.old into.new (fault_line (Fault.Meets pair)) }
{
    put_line(
        &[
            Field::Text(b"meets"),
            Field::Number(u64::from(pair.a.0)),
            Field::Number(u64::from(pair.b.0)),
            Field::Number(u64::from(pair.face.0)),
        ],
        into,
    )
}

// Appends the line of a fault.
fn put_fault(fault: Fault, into: &mut Vec<u8>) -> Result<(), NoMemory>
    ensures { Appends result into.old into.new (fault_line fault) }
{
    match fault {
        Fault::Shape(fault) => put_shape(fault, into),
        Fault::Meets(pair) => put_meets(pair, into),
    }
}

// Appends the lines of faults.
fn put_faults(faults: &[Fault], into: &mut Vec<u8>) -> Result<(), NoMemory>
    ensures { Appends result into.old into.new (flat_map fault_line faults.now) }
{
    for fault in faults {
        put_fault(*fault, into)?;
    }
    Ok(())
}

// Appends the last line.
fn put_checked(lists: &MeshLists, faults: usize, into: &mut Vec<u8>) -> Result<(), NoMemory>
    ensures { Appends result into.old into.new (checked_line (lists_view lists.now) faults) }
{
    put_line(
        &[
            Field::Text(b"checked"),
            Field::Number(lists.points.len() as u64),
            Field::Number(lists.faces.len() as u64),
            Field::Text(b"faults"),
            Field::Number(faults as u64),
        ],
        into,
    )
}

/// The lines of the faults of lists, and the last line.
pub(crate) fn report_of(
    alloc: Global,
    lists: &MeshLists,
    faults: &[Fault],
) -> Result<Vec<u8>, NoMemory>
    ensures { IfOk result (λ text. text.items ≡ report_of (lists_view lists.now) faults.now) }
{
    let mut text = Vec::new(alloc);
    put_faults(faults, &mut text)?;
    put_checked(lists, faults.len(), &mut text)?;
    Ok(text)
}
