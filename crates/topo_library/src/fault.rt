//! Why something is refused, for C.
ghost use Rattle.std.specs.Prelude.{◌≡◌};
ghost use Rattle.topo_library.specs.Faults.{capped_number, shape_place, use_place, make_place, rows_place, numbered_place, table_place};

use mesh_base::{ShapeFault, UseWhy};
use mesh_rows::RowsFault;
use track_held::{MakeFault, NumberedFault, TableFault};

/// Why something is refused: a number for the reason, and up to three numbers that tell its place.
#[repr(C)]
#[derive(Clone, Copy, Debug, PartialEq, Eq)]
pub struct TopoFault {
    pub why: u32,
    pub a: u32,
    pub b: u32,
    pub c: u32,
}

// A reason and its place.
fn fault_at(why: u32, a: u32, b: u32, c: u32) -> TopoFault
    ensures { result ≡ record { why = why; a = a; b = b; c = c } }
{
    TopoFault { why, a, b, c }
}

// A count, or the greatest number that is told.
fn capped_number(count: u64) -> u32
    ensures { result ≡ capped_number count }
{
    if count < u32::MAX as u64 {
        count as u32
    } else {
        u32::MAX
    }
}

// What is wrong with the shape of points and faces.
fn shape_place(fault: ShapeFault) -> TopoFault
    ensures { result ≡ shape_place fault }
{
    match fault {
        ShapeFault::TooManyVertices { count } => fault_at(11, capped_number(count), 0, 0),
        ShapeFault::TooManyFaces { count } => fault_at(12, capped_number(count), 0, 0),
        ShapeFault::NoVertex { face, corner } => fault_at(13, face, corner as u32, 0),
        ShapeFault::Repeated { face } => fault_at(14, face, 0, 0),
        ShapeFault::Doubled { first, second } => fault_at(15, first, second, 0),
        ShapeFault::Unbalanced { from, to } => fault_at(16, from, to, 0),
    }
}

/// What is wrong with points and faces of which no tracker is made.
pub(crate) fn make_place(fault: MakeFault) -> TopoFault
    ensures { result ≡ make_place fault }
{
    match fault {
        MakeFault::Outside { number } => fault_at(10, number, 0, 0),
        MakeFault::Shape(fault) => shape_place(fault),
        MakeFault::Meets(pair) => fault_at(17, pair.a.0, pair.b.0, pair.face.0),
    }
}

// What is wrong with rows.
fn rows_place(fault: RowsFault) -> TopoFault
    ensures { result ≡ rows_place fault }
{
    match fault {
        RowsFault::TooManyVertices { count } => fault_at(11, capped_number(count), 0, 0),
        RowsFault::TooManyFaces { count } => fault_at(12, capped_number(count), 0, 0),
        RowsFault::NoVertex { face, corner } => fault_at(13, face.0, corner as u32, 0),
        RowsFault::Repeated { face } => fault_at(14, face.0, 0, 0),
        RowsFault::Doubled { first, second } => fault_at(15, first.0, second.0, 0),
        RowsFault::Unbalanced { from, to } => fault_at(16, from.0, to.0, 0),
        RowsFault::NextVertex { id } => fault_at(18, id, 0, 0),
        RowsFault::NextFace { id } => fault_at(19, id, 0, 0),
        RowsFault::VertexOrder { place } => fault_at(20, place, 0, 0),
        RowsFault::FaceOrder { place } => fault_at(21, place, 0, 0),
        RowsFault::NotSolid { v } => fault_at(22, v.0, 0, 0),
    }
}

/// What is wrong with vertices and faces with their ids, of which no tracker is made.
pub(crate) fn numbered_place(fault: NumberedFault) -> TopoFault
    ensures { result ≡ numbered_place fault }
{
    match fault {
        NumberedFault::Outside { number } => fault_at(10, number, 0, 0),
        NumberedFault::Rows(fault) => rows_place(fault),
        NumberedFault::Meets(pair) => fault_at(17, pair.a.0, pair.b.0, pair.face.0),
    }
}

/// What is wrong with cells and their bands.
pub(crate) fn table_place(fault: TableFault) -> TopoFault
    ensures { result ≡ table_place fault }
{
    match fault {
        TableFault::NoSide => fault_at(23, 0, 0, 0),
        TableFault::Miscounted => fault_at(24, 0, 0, 0),
        TableFault::NoBand { place } => fault_at(25, capped_number(place as u64), 0, 0),
    }
}

/// Why a directive is refused.
pub(crate) fn use_place(why: UseWhy) -> TopoFault
    ensures { result ≡ use_place why }
{
    match why {
        UseWhy::NoVertex { v } => fault_at(1, v, 0, 0),
        UseWhy::ShiftRange { v } => fault_at(2, v, 0, 0),
        UseWhy::Box { v } => fault_at(3, v, 0, 0),
        UseWhy::NoField => fault_at(4, 0, 0, 0),
        UseWhy::Solid { v } => fault_at(5, v, 0, 0),
    }
}
