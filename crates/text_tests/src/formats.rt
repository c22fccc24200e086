//! Worked examples: texts that are read in three formats, and texts outside the grammars.
use crate::same::assert_bytes;
use grid_base::{DECIMALS_MAX, NoMemory};
use line_text::{Parts, ReadFault, TextFault, cut_at};
use mesh_base::MeshLists;
use obj_text::read_obj;
use other_text::{off_of, read_off, read_ply};
use std::alloc::Global;
use std::process::Abort;
use std::test::Fail;

const OBJ: &str = "v 0 0 0\nv 4 0 0\nv 0 4 0\nv 0 0 4\nf 1 3 2\nf 1 2 4\nf 2 3 4\nf 1 4 3\n";

const OFF: &str = "OFF\n4 4 0\n0 0 0\n4 0 0\n0 4 0\n0 0 4\n3 0 2 1\n3 0 1 3\n3 1 2 3\n3 0 3 2\n";

const PLY: &str = "ply\nformat ascii 1.0\nelement vertex 4\nproperty double x\nproperty double y\n\
property double z\nelement face 4\nproperty list uchar int vertex_indices\nend_header\n\
0 0 0\n4 0 0\n0 4 0\n0 0 4\n3 0 2 1\n3 0 1 3\n3 1 2 3\n3 0 3 2\n";

// A pyramid on a square, with words that are not read.
const OFF_PYRAMID: &str = "OFF\n# a pyramid\n5 5 8 0\n\n0 0 0 255 0 0\r\n4 0 0\n4 4 0\n0 4 0\n\
2 2 3 1 # its top\n4 3 2 1 0 0.5\n3 0 1 4 255 0 0\n3 1 2 4\n3 2 3 4\n3 3 0 4";

// The same with properties before and after the coordinates, which stand as z, x and y.
const PLY_PYRAMID: &str = "ply\ncomment a pyramid\nformat ascii 1.0\nobj_info made by hand\n\n\
element vertex 5\nproperty uchar red\nproperty float z\nproperty float x\ncomment\n\
property float y # third\nproperty int quality\nelement face 5\n\
property list uchar int vertex_index\nobj_info\nproperty uint8 material\nproperty float64 x\n\
end_header\n7 0 0 0 -1\n7 0 4 0 -1\n7 0 4 4 -1\n7 0 0 4 -1\nred 3 2 2 none\n\
4 3 2 1 0 9 0\n3 0 1 4 9 0\n3 1 2 4 9 0\n\n3 2 3 4 9 0\n3 3 0 4 x y\n";

const PYRAMID: &str = "OFF\n5 6 0\n0 0 0\n4 0 0\n4 4 0\n0 4 0\n2 2 3\n\
3 3 2 1\n3 3 1 0\n3 0 1 4\n3 1 2 4\n3 2 3 4\n3 3 0 4\n";

const OFF_DECIMALS: &str =
    "OFF\n5 5\n-0.0005 0 0\n4 0 0\n4 4 0\n0 4 0\n2 2 3.0625\n4 3 2 1 0\n3 0 1 4\n3 1 2 4\n3 2 3 4\n3 3 0 4\n";

const DECIMALS: &str = "OFF\n5 6 0\n-0.001 0.000 0.000\n4.000 0.000 0.000\n4.000 4.000 0.000\n\
0.000 4.000 0.000\n2.000 2.000 3.063\n3 3 2 1\n3 3 1 0\n3 0 1 4\n3 1 2 4\n3 2 3 4\n3 3 0 4\n";

// A cube as a modelling tool writes it.
const CUBE: &str = "# cube\nmtllib cube.mtl\no Cube\n\
v 1.000000 1.000000 -1.000000\nv 1.000000 -1.000000 -1.000000\nv 1.000000 1.000000 1.000000\n\
v 1.000000 -1.000000 1.000000\nv -1.000000 1.000000 -1.000000\nv -1.000000 -1.000000 -1.000000\n\
v -1.000000 1.000000 1.000000\nv -1.000000 -1.000000 1.000000\nvt 0.625000 0.500000\n\
vn 0.0000 1.0000 0.0000\nusemtl Material\ns off\nf 1/1/1 5/1/1 7/1/1 3/1/1\n\
f 4/1/1 3/1/1 7/1/1 8/1/1\nf 8/1/1 7/1/1 5/1/1 6/1/1\nf 6/1/1 2/1/1 4/1/1 8/1/1\n\
f 2/1/1 1/1/1 3/1/1 4/1/1\nf 6/1/1 5/1/1 1/1/1 2/1/1\n";

// The triangles of its fans.
const OFF_CUBE: &str = "OFF\n8 12 0\n1.000 1.000 -1.000\n1.000 -1.000 -1.000\n1.000 1.000 1.000\n\
1.000 -1.000 1.000\n-1.000 1.000 -1.000\n-1.000 -1.000 -1.000\n-1.000 1.000 1.000\n-1.000 -1.000 1.000\n\
3 0 4 6\n3 0 6 2\n3 3 2 6\n3 3 6 7\n3 7 6 4\n3 7 4 5\n3 5 1 3\n3 5 3 7\n3 1 0 2\n3 1 2 3\n3 5 4 0\n3 5 0 1\n";

const POINTS: &str = "v 268435456 0 0\nv 0.5 -0.5 1e1\nv 1e-999 0 0\nv 1 2 3 4 5 6 7";

const OFF_POINTS: &str = "OFF\n4 0 0\n268435456 0 0\n1 -1 10\n0 0 0\n1 2 3\n";

// Corners are counted from both ends. A positive one may name a vertex that stands later, or none.
const CORNERS: &str = "f 1 2 4294967295\nv 0 0 0\nv 0 0 0\nv 0 0 0\nf -3 -2/-1 -1//7 1/2/3 2\n";

const OFF_CORNERS: &str =
    "OFF\n3 4 0\n0 0 0\n0 0 0\n0 0 0\n3 0 1 4294967294\n3 0 1 2\n3 0 2 0\n3 0 0 1\n";

// The first two lines of a PLY text, and what follows them up to a vertex with its coordinates, and to a face.
const ASCII: &str = "ply\nformat ascii 1.0\n";

const VERTEX: &str = "ply\nformat ascii 1.0\nelement vertex 1\nproperty float x\nproperty float y\n\
property float z\n";

const HEAD: &str = "ply\nformat ascii 1.0\nelement vertex 1\nproperty float x\nproperty float y\n\
property float z\nelement face 1\nproperty list uchar int vertex_indices\nend_header\n";

#[derive(Clone, Copy, Debug)]
enum Format {
    Obj,
    Off,
    Ply,
}

fn read(
    rt: &impl Abort,
    alloc: Global,
    format: Format,
    text: &[u8],
    decimals: u8,
) -> Result<MeshLists, ReadFault> {
    assert!(rt; text.len() < 10_000 && decimals <= DECIMALS_MAX);
    match format {
        Format::Obj => read_obj(alloc, text, decimals),
        Format::Off => read_off(alloc, text, decimals),
        Format::Ply => read_ply(alloc, text, decimals),
    }
}

// The text in a format is written so in the format OFF.
fn assert_written(
    rt: &impl Abort,
    alloc: Global,
    (format, text, decimals): (Format, &str, u8),
    wanted: &str,
) -> Result<(), ReadFault> {
    let lists = read(rt, alloc, format, text.as_bytes(), decimals)?;
    assert!(rt; decimals <= DECIMALS_MAX);
    let found = off_of(alloc, &lists, decimals)?;
    assert_bytes(rt, found.as_slice(), wanted.as_bytes());
    Ok(())
}

const WRITTEN: [((Format, &str, u8), &str); 8] = [
    ((Format::Obj, OBJ, 0), OFF),
    ((Format::Obj, POINTS, 0), OFF_POINTS),
    ((Format::Obj, CORNERS, 0), OFF_CORNERS),
    ((Format::Obj, CUBE, 3), OFF_CUBE),
    ((Format::Ply, PLY, 0), OFF),
    ((Format::Off, OFF_PYRAMID, 0), PYRAMID),
    ((Format::Ply, PLY_PYRAMID, 0), PYRAMID),
    ((Format::Off, OFF_DECIMALS, 3), DECIMALS),
];

#[test]
fn meshes_are_the_same_in_each_format(rt: HostRuntime) -> Result<(), Fail> {
    for (from, wanted) in &WRITTEN {
        assert_written(&rt, rt.alloc(), *from, wanted)?;
    }
    Ok(())
}

// Texts outside the grammars, with `|` between them. In front of each stands a line with the number of its first bad line
// and the reason.
const OBJ_FAULTS: &[u8] = b"1 Short\nf 1 2\
|1 Short\nv 1 2\
|1 Long\nv 1 2 3 4 5 6 7 8\
|1 Number\nv 1 2 1e\
|1 Number\nv 1 +-2 3\
|1 Number\nv x 1e9 0\
|1 Range\nv 1e9 x 0\
|1 Range\nv 1e999 0 0\
|1 Range\nv 268435457 0 0\
|1 Corner\nf 0 1 2\
|1 Corner\nf 1// 2 3\
|1 Corner\nf 1 2 -4\
|1 Corner\nf 1 2 4294967296\
|1 Continuation\nv 1 2 3 \\\
|1 Continuation\nvt \\\
|1 Continuation\n# \\\nl 1 2\
|1 Unknown\nl 1 2\
|1 Unknown\n\xef\xbb\xbfv 0 0 0\
|4 Short\nv 0 0 0\r\n\n# f\nf 1 1\nl\
|2 Corner\nv 0 0 0\nf 1 -1 -2\nv 0 0 0\n";

const OFF_FAULTS: &[u8] = b"1 Short\n\
|1 Unknown\nOFF 1\n\
|2 Short\nOFF\nx\n\
|2 Number\nOFF\n1 12345678901\
|3 Short\nOFF\n1 0\nx 0\
|3 Number\nOFF\n1 0\n0 x 1e9\
|3 Range\nOFF\n1 0\n1e9 x 0\
|3 Number\nOFF\n0 1\n-3 0\
|3 Range\nOFF\n0 1\n2\
|3 Short\nOFF\n0 1\n3 0 x\
|3 Corner\nOFF\n0 1\n3 0 -1 0\
|3 Corner\nOFF\n0 1\n3 0 0 4294967295\
|4 Long\nOFF\n1 0\n0.5 -0.5 1e1\n3 0 0 0\
|4 Short\nOFF\n2 0\n0 0 0\
|5 Short\nOFF\n1 1\n0 0 0\n\n";

const PLY_FAULTS: &[u8] = b"1 Unknown\ncomment x\nply\n\
|2 Unknown\nply\nformat binary_little_endian 1.0\n\
|4 Short\nply\ncomment x\nformat ascii 1.0\n";

const ASCII_FAULTS: &[u8] = b"3 Number\nelement vertex x\n\
|3 Unknown\nelement vertex\n\
|3 Unknown\nelement edge 1\n\
|6 Unknown\nelement vertex 1\nproperty float y\nproperty float z\nelement face 1\n";

const VERTEX_FAULTS: &[u8] = b"7 Unknown\nproperty int x\n\
|7 Unknown\nproperty list uchar int vertex_index\n\
|7 Number\nelement face x\n\
|8 Unknown\nelement face 1\nproperty float area\n";

const ROW_FAULTS: &[u8] = b"10 Short\nx 0\n\
|10 Long\n0 0 0 0\n\
|10 Number\ncomment a b\n\
|10 Range\n1e9 x 0\n\
|11 Short\n0 0 0\n\
|11 Number\n0 0 0\nx\n\
|11 Range\n0 0 0\n2 0\n\
|11 Long\n0 0 0\n3 0 0 0 0\n\
|11 Corner\n0 0 0\n3 0 0 4294967295\n\
|13 Long\n0 0 0\n3 0 0 0\n\n0\n";

// The fault of a text behind a head, as its line and its reason; nothing where there is none.
fn fault_of(
    rt: &impl Abort,
    alloc: Global,
    format: Format,
    head: &str,
    rest: &[u8],
) -> Result<Vec<u8>, NoMemory> {
    let mut text = Vec::new(alloc);
    text.extend_from_slice(head.as_bytes())?;
    text.extend_from_slice(rest)?;
    let mut fault = Vec::new(alloc);
    if let Err(ReadFault::Text(TextFault { line, why })) = read(
        rt,
        alloc,
        format,
        text.as_slice(),
        0,
    ) {
        let found = format!(in alloc; "{line} {why:?}")?;
        fault.extend_from_slice(found.as_bytes())?;
    }
    Ok(fault)
}

// Each text, behind the head, has the fault that stands in front of it.
fn assert_faults(
    rt: &impl Abort,
    alloc: Global,
    format: Format,
    head: &str,
    cases: &[u8],
) -> Result<(), NoMemory> {
    for case in Parts::new(b'|', cases) {
        let (want, rest) = cut_at(b'\n', case);
        let found = fault_of(rt, alloc, format, head, rest.unwrap_or(b""))?;
        assert_bytes(rt, found.as_slice(), want);
    }
    Ok(())
}

// The format, what stands in front of each text, and the texts.
const FAULTS: [(Format, &str, &[u8]); 6] = [
    (Format::Obj, "", OBJ_FAULTS),
    (Format::Off, "", OFF_FAULTS),
    (Format::Ply, "", PLY_FAULTS),
    (Format::Ply, ASCII, ASCII_FAULTS),
    (Format::Ply, VERTEX, VERTEX_FAULTS),
    (Format::Ply, HEAD, ROW_FAULTS),
];

#[test]
fn the_first_bad_line_is_named(rt: HostRuntime) -> Result<(), Fail> {
    for (format, head, cases) in &FAULTS {
        assert_faults(&rt, rt.alloc(), *format, head, cases)?;
    }
    Ok(())
}
