// What is wrong with the shape of a mesh.
ghost use Rattle.std.specs.Prelude.{◌≤◌, length};
ghost use Rattle.grid_base.specs.declared.TheConstants.{TEXT_MAX};

use crate::face_lines::line_of_face;
use mesh_base::{MeshLists, PairName, Scale, ShapeFault};
use std::alloc::{AllocError, Global};
use track_input::Format;

// How many sides of faces run from a vertex to another.
fn sides(faces: &[[u32; 3]], from: u32, to: u32) -> u32 {
    let mut count: u32 = 0;
    for face in faces {
        let [a, b, c] = *face;
        if (a == from && b == to) || (b == from && c == to) || (c == from && a == to) {
            count = count.saturating_add(1);
        }
    }
    count
}

// The number of another vertex at the place of this one, if there is one; both numbered from 1.
fn twin(lists: &MeshLists, vertex: u32) -> Option<u32> {
    if vertex == 0 {
        return None;
    }
    let point = *lists.points.get(vertex as usize - 1)?;
    let mut number: u32 = 0;
    for other in lists.points.as_slice() {
        number = number.saturating_add(1);
        if number != vertex && *other == point {
            return Some(number);
        }
    }
    None
}

// What it means that faces run so often one way and so often the other.
fn meaning(there: u32, back: u32) -> &'static str {
    match (there, back) {
        (1, 0) | (0, 1) => "the surface has a border there",
        (2, 0) | (0, 2) => "one of the two faces along this edge is turned over",
        _ => "the faces along this edge do not go in pairs, one each way",
    }
}

// That two vertices stand at one place, if the vertex has another there.
fn seam(alloc: Global, lists: &MeshLists, vertex: u32) -> Result<Option<String>, AllocError> {
    match twin(lists, vertex) {
        None => Ok(None),
        Some(twin) => {
            let said = format!(in alloc;
                "the vertices {vertex} and {twin} stand at one place, so this may be a seam: make them one vertex"
            )?;
            Ok(Some(said))
        }
    }
}

// That two vertices stand at one place, if one of the two has another there.
fn seam_of_edge(
    alloc: Global,
    lists: &MeshLists,
    from: u32,
    to: u32,
) -> Result<Option<String>, AllocError> {
    match seam(alloc, lists, from)? {
        Some(said) => Ok(Some(said)),
        None => seam(alloc, lists, to),
    }
}

// How often faces run one way and the other, and what that means.
fn sides_reason(
    alloc: Global,
    lists: &MeshLists,
    from: u32,
    to: u32,
) -> Result<String, AllocError> {
    let there = sides(lists.faces.as_slice(), from, to);
    let back = sides(lists.faces.as_slice(), to, from);
    let front = format!(in alloc;
        "the surface is not closed: from vertex {from} to vertex {to} run {there} faces, and back run {back}"
    )?;
    match seam_of_edge(alloc, lists, from, to)? {
        Some(seam) => format!(in alloc; "{front}; {seam}"),
        None => {
            let meaning = meaning(there, back);
            format!(in alloc; "{front}; {meaning}")
        }
    }
}

// Says that faces do not run as often one way as the other, how often they run where the lists are had, and what that means.
fn unbalanced_reason(
    alloc: Global,
    lists: Option<&MeshLists>,
    from: u32,
    to: u32,
) -> Result<String, AllocError> {
    match lists {
        Some(lists) => sides_reason(alloc, lists, from, to),
        None => format!(in alloc; "the surface is not closed between the vertices {from} and {to}"),
    }
}

// `face F (line N)`.
fn face_place(alloc: Global, format: Format, bytes: &[u8], face: u32) -> Result<String, AllocError>
    requires { length bytes.now ≤ TEXT_MAX }
{
    match line_of_face(format, bytes, face) {
        0 => format!(in alloc; "face {face}"),
        line => format!(in alloc; "face {face} (line {line})"),
    }
}

// That a corner of a face names no vertex.
fn corner_reason(
    alloc: Global,
    format: Format,
    bytes: &[u8],
    face: u32,
    corner: u8,
) -> Result<String, AllocError>
    requires { length bytes.now ≤ TEXT_MAX }
{
    let face = face_place(alloc, format, bytes, face)?;
    format!(in alloc; "corner {corner} of {face} names no vertex")
}

// That a face has one vertex twice.
fn repeated_reason(
    alloc: Global,
    format: Format,
    bytes: &[u8],
    face: u32,
) -> Result<String, AllocError>
    requires { length bytes.now ≤ TEXT_MAX }
{
    let face = face_place(alloc, format, bytes, face)?;
    format!(in alloc; "{face} has one vertex twice")
}

// That two faces have the same corners.
fn doubled_reason(
    alloc: Global,
    format: Format,
    bytes: &[u8],
    first: u32,
    second: u32,
) -> Result<String, AllocError>
    requires { length bytes.now ≤ TEXT_MAX }
{
    let first = face_place(alloc, format, bytes, first)?;
    let second = face_place(alloc, format, bytes, second)?;
    format!(in alloc; "{first} and {second} have the same corners in the same order")
}

// That there are more of something than a mesh may have, and with which option there may be as many, if with one.
fn many_reason(
    alloc: Global,
    count: u64,
    what: &str,
    most: u32,
    most_large: u32,
) -> Result<String, AllocError> {
    if most < most_large && count <= u64::from(most_large) {
        return format!(in alloc;
            "there are {count} {what}, of at most {most}: with `--large` there may be {most_large}"
        );
    }
    format!(in alloc; "there are {count} {what}, of at most {most}")
}

// What is wrong with the shape of a mesh.
fn what_is_wrong(
    alloc: Global,
    scale: Scale,
    format: Format,
    bytes: &[u8],
    lists: Option<&MeshLists>,
    fault: ShapeFault,
) -> Result<String, AllocError>
    requires { length bytes.now ≤ TEXT_MAX }
{
    match fault {
        ShapeFault::TooManyVertices { count } => {
            let (most, large) = (scale.limits(), Scale::Large.limits());
            many_reason(alloc, count, "vertices", most.vertices, large.vertices)
        }
        ShapeFault::TooManyFaces { count } => {
            let (most, large) = (scale.limits(), Scale::Large.limits());
            many_reason(alloc, count, "faces", most.faces, large.faces)
        }
        ShapeFault::NoVertex { face, corner } => corner_reason(alloc, format, bytes, face, corner),
        ShapeFault::Repeated { face } => repeated_reason(alloc, format, bytes, face),
        ShapeFault::Doubled { first, second } => doubled_reason(
            alloc, format, bytes, first, second,
        ),
        ShapeFault::Unbalanced { from, to } => unbalanced_reason(alloc, lists, from, to),
    }
}

/// Says what is wrong with the shape of the mesh of a text in a format, by how large it may be, with the lists that it gives where they
/// are had. Faces are triangles, which count through polygons.
pub fn shape_reason(
    alloc: Global,
    scale: Scale,
    name: &str,
    format: Format,
    bytes: &[u8],
    lists: Option<&MeshLists>,
    fault: ShapeFault,
) -> Result<String, AllocError>
    requires { length bytes.now ≤ TEXT_MAX }
{
    let what = what_is_wrong(alloc, scale, format, bytes, lists, fault)?;
    format!(in alloc; "{name}; {what}")
}

/// Says which edge and face of a mesh meet.
pub fn meeting_reason(alloc: Global, name: &str, pair: PairName) -> Result<String, AllocError> {
    let a = pair.a.0;
    let b = pair.b.0;
    let face = pair.face.0;
    format!(in alloc;
        "{name}; the surface meets itself: the edge of the vertices {a} and {b} and face {face}, which has neither, have a common point"
    )
}
