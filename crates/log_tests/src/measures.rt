//! Volume, pieces, Euler number and genus of meshes.
use crate::meshes::{BARE, JOINED, PARTED, RING, TETRAHEDRON, lists_of};
use crate::same::assert_same;
use grid_base::NoMemory;
use line_text::ReadFault;
use mesh_base::{Scale, Surface};
use mesh_measure::{components, euler, genus, volume6};
use mesh_plain::PlainMesh;
use mesh_shape::shape;
use std::alloc::Global;
use std::process::Abort;
use std::test::Fail;

// A tetrahedron and another beside it.
const BOTH: &[u8] = b"v 0 0 0\nv 4 0 0\nv 0 4 0\nv 0 0 4\nv 50 0 0\nv 54 0 0\nv 50 4 0\nv 50 0 4\n\
f 1 3 2\nf 1 2 4\nf 2 3 4\nf 1 4 3\nf 5 7 6\nf 5 6 8\nf 6 7 8\nf 5 8 7\n";

// What there is to measure of a mesh: six times the volume, pieces, Euler number and genus.
type Measures = (i128, u32, i64, Option<u32>);

fn measured<S: Surface>(alloc: Global, mesh: &S) -> Result<Measures, NoMemory> {
    let pieces = components(alloc, mesh)?;
    let number = euler(alloc, mesh)?;
    let handles = genus(alloc, mesh)?;
    Ok((volume6(mesh), pieces, number, handles))
}

fn plain_of(alloc: Global, text: &[u8], rt: &impl Abort) -> Result<PlainMesh, ReadFault> {
    let lists = lists_of(alloc, text, rt)?;
    let shaped = shape(alloc, Scale::Standard, &lists);
    assert!(rt; shaped.is_ok());
    let mesh = PlainMesh::of(alloc, Scale::Standard, &lists)?;
    Ok(mesh)
}

const CASES: [(&[u8], Measures); 6] = [
    (TETRAHEDRON, (64, 1, 2, Some(0))),
    (BOTH, (128, 2, 4, Some(0))),
    (RING, (48_000, 1, 0, Some(1))),
    (JOINED, (-188_800, 1, 3, None)),
    (PARTED, (-41_760, 2, 4, Some(0))),
    (BARE, (0, 0, 0, Some(0))),
];

#[test]
fn meshes_are_measured(rt: HostRuntime) -> Result<(), Fail> {
    for (text, wanted) in &CASES {
        let mesh = plain_of(rt.alloc(), text, &rt)?;
        let found = measured(rt.alloc(), &mesh)?;
        assert_same(&rt, &found, wanted);
    }
    Ok(())
}
