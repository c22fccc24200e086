//! Passes into a sink. What passes do is shown by the cases that the program is run on.
use crate::meshes::{TETRAHEDRON, TETRAHEDRON_FACES, assert_bytes, assert_same, lists_at, mesh_of};
use edit_base::PassKind;
use grid_base::{NoMemory, Point};
use mesh_sizing::{Band, Sizing};
use outside_io::MemorySink;
use pass_run::{PassCount, PassFault, fit_pass, pass};
use std::alloc::Global;
use std::process::Abort;
use std::test::Fail;

const SPLITS: &[u8] = b"pass split 3\nsplit 1 2 5 2 0 0\nsplit 1 3 6 0 2 0\nsplit 1 4 7 0 0 2\n\
split 2 3 8 2 2 0\nsplit 2 4 9 2 0 2\nsplit 3 4 10 0 2 2\n\
pass fit\n";

// How two passes over the tetrahedron end: one that splits each edge, and one by a sizing that leaves each.
fn passed(
    alloc: Global,
    out: &mut MemorySink,
    rt: &impl Abort,
) -> Result<[Result<PassCount, PassFault>; 2], NoMemory> {
    let lists = lists_at(alloc, &TETRAHEDRON, &TETRAHEDRON_FACES, rt)?;
    let mut mesh = mesh_of(alloc, &lists, 5, 5, rt)?;
    let sizing = Sizing::new(|_: Point| Band { low: 1, high: 9 });
    let first = pass(alloc, &mut mesh, PassKind::Split { over: 3 }, 6, false, out);
    let second = fit_pass(alloc, &mut mesh, &sizing, 6, false, out);
    Ok([first, second])
}

#[test]
fn passes_tell_each_edit(rt: HostRuntime) -> Result<(), Fail> {
    let mut out = MemorySink::new(rt.alloc(), 1_000, Vec::new(rt.alloc()))?;
    let found = passed(rt.alloc(), &mut out, &rt)?;
    let counts = [6, 0].map(|done| Ok(PassCount { done, refused: 0 }));
    assert_same(&rt, &found, &counts);
    assert_bytes(&rt, out.bytes(), SPLITS);
    Ok(())
}
