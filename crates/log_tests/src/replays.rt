//! Logs that are replayed line by line.
ghost use Rattle.std.specs.Prelude.{◌≡◌, false, true, Ok, IfOk, IsOk};
ghost use Rattle.mesh_base.specs.Sides.{IsClosed};
ghost use Rattle.mesh_base.specs.Valid.{IsValidSurface};
ghost use Rattle.log_run.specs.Fits.{MayBeTried};
ghost use Rattle.log_tests.specs.Closed.{AreClosed, MayBeNamed};

use crate::meshes::{BARE, BOXES, JOINED, LONG, TETRAHEDRON, lists_of};
use crate::same::assert_same;
use grid_base::NoMemory;
use line_text::ReadFault;
use log_read::read_log;
use log_run::LogRun;
use log_text::{Log, LogLine};
use mesh_base::{Scale, Surface};
use mesh_journal::JournalMesh;
use mesh_shape::shape;
use pair_scan::first_meeting;
use std::alloc::Global;
use std::process::Abort;
use std::test::Fail;

// The replay of no line yet, over a mesh of good shape.
fn begun(alloc: Global, mesh: &[u8], rt: &impl Abort) -> Result<LogRun, Fail>
    ensures closed { IfOk result AreClosed }
    ensures unspent { IfOk result (λ run. run.is_spent ≡ false) }
{
    let lists = lists_of(alloc, mesh, rt)?;
    let shaped = shape(alloc, Scale::Standard, &lists);
    assert!(rt; shaped.is_ok());
    let mesh = JournalMesh::of(alloc, Scale::Standard, &lists)?;
    Ok(LogRun::new(alloc, mesh))
}

fn lines_of(alloc: Global, text: &[u8], rt: &impl Abort) -> Result<Log, ReadFault> {
    assert!(rt; text.len() < 1_000);
    read_log(alloc, Scale::Standard, text)
}

// That no edge of a closed mesh meets a face.
fn assert_clear<S: Surface>(alloc: Global, mesh: &S, rt: &impl Abort) -> Result<(), NoMemory>
    requires { IsClosed (S.mesh mesh.now) }
    ensures { IsOk result → IsValidSurface (S.mesh mesh.now) }
{
    let found = first_meeting(alloc, mesh)?;
    assert!(rt; found.is_none());
    Ok(())
}

// That the mesh is clear, where the line is that of an edit or of new ids.
fn may_be_tried(
    alloc: Global,
    run: &LogRun,
    line: &LogLine,
    rt: &impl Abort,
) -> Result<(), NoMemory>
    requires { IsClosed run.now.replay.mesh }
    ensures tried { IsOk result → MayBeTried run.now.replay.mesh line.now }
    ensures named { IsOk result → MayBeNamed run.now.replay.mesh line.now }
{
    match line {
        LogLine::Did(_) => assert_clear(alloc, run.mesh(), rt),
        LogLine::Vertices(_) => assert_clear(alloc, run.mesh(), rt),
        LogLine::Faces(_) => assert_clear(alloc, run.mesh(), rt),
        _ => Ok(()),
    }
}

// Whether a line fits.
fn fits(alloc: Global, run: &mut LogRun, line: &LogLine, rt: &impl Abort) -> Result<bool, NoMemory>
    requires unspent { run.old.is_spent ≡ false }
    requires closed { AreClosed run.old }
    ensures unspent { result ≡ Ok true → run.new.is_spent ≡ false }
    ensures closed { result ≡ Ok true → AreClosed run.new }
{
    may_be_tried(alloc, run, line, rt)?;
    run.take(line)
}

// The number of the first line that does not fit; 0, where all fit.
fn first_misfit(
    alloc: Global,
    run: &mut LogRun,
    lines: &[LogLine],
    rt: &impl Abort,
) -> Result<usize, NoMemory>
    requires unspent { run.old.is_spent ≡ false }
    requires closed { AreClosed run.old }
{
    for (i, line) in lines.iter().enumerate() {
        if !fits(alloc, run, line, rt)? {
            return Ok(i + 1);
        }
    }
    Ok(0)
}

// The number of the first line of a log that does not fit.
fn misfit_in(alloc: Global, run: &mut LogRun, log: &[u8], rt: &impl Abort) -> Result<usize, Fail>
    requires unspent { run.old.is_spent ≡ false }
    requires closed { AreClosed run.old }
{
    let lines = lines_of(alloc, log, rt)?;
    let found = first_misfit(alloc, run, lines.as_slice(), rt)?;
    Ok(found)
}

// A midpoint is rounded down.
const SPLIT: &[u8] = b"topo log 1\nmesh 0 4 4\npass split 4\nsplit 1 2 5 2 0 0\nend\n";

// A group is kept within one that is taken back, with the vertex that was made solid.
const OUTER_BACK: &[u8] = b"topo log 2\ngroup\nstep 1\nmove 1 -1 0 0\nmoved whole\ngroup\nsolid 1\n\
step 2\nmove 2 3 0 0\nmoved halved 1\nclose kept\nclose undone\nstep 3\nmove 1 1 2 3\nmove 2 1 2 3\n\
move 3 1 2 3\nmove 4 1 2 3\nmoved whole\n";

// A group is taken back within one that is kept.
const INNER_BACK: &[u8] = b"topo log 2\ngroup\nstep 1\nmove 1 -1 0 0\nmoved whole\ngroup\nsolid 1\n\
step 2\nmove 2 3 0 0\nmoved halved 1\nclose undone\nclose kept\nstep 3\nmove 1 2 2 3\nmove 2 1 2 3\n\
move 3 1 2 3\nmove 4 1 2 3\nmoved whole\n";

// Other lines stand within a step, behind an end too, and moves in any order.
const LOOSE: &[u8] = b"topo log 2\nend\nstep 7\nhit 1 2 3\nmove 2 1 2 3\nblock 1 2\nmove 1 1 2 3\n\
pass fit\nmove 4 1 2 3\nno flip 1 2 edge\nmove 3 1 2 3\n\
refused missing mesh\nend\nmoved zones 2\nmesh 9 4 4\n";

// Meshes and logs, with the first line of each that does not fit; 0, where all fit.
const MISFITS: [(&[u8], &[u8], usize); 51] = [
    // Where lines stand.
    (TETRAHEDRON, b"mesh 0 4 4\n", 1),
    (TETRAHEDRON, b"topo log 2\ntopo log 2\n", 2),
    (TETRAHEDRON, b"topo log 2\nmove 1 1 0 0\n", 2),
    (TETRAHEDRON, b"topo log 2\nmoved zero\n", 2),
    (
        TETRAHEDRON,
        b"topo log 2\nstep 1\nmoved zero\nmoved zero\n",
        4,
    ),
    (TETRAHEDRON, b"topo log 2\nstep 1\nstep 2\n", 3),
    (TETRAHEDRON, b"topo log 2\nstep 1\nmesh 0 4 4\n", 3),
    (TETRAHEDRON, b"topo log 2\nstep 1\nsolid 1\n", 3),
    (TETRAHEDRON, b"topo log 2\nstep 1\ngroup\n", 3),
    (TETRAHEDRON, b"topo log 2\nstep 1\nsplit 1 2 5 2 0 0\n", 3),
    (TETRAHEDRON, b"topo log 2\ngroup\nstep 1\nclose kept\n", 4),
    (TETRAHEDRON, b"topo log 2\nclose undone\n", 2),
    (
        TETRAHEDRON,
        b"topo log 2\ngroup\ngroup\ngroup\ngroup\ngroup\ngroup\ngroup\ngroup\ngroup\n",
        10,
    ),
    // What they tell.
    (TETRAHEDRON, b"topo log 2\nmesh 0 5 4\n", 2),
    (TETRAHEDRON, b"topo log 2\nmesh 0 4 5\n", 2),
    (TETRAHEDRON, b"topo log 2\nsolid 5\n", 2),
    (TETRAHEDRON, b"topo log 2\nstep 1\nmove 5 1 0 0\n", 3),
    (
        TETRAHEDRON,
        b"topo log 2\nsolid 1\nstep 1\nmove 1 1 0 0\n",
        4,
    ),
    (
        TETRAHEDRON,
        b"topo log 2\nstep 1\nmove 2 0 0 0\nmove 2 0 0 0\n",
        4,
    ),
    (
        TETRAHEDRON,
        b"topo log 2\nstep 1\nmove 3 268435457 0 0\n",
        3,
    ),
    (TETRAHEDRON, b"topo log 2\nflip 1 2\n", 2),
    (TETRAHEDRON, b"topo log 2\nsplit 1 2 6 2 0 0\n", 2),
    (TETRAHEDRON, b"topo log 2\nsplit 1 2 5 3 0 0\n", 2),
    (
        TETRAHEDRON,
        b"topo log 2\ngroup\nsplit 1 2 5 2 0 0\nclose undone\nsplit 1 2 5 2 0 0\n",
        0,
    ),
    // Groups, and lines that stand anywhere.
    (TETRAHEDRON, OUTER_BACK, 0),
    (TETRAHEDRON, INNER_BACK, 0),
    (TETRAHEDRON, LOOSE, 0),
    // Ids that vertices and faces take.
    (
        TETRAHEDRON,
        b"topo log 3\nvertices 9 2 3 5 8\nfaces 21 10 11 12 20\nmesh 0 4 4\nend\n",
        0,
    ),
    (TETRAHEDRON, b"topo log 3\nvertices 9 2 3 5\n", 2),
    (TETRAHEDRON, b"topo log 3\nvertices 9 1 2 3 5 8\n", 2),
    (TETRAHEDRON, b"topo log 3\nfaces 9\n", 2),
    (TETRAHEDRON, b"topo log 3\nfaces 9 1 2 3 4 5\n", 2),
    (
        BARE,
        b"topo log 3\nvertices 5 1 2 3 4\nfaces 9\nmesh 0 4 0\n",
        0,
    ),
    (BARE, b"topo log 3\nfaces 2 1\n", 2),
    (TETRAHEDRON, b"topo log 3\nstep 1\nvertices 5 1 2 3 4\n", 3),
    (
        TETRAHEDRON,
        b"topo log 3\nstep 1\nmoved zero\nfaces 5 1 2 3 4\n",
        0,
    ),
    (TETRAHEDRON, b"topo log 3\ngroup\nfaces 5 1 2 3 4\n", 3),
    (
        TETRAHEDRON,
        b"topo log 3\ngroup\nclose kept\nvertices 5 1 2 3 4\n",
        0,
    ),
    (
        TETRAHEDRON,
        b"topo log 3\nvertices 30 10 11 12 20\nsplit 10 11 30 2 0 0\nvertices 6 1 2 3 4 5\n",
        0,
    ),
    (
        TETRAHEDRON,
        b"topo log 3\nvertices 30 10 11 12 20\nsplit 1 2 30 2 0 0\n",
        3,
    ),
    (
        TETRAHEDRON,
        b"topo log 3\nvertices 30 10 11 12 20\nsplit 10 11 5 2 0 0\n",
        3,
    ),
    (
        TETRAHEDRON,
        b"topo log 3\nvertices 30 10 11 12 20\nvertices 5 1 2 3 4\nsplit 1 2 5 2 0 0\n",
        0,
    ),
    (
        TETRAHEDRON,
        b"topo log 3\nfaces 2147483649 1 2 3 4\nsplit 1 2 5 2 0 0\n",
        3,
    ),
    (
        TETRAHEDRON,
        b"topo log 3\nvertices 30 10 11 12 20\nsolid 20\nstep 1\nmove 10 1 0 0\nmove 20 1 0 0\n",
        6,
    ),
    (
        TETRAHEDRON,
        b"topo log 3\nvertices 30 10 11 12 20\nsolid 4\n",
        3,
    ),
    (
        TETRAHEDRON,
        b"topo log 3\nsolid 2\nvertices 30 1 3 4 20\nstep 1\nmove 1 0 0 0\nmove 4 0 0 0\nmove 3 1 0 0\n",
        7,
    ),
    (
        TETRAHEDRON,
        b"topo log 3\nsplit 1 2 5 2 0 0\ncollapse 1 5 1 0 0\nvertices 5 1 2 3 4\nsplit 1 2 5 2 0 0\n",
        0,
    ),
    // Other meshes.
    (LONG, SPLIT, 0),
    (LONG, b"topo log 2\nsplit 1 2 5 3 0 0\n", 2),
    (BOXES, b"topo log 2\nzip 1 2 9 10 1\n", 2),
    (
        JOINED,
        b"topo log 2\ncollapse 1 2 0 0 4\npinch 1 13 0 4 9 -12 0 4\n",
        3,
    ),
];

// The number of the first line of a log that does not fit a mesh.
fn misfit_of(alloc: Global, mesh: &[u8], log: &[u8], rt: &impl Abort) -> Result<usize, Fail> {
    let mut run = begun(alloc, mesh, rt)?;
    misfit_in(alloc, &mut run, log, rt)
}

#[test]
fn the_first_line_that_does_not_fit_is_found(rt: HostRuntime) -> Result<(), Fail> {
    for (mesh, log, misfit) in &MISFITS {
        let found = misfit_of(rt.alloc(), mesh, log, &rt)?;
        assert_same(&rt, &(*log, found), &(*log, *misfit));
    }
    Ok(())
}
