//! A step that is chosen over a scan of all pairs, and its impact zones. How steps are taken is shown by the cases that the program is
//! run on.
use crate::kept_lists::shifts_of;
use crate::meshes::beside;
use crate::same::assert_same;
use grid_base::{BOX, DEPTH_MAX, HALVINGS_MAX, NoMemory};
use mesh_base::{FaceId, How, PairName, Surface, VertexId};
use pair_scan::first_meeting;
use std::alloc::Global;
use std::process::Abort;
use std::test::Fail;
use step_choose::{PASSES_MAX, Settings, choose};
use step_zones::zones;

// What is asked along x of the vertex 8 of two tetrahedra and then of each from 1 to 7. The vertex 5 goes into the face 1, where its
// three edges fail.
const INTO: [i32; 8] = [0, 0, 0, 0, 0, -8, 0, 0];

const HITS: [PairName; 3] = [
    PairName {
        a: VertexId(5),
        b: VertexId(6),
        face: FaceId(1),
    },
    PairName {
        a: VertexId(5),
        b: VertexId(7),
        face: FaceId(1),
    },
    PairName {
        a: VertexId(5),
        b: VertexId(8),
        face: FaceId(1),
    },
];

// How the step is taken.
fn chosen<S: Surface>(
    alloc: Global,
    mesh: &S,
    set: &Settings,
    rt: &impl Abort,
) -> Result<How, NoMemory> {
    assert!(rt; set.depth <= DEPTH_MAX && set.passes <= PASSES_MAX && set.halvings <= HALVINGS_MAX);
    let met = first_meeting(alloc, mesh)?;
    assert!(rt; met.is_none());
    let asked = shifts_of(alloc, mesh, &INTO, &[0; 8], rt)?;
    let choice = choose(alloc, mesh, &asked, set)?;
    assert!(rt; choice.hits.as_slice() == HITS.as_slice());
    Ok(choice.how)
}

// By the first settings; by halvings alone.
fn cases() -> [(Settings, How); 2] {
    let halvings = Settings {
        depth: 6,
        passes: 0,
        zones: false,
        halvings: 6,
    };
    [
        (Settings::at_first(), How::Impulse { passes: 1 }),
        (halvings, How::Halved { times: 1 }),
    ]
}

#[test]
fn a_step_is_chosen(rt: HostRuntime) -> Result<(), Fail> {
    let mesh = beside(rt.alloc(), 0, &rt)?;
    for (set, how) in &cases() {
        let found = chosen(rt.alloc(), &mesh, set, &rt)?;
        assert_same(&rt, &found, how);
    }
    Ok(())
}

// What is asked up as well, so that the block of all but the vertex 4 has the mean (-1, -1, 0).
const UP: [i32; 8] = [0, 0, 0, 0, 0, -1, -1, -5];

// After how many rounds zones serve; None, where no round does.
fn rounds<S: Surface>(alloc: Global, mesh: &S, rt: &impl Abort) -> Result<Option<u32>, NoMemory> {
    let met = first_meeting(alloc, mesh)?;
    assert!(rt; met.is_none());
    let asked = shifts_of(alloc, mesh, &INTO, &UP, rt)?;
    let zoned = zones(alloc, mesh, &asked, 6)?;
    Ok(zoned.map(|round| round.rounds))
}

// How far up the tetrahedra stand. At the bottom of the box the mean takes the vertex 1 out of it.
const ZONES: [(i32, Option<u32>); 2] = [(0, Some(1)), (-(BOX as i32), None)];

#[test]
fn no_zones_serve_where_a_block_leaves_the_box(rt: HostRuntime) -> Result<(), Fail> {
    for (up, wanted) in &ZONES {
        let mesh = beside(rt.alloc(), *up, &rt)?;
        let found = rounds(rt.alloc(), &mesh, &rt)?;
        assert_same(&rt, &found, wanted);
    }
    Ok(())
}
