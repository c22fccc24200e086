use crate::same::assert_same;
use grid_base::{NoMemory, Point};
use mesh_make::{Job, ROW_MAX, cubes};
use std::alloc::Global;
use std::process::Abort;
use std::test::Fail;
use step_text::Directive;

// How many points, faces and directives a job has.
fn counts(job: &Job) -> [usize; 3] {
    [
        job.mesh.points.len(),
        job.mesh.faces.len(),
        job.directives.len(),
    ]
}

// A line, and which vertex is shifted on it, and how; None, where it is a step.
type Line = (u32, Option<(u32, [i32; 3])>);

fn is_told(what: &Directive, wanted: Option<(u32, [i32; 3])>) -> bool {
    match (what, wanted) {
        (Directive::ShiftOne { v, by }, Some(shift)) => (*v, [by.x, by.y, by.z]) == shift,
        (Directive::Step, None) => true,
        _ => false,
    }
}

fn is_on(job: &Job, (line, wanted): Line) -> bool {
    match job.directives.get(line.saturating_sub(1) as usize) {
        Some(placed) => placed.line == line && is_told(&placed.what, wanted),
        None => false,
    }
}

// Lines of the job of one cube, which moves by the key.
const ONE: [Line; 6] = [
    (1, Some((1, [1, 5, 9]))),
    (8, Some((8, [1, 5, 9]))),
    (9, None),
    (10, Some((1, [5, 9, 4]))),
    (19, Some((1, [9, 4, 8]))),
    (27, None),
];

// The same of eight, which stand in rows.
const EIGHT: [Line; 4] = [
    (64, Some((64, [5, 9, 4]))),
    (65, None),
    (194, Some((64, [4, 8, 3]))),
    (195, None),
];

// How many cubes stand in a row, the counts, the last point and the last face, and some lines.
type Row<'a> = (u8, [usize; 3], [i32; 3], [u32; 3], &'a [Line]);

const JOBS: [Row; 2] = [
    (1, [8, 12, 29], [0, 40, 40], [4, 5, 8], &ONE),
    (2, [64, 96, 197], [100, 140, 140], [60, 61, 64], &EIGHT),
];

fn assert_job(
    rt: &impl Abort,
    alloc: Global,
    (row, wanted, point, face, lines): Row,
) -> Result<(), NoMemory> {
    assert!(rt; 1 <= row && row <= ROW_MAX);
    let job = cubes(alloc, row, 7)?;
    assert_same(rt, &counts(&job), &wanted);
    assert_same(
        rt,
        &job.mesh.points.as_slice().last().copied(),
        &Point::new(point[0], point[1], point[2]),
    );
    assert_same(rt, &job.mesh.faces.as_slice().last().copied(), &Some(face));
    for line in lines {
        assert!(rt; is_on(&job, *line), "line {}", line.0);
    }
    Ok(())
}

#[test]
fn cubes_stand_in_rows_and_move_by_the_key(rt: HostRuntime) -> Result<(), Fail> {
    for row in &JOBS {
        assert_job(&rt, rt.alloc(), *row)?;
    }
    Ok(())
}
