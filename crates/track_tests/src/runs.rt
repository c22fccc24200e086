//! Faults outside in mid-run, and files of a byte too many. What a run writes is shown by the cases that the program is run on.
use crate::ends::{answer, desk_of, sink_of};
use crate::same::{assert_bytes, assert_same};
use grid_base::NoMemory;
use outside_io::{MemoryDesk, MemorySink};
use std::alloc::Global;
use std::process::Abort;
use std::test::Fail;

// A tetrahedron.
const MESH: &[u8] = b"v 0 0 0\nv 4 0 0\nv 0 4 0\nv 0 0 4\nf 1 3 2\nf 1 2 4\nf 2 3 4\nf 1 4 3\n";

// It is moved as a whole by one step, and saved.
const LOG: &[u8] = b"topo log 2\nmesh 0 4 4\nstep 1\nmove 1 1 2 3\nmove 2 1 2 3\nmove 3 1 2 3\n\
move 4 1 2 3\nmoved whole\nmesh 1 4 4\nend\n";

// All of its edges are split, and it is saved.
const SPLITTING: &[u8] = b"split 3\nsave\n";

// That log.
const SPLITS: &[u8] = b"topo log 2\nmesh 0 4 4\npass split 3\nsplit 1 2 5 2 0 0\n\
split 1 3 6 0 2 0\nsplit 1 4 7 0 0 2\nsplit 2 3 8 2 2 0\nsplit 2 4 9 2 0 2\nsplit 3 4 10 0 2 2\n\
mesh 1 10 16\nend\n";

const TRACK: [&str; 4] = ["track", "mesh.obj", "steps.txt", "t"];

const REPLAY: [&str; 4] = ["replay", "mesh.obj", "steps.txt", "t"];

const CONVERT: [&str; 3] = ["convert", "mesh.obj", "t-000000.obj"];

const TRY: [&str; 3] = ["try", "2", "7"];

// The first lines of a text, so many of them.
fn first_lines(text: &[u8], count: usize) -> &[u8] {
    let mut seen = 0_usize;
    for (i, byte) in text.iter().enumerate() {
        if seen == count {
            return &text[..i];
        }
        if *byte == b'\n' {
            seen = seen.wrapping_add(1);
        }
    }
    text
}

fn put_files(desk: &mut MemoryDesk, mesh: &[u8], steps: &[u8]) -> Result<(), NoMemory> {
    desk.put("mesh.obj", mesh)?;
    desk.put("steps.txt", steps)
}

fn has_file(desk: &MemoryDesk, name: &str) -> bool {
    desk.file(name).is_some()
}

// The status of the run of these words and of the mesh and this file, where these fetches and stores fail, and which of two meshes are
// stored.
fn run_of(
    alloc: Global,
    (words, steps): (&[&str], &[u8]),
    (fetches, stores): (&[u64], &[u64]),
    out: &mut MemorySink,
) -> Result<(u8, [bool; 2]), NoMemory> {
    let mut desk = desk_of(alloc, fetches, stores)?;
    put_files(&mut desk, MESH, steps)?;
    let status = answer(alloc, words, &mut desk, out)?;
    Ok((
        status,
        [
            has_file(&desk, "t-000000.obj"),
            has_file(&desk, "t-000001.obj"),
        ],
    ))
}

// What is written where fetches, stores or writes of these numbers fail, the status, and which of two meshes are stored.
fn assert_failed(
    rt: &impl Abort,
    alloc: Global,
    job: (&[&str], &[u8]),
    [fetches, stores, writes]: [&[u64]; 3],
    text: &[u8],
    wanted: (u8, [bool; 2]),
) -> Result<(), NoMemory> {
    let mut out = sink_of(alloc, writes)?;
    let found = run_of(alloc, job, (fetches, stores), &mut out)?;
    assert_bytes(rt, out.bytes(), text);
    assert_same(rt, &found, &wanted);
    Ok(())
}

#[test]
fn each_write_fails_in_turn(rt: HostRuntime) -> Result<(), Fail> {
    for k in 0..11_usize {
        let fails: [&[u64]; 3] = [&[], &[], &[k as u64 + 1]];
        let wanted = (4, [k >= 2, k >= 10]);
        let written = first_lines(SPLITS, k);
        assert_failed(&rt, rt.alloc(), (&TRACK, SPLITTING), fails, written, wanted)?;
    }
    Ok(())
}

// A job by its words and its second file, and which fetches, stores and writes fail; how many lines of the splits are written; and the
// status, and which of two meshes are stored.
type Row<'a> = (
    (&'a [&'a str], &'a [u8]),
    [&'a [u64]; 3],
    usize,
    (u8, [bool; 2]),
);

const FAILING: [Row; 9] = [
    (
        (&TRACK, SPLITTING),
        [&[1], &[], &[]],
        1,
        (3, [false, false]),
    ),
    (
        (&TRACK, SPLITTING),
        [&[2], &[], &[]],
        1,
        (3, [false, false]),
    ),
    (
        (&TRACK, SPLITTING),
        [&[], &[1], &[]],
        2,
        (3, [false, false]),
    ),
    (
        (&TRACK, SPLITTING),
        [&[], &[2], &[]],
        10,
        (3, [true, false]),
    ),
    ((&REPLAY, LOG), [&[], &[1], &[]], 0, (3, [false, false])),
    ((&REPLAY, LOG), [&[], &[2], &[]], 0, (3, [true, false])),
    ((&CONVERT, b""), [&[1], &[], &[]], 0, (3, [false, false])),
    ((&CONVERT, b""), [&[], &[1], &[]], 0, (3, [false, false])),
    ((&TRY, b""), [&[], &[], &[1]], 0, (4, [false, false])),
];

#[test]
fn a_fetch_a_store_or_a_write_fails(rt: HostRuntime) -> Result<(), Fail> {
    for (job, fails, lines, wanted) in &FAILING {
        let written = first_lines(SPLITS, *lines);
        assert_failed(&rt, rt.alloc(), *job, *fails, written, *wanted)?;
    }
    Ok(())
}

const COMMENT: &[u8] = b"# comments fill up the rest of this file, and are passed over. #\n";

// 1,032,444 lines of 65 bytes, and five bytes more, which are 64 MiB and a byte.
fn long_text(alloc: Global) -> Result<Vec<u8>, NoMemory> {
    let mut text = Vec::new(alloc);
    for _ in 0..1_032_444 {
        text.extend_from_slice(COMMENT)?;
    }
    text.extend_from_slice(b"#####")?;
    Ok(text)
}

// The run of these two files is refused with these lines.
fn assert_long(
    rt: &impl Abort,
    alloc: Global,
    mesh: &[u8],
    steps: &[u8],
    text: &[u8],
) -> Result<(), NoMemory> {
    let mut desk = desk_of(alloc, &[], &[])?;
    let mut out = sink_of(alloc, &[])?;
    put_files(&mut desk, mesh, steps)?;
    let found = answer(alloc, &TRACK, &mut desk, &mut out)?;
    assert_bytes(rt, out.bytes(), text);
    assert_same(rt, &found, &5);
    Ok(())
}

#[test]
fn files_of_a_byte_too_many_are_refused(rt: HostRuntime) -> Result<(), Fail> {
    let text = long_text(rt.alloc())?;
    assert_same(&rt, &(COMMENT.len(), text.len()), &(65, 67_108_865));
    let told = b"topo log 2\nrefused long mesh 67108865\n";
    assert_long(&rt, rt.alloc(), &text, b"", told)?;
    let told = b"topo log 2\nrefused long steps 67108865\n";
    assert_long(&rt, rt.alloc(), MESH, &text, told)?;
    Ok(())
}
