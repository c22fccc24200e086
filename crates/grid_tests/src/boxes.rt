use crate::places::extent;
use box_tree::{BoxTree, LabelledBox, Labels, SmallBox};
use grid_base::{EXTENT_MAX, Extent, NoMemory};
use std::alloc::Global;
use std::process::Abort;
use std::test::Fail;

// The greatest coordinate of a box.
const M: i64 = EXTENT_MAX as i64;

// The box from one place of a line to another.
fn span(rt: &impl Abort, [from, to]: [i64; 2]) -> Extent {
    extent(rt, [from, 0, 0], [to, 5, 5])
}

// That box, with labels.
fn labelled(rt: &impl Abort, ends: [i64; 2], labels: [u32; 3]) -> LabelledBox {
    LabelledBox {
        at: SmallBox::of(&span(rt, ends)),
        labels: Labels {
            first: labels[0],
            second: labels[1],
            third: labels[2],
        },
    }
}

// What is asked of a tree: where, which labels are left out, and what is found.
type Row = ([i64; 2], [u32; 2], &'static [u64]);

// What is found by a row. The list has what was found before.
fn assert_found(
    rt: &impl Abort,
    tree: &BoxTree,
    ends: [i64; 2],
    [a, b]: [u32; 2],
    wanted: &[u64],
    into: &mut Vec<u64>,
) -> Result<(), NoMemory> {
    tree.overlapping_apart(span(rt, ends), a, b, into)?;
    assert!(rt; into.as_slice() == wanted, "{ends:?}");
    Ok(())
}

fn assert_rows(
    rt: &impl Abort,
    alloc: Global,
    tree: &BoxTree,
    rows: &[Row],
) -> Result<(), NoMemory> {
    let mut into = Vec::new(alloc);
    for (ends, labels, wanted) in rows {
        assert_found(rt, tree, *ends, *labels, wanted, &mut into)?;
    }
    Ok(())
}

const LINE: [[i64; 2]; 7] = [
    [0, 5],
    [20, 25],
    [5, 9],
    [-9, -1],
    [24, 30],
    [-M, M],
    [3, 4],
];

const ALONG: [Row; 2] = [
    ([4, 20], [0, 0], &[0, 1, 2, 5, 6]),
    ([31, 39], [0, 0], &[5]),
];

fn line(rt: &impl Abort, alloc: Global) -> Result<BoxTree, NoMemory> {
    let mut boxes = Vec::new(alloc);
    for ends in &LINE {
        boxes.push(labelled(rt, *ends, [0, 0, 0]))?;
    }
    BoxTree::of(alloc, &boxes)
}

#[test]
fn boxes_that_touch_are_found_rising(rt: HostRuntime) -> Result<(), Fail> {
    let tree = line(&rt, rt.alloc())?;
    assert_rows(&rt, rt.alloc(), &tree, &ALONG)?;
    Ok(())
}

// Adds the boxes of a fan: so many faces at a vertex.
fn add_fan(
    rt: &impl Abort,
    boxes: &mut Vec<LabelledBox>,
    at: u32,
    rim: u32,
    count: u32,
) -> Result<(), NoMemory> {
    for k in 0..count {
        let rim = rim.wrapping_add(k);
        boxes.push(labelled(rt, [0, 9], [rim, at, rim.wrapping_add(1)]))?;
    }
    Ok(())
}

// A vertex with 70 faces, and one with four.
fn fans(rt: &impl Abort, alloc: Global) -> Result<BoxTree, NoMemory> {
    let mut boxes = Vec::new(alloc);
    add_fan(rt, &mut boxes, 1, 100, 70)?;
    add_fan(rt, &mut boxes, 2, 168, 4)?;
    BoxTree::of(alloc, &boxes)
}

const AT_VERTICES: [Row; 3] = [
    ([3, 4], [1, 0], &[70, 71, 72, 73]),
    ([3, 4], [1, 169], &[72, 73]),
    ([3, 4], [1, 2], &[]),
];

#[test]
fn faces_at_a_vertex_are_left_out(rt: HostRuntime) -> Result<(), Fail> {
    let tree = fans(&rt, rt.alloc())?;
    assert_rows(&rt, rt.alloc(), &tree, &AT_VERTICES)?;
    Ok(())
}
