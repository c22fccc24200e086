//! Worked examples: lists of good shape, and lists with each fault.
use crate::meshes::{SIDES, TETRAHEDRON, lists_of};
use crate::same::assert_same;
use grid_base::{NoMemory, Point};
use mesh_base::{MeshLists, Scale, ShapeFault, ShapeRefusal};
use mesh_shape::shape;
use std::alloc::Global;
use std::test::Fail;

/// So many vertices at the origin, and so many times the face 1 2 3.
fn many(alloc: Global, points: u32, faces: u32) -> Result<MeshLists, NoMemory> {
    let mut lists = lists_of(alloc, &[], &[])?;
    for _ in 0..points {
        if let Some(point) = Point::new(0, 0, 0) {
            lists.points.push(point)?;
        }
    }
    for _ in 0..faces {
        lists.faces.push([1, 2, 3])?;
    }
    Ok(lists)
}

const SCALES: [Scale; 2] = [Scale::Standard, Scale::Large];

// The faults of lists with these points and faces, at each scale.
fn shapes_of(
    alloc: Global,
    points: &[[i32; 3]],
    faces: &[[u32; 3]],
) -> Result<[Result<(), ShapeRefusal>; 2], NoMemory> {
    let lists = lists_of(alloc, points, faces)?;
    Ok([
        shape(alloc, SCALES[0], &lists),
        shape(alloc, SCALES[1], &lists),
    ])
}

// The fault of many of them.
fn shape_of_many(
    alloc: Global,
    scale: Scale,
    points: u32,
    faces: u32,
) -> Result<Result<(), ShapeRefusal>, NoMemory> {
    let lists = many(alloc, points, faces)?;
    Ok(shape(alloc, scale, &lists))
}

// Points and faces of good shape.
const GOOD: [(&[[i32; 3]], &[[u32; 3]]); 4] = [
    (&[], &[]),
    (&TETRAHEDRON, &[]),
    (&TETRAHEDRON, &SIDES),
    (&TETRAHEDRON, &[[1, 2, 3], [1, 3, 2]]),
];

// Faces on the points of the tetrahedron, and their fault at its least place.
const FAULTS: [(&[[u32; 3]], ShapeFault); 8] = [
    (
        &[[1, 2, 3], [1, 5, 2]],
        ShapeFault::NoVertex { face: 2, corner: 2 },
    ),
    (
        &[[0, 5, 2], [5, 5, 5]],
        ShapeFault::NoVertex { face: 1, corner: 1 },
    ),
    (
        &[[1, 1, 2], [1, 2, 9]],
        ShapeFault::NoVertex { face: 2, corner: 3 },
    ),
    (
        &[[1, 2, 3], [2, 3, 1], [4, 1, 4]],
        ShapeFault::Repeated { face: 3 },
    ),
    (
        &[[1, 2, 3], [2, 3, 1]],
        ShapeFault::Doubled {
            first: 1,
            second: 2,
        },
    ),
    (
        &[[1, 2, 4], [3, 2, 1], [1, 3, 2], [4, 1, 2], [2, 1, 3]],
        ShapeFault::Doubled {
            first: 1,
            second: 4,
        },
    ),
    (
        &[[1, 3, 2], [1, 2, 4], [2, 3, 4]],
        ShapeFault::Unbalanced { from: 1, to: 3 },
    ),
    (&[[4, 3, 2]], ShapeFault::Unbalanced { from: 2, to: 3 }),
];

// How many vertices and faces, and the fault that is told of them at a scale.
const MANY: [(Scale, u32, u32, ShapeFault); 4] = [
    (
        Scale::Standard,
        65_537,
        131_073,
        ShapeFault::TooManyVertices { count: 65_537 },
    ),
    (
        Scale::Standard,
        3,
        131_073,
        ShapeFault::TooManyFaces { count: 131_073 },
    ),
    (
        Scale::Standard,
        65_536,
        131_072,
        ShapeFault::Doubled {
            first: 1,
            second: 2,
        },
    ),
    (
        Scale::Large,
        65_537,
        2,
        ShapeFault::Doubled {
            first: 1,
            second: 2,
        },
    ),
];

#[test]
fn faults_are_named_at_their_least_place(rt: HostRuntime) -> Result<(), Fail> {
    for (points, faces) in &GOOD {
        let found = shapes_of(rt.alloc(), points, faces)?;
        assert_same(&rt, &found, &[Ok(()), Ok(())]);
    }
    for (faces, fault) in &FAULTS {
        let found = shapes_of(rt.alloc(), &TETRAHEDRON, faces)?;
        let told = Err(ShapeRefusal::Shape(*fault));
        assert_same(&rt, &found, &[told, told]);
    }
    for (scale, points, faces, fault) in &MANY {
        let found = shape_of_many(rt.alloc(), *scale, *points, *faces)?;
        assert_same(&rt, &found, &Err(ShapeRefusal::Shape(*fault)));
    }
    Ok(())
}
