//! Meshes for the examples.
use grid_base::{NoMemory, Point};
use mesh_base::{MeshLists, Points, Triangles};
use std::alloc::Global;

pub(crate) const TETRAHEDRON: [[i32; 3]; 4] = [[0, 0, 0], [4, 0, 0], [0, 4, 0], [0, 0, 4]];

pub(crate) const SIDES: [[u32; 3]; 4] = [[1, 3, 2], [1, 2, 4], [2, 3, 4], [1, 4, 3]];

// The lists, without the points that are not in the box.
pub(crate) fn lists_of(
    alloc: Global,
    points: &[[i32; 3]],
    faces: &[[u32; 3]],
) -> Result<MeshLists, NoMemory> {
    let mut lists = MeshLists {
        points: Points::new(alloc),
        faces: Triangles::new(alloc),
    };
    for p in points {
        if let Some(point) = Point::new(p[0], p[1], p[2]) {
            lists.points.push(point)?;
        }
    }
    for f in faces {
        lists.faces.push(*f)?;
    }
    Ok(lists)
}

pub(crate) fn tetrahedron(alloc: Global) -> Result<MeshLists, NoMemory> {
    lists_of(alloc, &TETRAHEDRON, &SIDES)
}
