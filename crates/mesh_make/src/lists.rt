//! The points and the faces of the cubes.

ghost use Rattle.std.specs.Prelude.{◌≡◌, ◌*◌, ◌<◌, ◌≤◌, ◌++◌, ◌∷◌, [], map, IfOk, OnOk};
ghost use Rattle.grid_base.specs.Points.{position_of};
ghost use Rattle.obj_text.specs.Obj.{fan};
ghost use Rattle.mesh_make.specs.Cubes.{IsRow, StandAlso, vertex_at, cube_points, cube_faces, cubes_lists};

use grid_base::{Items, NoMemory, Point};
use mesh_base::{Points, Triangles};
use std::alloc::Global;

/// How many cubes there are in rows of `n`.
pub(crate) fn cube_count(n: u8) -> u32
    requires { IsRow n }
    ensures value { result ≡ n * n * n }
    ensures few { result ≤ 1728 }
{
    let n = u32::from(n);
    n * n * n
}

// Appends a vertex of a cube, at this offset from the cube's least corner.
fn push_corner(
    points: &mut Points,
    n: u8,
    cube: u32,
    offset: (u32, u32, u32),
) -> Result<(), NoMemory>
    requires row { IsRow n }
    requires cube { cube < 1728 }
    requires x { offset.0 ≤ 40 }
    requires y { offset.1 ≤ 40 }
    requires z { offset.2 ≤ 40 }
    ensures { OnOk result (StandAlso points.new points.old (vertex_at n cube offset ∷ [])) }
{
    let n = u32::from(n);
    let x = 100 * (cube % n) + offset.0;
    let y = 100 * (cube / n % n) + offset.1;
    let z = 100 * (cube / n / n) + offset.2;
    points.push(Point {
        x: x as i32,
        y: y as i32,
        z: z as i32,
    })
}

// Appends the vertices of a cube.
#[tactic(auto, unfolding(crate::specs::Cubes::corner_offsets))]
fn push_vertices(points: &mut Points, n: u8, cube: u32) -> Result<(), NoMemory>
    requires row { IsRow n }
    requires cube { cube < 1728 }
    ensures { OnOk result (StandAlso points.new points.old (cube_points n cube)) }
{
    push_corner(points, n, cube, (0, 0, 0))?;
    push_corner(points, n, cube, (40, 0, 0))?;
    push_corner(points, n, cube, (40, 40, 0))?;
    push_corner(points, n, cube, (0, 40, 0))?;
    push_corner(points, n, cube, (0, 0, 40))?;
    push_corner(points, n, cube, (40, 0, 40))?;
    push_corner(points, n, cube, (40, 40, 40))?;
    push_corner(points, n, cube, (0, 40, 40))?;
    Ok(())
}

/// The points of the cubes.
pub(crate) fn points_of_cubes(alloc: Global, n: u8) -> Result<Points, NoMemory>
    requires { IsRow n }
    ensures { IfOk result (λ points. map position_of points ≡ (cubes_lists n).points) }
{
    let mut points = Items::new(alloc);
    for cube in 0..cube_count(n) {
        push_vertices(&mut points, n, cube)?;
    }
    Ok(points)
}

// Appends the two triangles of a square.
fn push_square(faces: &mut Triangles, square: [u32; 4]) -> Result<(), NoMemory>
    ensures { OnOk result (faces.new ≡ faces.old ++ fan square) }
{
    let [a, b, c, d] = square;
    faces.push([a, b, c])?;
    faces.push([a, c, d])
}

// Appends the faces of a cube.
#[tactic(auto, unfolding(crate::specs::Cubes::squares))]
fn push_faces(faces: &mut Triangles, cube: u32) -> Result<(), NoMemory>
    requires { cube < 1728 }
    ensures { OnOk result (faces.new ≡ faces.old ++ cube_faces cube) }
{
    let v = 8 * cube;
    push_square(faces, [v + 1, v + 4, v + 3, v + 2])?;
    push_square(faces, [v + 5, v + 6, v + 7, v + 8])?;
    push_square(faces, [v + 1, v + 2, v + 6, v + 5])?;
    push_square(faces, [v + 2, v + 3, v + 7, v + 6])?;
    push_square(faces, [v + 3, v + 4, v + 8, v + 7])?;
    push_square(faces, [v + 4, v + 1, v + 5, v + 8])?;
    Ok(())
}

/// The faces of the cubes.
pub(crate) fn faces_of_cubes(alloc: Global, n: u8) -> Result<Triangles, NoMemory>
    requires { IsRow n }
    ensures { IfOk result (λ faces. faces ≡ (cubes_lists n).faces) }
{
    let mut faces = Items::new(alloc);
    for cube in 0..cube_count(n) {
        push_faces(&mut faces, cube)?;
    }
    Ok(faces)
}
