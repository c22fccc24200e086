ghost use Rattle.std.specs.Prelude.{◌≡◌, ◌≤◌, map, IfOk};
ghost use Rattle.grid_base.specs.declared.TheConstants.{DECIMALS_MAX};
ghost use Rattle.grid_base.specs.Points.{position_of};
ghost use Rattle.obj_text.specs.Views.{lists_view};
ghost use Rattle.obj_text.specs.ListsWritten.{triangle_line, points_text, triangles_text, lists_text};
ghost use Rattle.line_text.specs.WrittenLines.{Appends};

use crate::writer::put_vertex;
use grid_base::{NoMemory, Point};
use line_text::{Field, put_line};
use mesh_base::MeshLists;
use std::alloc::Global;

// Appends the line of a face.
fn put_triangle(out: &mut Vec<u8>, corners: [u32; 3]) -> Result<(), NoMemory>
    ensures { Appends result out.old out.new (triangle_line corners) }
{
    let [a, b, c] = corners;
    put_line(
        &[
            Field::Text(b"f"),
            Field::Number(u64::from(a)),
            Field::Number(u64::from(b)),
            Field::Number(u64::from(c)),
        ],
        out,
    )
}

// Appends the lines of the points.
fn put_points(out: &mut Vec<u8>, points: &[Point], decimals: u8) -> Result<(), NoMemory>
    requires { decimals ≤ DECIMALS_MAX }
    ensures { Appends result out.old out.new (points_text decimals (map position_of points.now)) }
{
    for p in points {
        put_vertex(out, *p, decimals)?;
    }
    Ok(())
}

// Appends the lines of the faces.
fn put_triangles(out: &mut Vec<u8>, faces: &[[u32; 3]]) -> Result<(), NoMemory>
    ensures { Appends result out.old out.new (triangles_text faces.now) }
{
    for f in faces {
        put_triangle(out, *f)?;
    }
    Ok(())
}

/// The Wavefront OBJ text of lists on a grid of so many decimals, or out of memory: a line `v X Y Z` for each point, its
/// coordinates divided by 10 ^ decimals, and then a line `f I J K` for each face. Where the lists are of good shape it is the
/// text that `obj_of` gives of their mesh.
pub fn obj_of_lists(alloc: Global, lists: &MeshLists, decimals: u8) -> Result<Vec<u8>, NoMemory>
    requires { decimals ≤ DECIMALS_MAX }
    ensures { IfOk result (λ text. text.items ≡ lists_text decimals (lists_view lists.now)) }
{
    let mut out = Vec::new(alloc);
    put_points(&mut out, lists.points.as_slice(), decimals)?;
    put_triangles(&mut out, lists.faces.as_slice())?;
    Ok(out)
}
