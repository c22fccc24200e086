ghost use Rattle.std.specs.Prelude.{◌≡◌, ◌≤◌, map, IfOk};
ghost use Rattle.grid_base.specs.declared.TheConstants.{DECIMALS_MAX};
ghost use Rattle.grid_base.specs.Points.{position_of};
ghost use Rattle.obj_text.specs.Views.{lists_view};
ghost use Rattle.other_text.specs.OffWritten.{point_line, face_line, points_text, faces_text, rows_text, off_text};
ghost use Rattle.line_text.specs.WrittenLines.{Appends};

use grid_base::{NoMemory, Point};
use line_text::{Field, put_coordinate, put_line};
use mesh_base::MeshLists;
use std::alloc::Global;

// Appends the row of a point.
fn put_point(out: &mut Vec<u8>, p: Point, decimals: u8) -> Result<(), NoMemory>
    requires { decimals ≤ DECIMALS_MAX }
    ensures { Appends result out.old out.new (point_line decimals (position_of p)) }
{
    put_coordinate(out, p.x, decimals, b' ')?;
    put_coordinate(out, p.y, decimals, b' ')?;
    put_coordinate(out, p.z, decimals, b'\n')?;
    Ok(())
}

// Appends the row of a face.
fn put_face(out: &mut Vec<u8>, corners: [u32; 3]) -> Result<(), NoMemory>
    ensures { Appends result out.old out.new (face_line corners) }
{
    let [a, b, c] = corners;
    put_line(
        &[
            Field::Text(b"3"),
            Field::Number(u64::from(a.saturating_sub(1))),
            Field::Number(u64::from(b.saturating_sub(1))),
            Field::Number(u64::from(c.saturating_sub(1))),
        ],
        out,
    )
}

// Appends the rows of the points.
fn put_points(out: &mut Vec<u8>, points: &[Point], decimals: u8) -> Result<(), NoMemory>
    requires { decimals ≤ DECIMALS_MAX }
    ensures { Appends result out.old out.new (points_text decimals (map position_of points.now)) }
{
    for p in points {
        put_point(out, *p, decimals)?;
    }
    Ok(())
}

// Appends the rows of the faces.
fn put_faces(out: &mut Vec<u8>, faces: &[[u32; 3]]) -> Result<(), NoMemory>
    ensures { Appends result out.old out.new (faces_text faces.now) }
{
    for f in faces {
        put_face(out, *f)?;
    }
    Ok(())
}

// Appends the rows of the points and then of the faces.
pub(crate) fn put_rows(out: &mut Vec<u8>, lists: &MeshLists, decimals: u8) -> Result<(), NoMemory>
    requires { decimals ≤ DECIMALS_MAX }
    ensures { Appends result out.old out.new (rows_text decimals (lists_view lists.now)) }
{
    put_points(out, lists.points.as_slice(), decimals)?;
    put_faces(out, lists.faces.as_slice())
}

/// The OFF text of lists on a grid of so many decimals, or out of memory: `OFF`; a line with the number of points, that
/// of faces, and 0; a row for each point, its coordinates divided by 10 ^ decimals; and a row `3 I J K` for each face, its
/// corners numbered from 0.
pub fn off_of(alloc: Global, lists: &MeshLists, decimals: u8) -> Result<Vec<u8>, NoMemory>
    requires { decimals ≤ DECIMALS_MAX }
    ensures { IfOk result (λ text. text.items ≡ off_text decimals (lists_view lists.now)) }
{
    let mut out = Vec::new(alloc);
    put_line(&[Field::Text(b"OFF")], &mut out)?;
    put_line(
        &[
            Field::Number(lists.points.len() as u64),
            Field::Number(lists.faces.len() as u64),
            Field::Text(b"0"),
        ],
        &mut out,
    )?;
    put_rows(&mut out, lists, decimals)?;
    Ok(out)
}
