ghost use Rattle.std.specs.Prelude.{◌≡◌, ◌≤◌, IfOk};
ghost use Rattle.grid_base.specs.declared.TheConstants.{DECIMALS_MAX};
ghost use Rattle.obj_text.specs.Views.{lists_view};
ghost use Rattle.other_text.specs.PlyWritten.{ply_text};

use crate::off_writer::put_rows;
use grid_base::NoMemory;
use line_text::{Field, put_line};
use mesh_base::MeshLists;
use std::alloc::Global;

/// The ASCII PLY text of lists on a grid of so many decimals, or out of memory: a head with the number of points, their
/// properties `x`, `y` and `z` of type `double`, and the number of faces, and then the same rows as in the OFF text.
pub fn ply_of(alloc: Global, lists: &MeshLists, decimals: u8) -> Result<Vec<u8>, NoMemory>
    requires { decimals ≤ DECIMALS_MAX }
    ensures { IfOk result (λ text. text.items ≡ ply_text decimals (lists_view lists.now)) }
{
    let points = lists.points.len() as u64;
    let faces = lists.faces.len() as u64;
    let mut out = Vec::new(alloc);
    put_line(&[Field::Text(b"ply")], &mut out)?;
    put_line(
        &[
            Field::Text(b"format"),
            Field::Text(b"ascii"),
            Field::Text(b"1.0"),
        ],
        &mut out,
    )?;
    put_line(
        &[
            Field::Text(b"element"),
            Field::Text(b"vertex"),
            Field::Number(points),
        ],
        &mut out,
    )?;
    put_line(
        &[
            Field::Text(b"property"),
            Field::Text(b"double"),
            Field::Text(b"x"),
        ],
        &mut out,
    )?;
    put_line(
        &[
            Field::Text(b"property"),
            Field::Text(b"double"),
            Field::Text(b"y"),
        ],
        &mut out,
    )?;
    put_line(
        &[
            Field::Text(b"property"),
            Field::Text(b"double"),
            Field::Text(b"z"),
        ],
        &mut out,
    )?;
    put_line(
        &[
            Field::Text(b"element"),
            Field::Text(b"face"),
            Field::Number(faces),
        ],
        &mut out,
    )?;
    put_line(
        &[
            Field::Text(b"property"),
            Field::Text(b"list"),
            Field::Text(b"uchar"),
            Field::Text(b"int"),
            Field::Text(b"vertex_indices"),
        ],
        &mut out,
    )?;
    put_line(&[Field::Text(b"end_header")], &mut out)?;
    put_rows(&mut out, lists, decimals)?;
    Ok(out)
}
