//! The text of a summary.
ghost use Rattle.std.specs.Prelude.{◌≡◌, IfOk};
ghost use Rattle.line_text.specs.WrittenLines.{Appends};
ghost use Rattle.outside_io.specs.Tally.{told_to};
ghost use Rattle.mesh_make.specs.Cubes.{IsRow};
ghost use Rattle.track_try.specs.Summary.{corner_text, job_text, kinds_text, end_text, summary_text};
ghost use Rattle.track_try.specs.Told.{counts_in};

use grid_base::{NoMemory, Point};
use line_text::{Field, put_line};
use mesh_base::{Surface, VertexId};
use outside_io::TallySink;
use std::alloc::Global;

// Appends the lines that tell the job.
fn put_job(n: u8, key: u32, into: &mut Vec<u8>) -> Result<(), NoMemory>
    requires { IsRow n }
    ensures { Appends result into.old into.new (job_text n key) }
{
    let row = u64::from(n);
    put_line(
        &[
            Field::Text(b"try"),
            Field::Number(row),
            Field::Number(u64::from(key)),
        ],
        into,
    )?;
    put_line(
        &[Field::Text(b"cubes"), Field::Number(row * row * row)],
        into,
    )
}

// Appends the lines that tell how many lines of each kind a log has.
fn put_kinds(told: &TallySink, into: &mut Vec<u8>) -> Result<(), NoMemory>
    ensures { Appends result into.old into.new (kinds_text (counts_in (told_to told.now))) }
{
    put_line(
        &[
            Field::Text(b"steps"),
            Field::Number(told.steps()),
            Field::Text(b"whole"),
            Field::Number(told.whole_steps()),
        ],
        into,
    )?;
    put_line(
        &[Field::Text(b"splits"), Field::Number(told.splits())],
        into,
    )
}

// Appends the line that tells where a vertex stands; none where it does not live.
fn put_corner(at: Option<Point>, into: &mut Vec<u8>) -> Result<(), NoMemory>
    ensures { Appends result into.old into.new (corner_text at) }
{
    let Some(p) = at else {
        return Ok(());
    };
    put_line(
        &[
            Field::Text(b"corner"),
            Field::Signed(p.x),
            Field::Signed(p.y),
            Field::Signed(p.z),
        ],
        into,
    )
}

// Appends the lines that tell a mesh.
fn put_end<S: Surface>(mesh: &S, into: &mut Vec<u8>) -> Result<(), NoMemory>
    ensures { Appends result into.old into.new (end_text (S.mesh mesh.now)) }
{
    put_line(
        &[
            Field::Text(b"mesh"),
            Field::Number(u64::from(mesh.vertices())),
            Field::Number(u64::from(mesh.faces())),
        ],
        into,
    )?;
    put_corner(mesh.point(VertexId(1)), into)
}

/// The summary of a job of cubes, by what a counting sink was given of its log, and by the mesh at its end.
pub(crate) fn summary_bytes<S: Surface>(
    alloc: Global,
    n: u8,
    key: u32,
    told: &TallySink,
    mesh: &S,
) -> Result<Vec<u8>, NoMemory>
    requires { IsRow n }
    ensures { IfOk result (λ text.
        text.items ≡ summary_text n key (counts_in (told_to told.now)) (S.mesh mesh.now)) }
{
    let mut text = Vec::new(alloc);
    put_job(n, key, &mut text)?;
    put_kinds(told, &mut text)?;
    put_end(mesh, &mut text)?;
    put_line(
        &[Field::Text(b"lines"), Field::Number(told.lines())],
        &mut text,
    )?;
    Ok(text)
}
