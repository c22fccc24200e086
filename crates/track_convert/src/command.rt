ghost use Rattle.std.specs.Prelude.{◌≡◌, ◌≤◌, ◌∷◌, [], ℕ, length, Ok, Err, IfOk};
ghost use Rattle.std.specs.List.{AllByRecursion};
ghost use Rattle.grid_base.specs.declared.TheConstants.{DECIMALS_MAX};
ghost use Rattle.mesh_shape.specs.Shape.{shape_fault};
ghost use Rattle.obj_text.specs.Views.{lists_view};
ghost use Rattle.outside_io.specs.Outside.{Counts};
ghost use Rattle.track_input.specs.Words.{MeshName};
ghost use Rattle.track_input.specs.Named.{mesh_name};
ghost use Rattle.track_convert.specs.Conversion.{converted_line};
ghost use Rattle.track_convert.specs.Endings.{Ends};
ghost use Rattle.track_convert.specs.Headline.{ConvertsFile};

use crate::file_lists::{FileLists, find};
use crate::formats::text_of_lists;
use grid_base::NoMemory;
use line_text::{Field, put_line};
use log_text::{LogLine, Refusal};
use log_write::write_line;
use mesh_base::{MeshLists, Scale};
use outside_io::{Outside, Stop};
use std::alloc::Global;
use track_input::MeshFile;

// Each face is of three corners.
fn are_triangles(faces: &[[u32; 3]])
    ensures { AllByRecursion (λ f. length f ≡ 3) faces.now }
{}

// The line of a conversion that is done.
fn line_of(alloc: Global, lists: &MeshLists) -> Result<Vec<u8>, NoMemory>
    ensures { IfOk result (λ line. line.items ≡ converted_line (lists_view lists.now)) }
{
    let mut line = Vec::new(alloc);
    put_line(
        &[
            Field::Text(b"converted"),
            Field::Number(lists.points.len() as u64),
            Field::Number(lists.faces.len() as u64),
        ],
        &mut line,
    )?;
    Ok(line)
}

// Writes the line of a refusal, whatever the mesh was to be stored in.
fn refuse<O: Outside>(
    alloc: Global,
    why: &Refusal,
    outside: &mut O,
) -> Result<Option<Refusal>, Stop>
    ensures ends { (to : MeshName) → (decimals : ℕ) → Ends to decimals (Err why.now) result
        (O.around outside.old).world.holds (O.around outside.new).world.holds }
    ensures counts { Counts (O.around outside.old) (O.around outside.new) result }
{
    write_line(alloc, outside, &LogLine::Refused(*why))?;
    Ok(Some(*why))
}

// Stores lists of good shape, and writes the line of a conversion. All that takes memory comes before the store.
fn store_and_tell<O: Outside>(
    alloc: Global,
    scale: Scale,
    to: MeshFile<'_>,
    decimals: u8,
    lists: &MeshLists,
    outside: &mut O,
) -> Result<Option<Refusal>, Stop>
    requires few { decimals ≤ DECIMALS_MAX }
    requires good { shape_fault scale (length lists.now.points) lists.now.faces ≡ None }
    ensures ends { Ends (mesh_name to.entry) decimals (Ok (lists_view lists.now)) result
        (O.around outside.old).world.holds (O.around outside.new).world.holds }
    ensures counts { Counts (O.around outside.old) (O.around outside.new) result }
{
    are_triangles(lists.faces.as_slice());
    let text = text_of_lists(alloc, to.format, lists, decimals)?;
    let line = line_of(alloc, lists)?;
    outside.store(to.name, &text)?;
    outside.put(&line)?;
    Ok(None)
}

/// Stores the mesh of a file in another, each in the format that the ending of its name picks, the points with so many decimals: the
/// file is fetched and read, its lists are found to be of good shape, their text is stored, and one line `converted V F` tells how many
/// points and faces there are. Nothing else is written, and whether the mesh meets itself is not tested. The scale says how long the file
/// and how large the mesh may be.
///
/// Answers the refusal, of which the line is written, where the file is missing or too long, its text is outside the grammar, or its
/// lists are not of good shape.
pub fn convert<O: Outside>(
    alloc: Global,
    scale: Scale,
    from: MeshFile<'_>,
    to: MeshFile<'_>,
    decimals: u8,
    outside: &mut O,
) -> Result<Option<Refusal>, Stop>
    requires few { decimals ≤ DECIMALS_MAX }
    ensures headline { ConvertsFile O.around outside scale from.entry to.entry decimals result }
    ensures same { (O.around outside.new).sides ≡ (O.around outside.old).sides }
{
    match find(alloc, scale, from, decimals, outside)? {
        FileLists::No(why) => refuse(alloc, &why, outside),
        FileLists::Lists(lists) => store_and_tell(alloc, scale, to, decimals, &lists, outside),
    }
}
