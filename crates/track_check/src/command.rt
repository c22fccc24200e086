ghost use Rattle.std.specs.Prelude.{◌≡◌, ◌≤◌, Ok, Err};
ghost use Rattle.grid_base.specs.declared.TheConstants.{DECIMALS_MAX};
ghost use Rattle.obj_text.specs.Views.{lists_view};
ghost use Rattle.outside_io.specs.Outside.{Counts, InWorld};
ghost use Rattle.track_input.specs.Named.{mesh_name};
ghost use Rattle.track_check.specs.Endings.{Ends};
ghost use Rattle.track_check.specs.Headline.{Checks};

use crate::file_lists::{FileLists, find};
use crate::list_faults::{faults_told, first_of};
use crate::report::report_of;
use log_text::{LogLine, Refusal};
use log_write::write_line;
use mesh_base::{MeshLists, Scale};
use outside_io::{Outside, Stop};
use std::alloc::Global;
use track_input::MeshFile;

// Writes the line of a refusal.
fn refuse<O: Outside>(
    alloc: Global,
    scale: Scale,
    why: &Refusal,
    outside: &mut O,
) -> Result<Option<Refusal>, Stop>
    ensures ends { Ends scale (Err why.now) result
        (O.around outside.old).world.holds (O.around outside.new).world.holds }
    ensures counts { Counts (O.around outside.old) (O.around outside.new) result }
{
    write_line(alloc, outside, &LogLine::Refused(*why))?;
    Ok(Some(*why))
}

// Writes what is wrong with lists, and answers the first of it. All that takes memory comes before the text.
fn tell<O: Outside>(
    alloc: Global,
    scale: Scale,
    lists: &MeshLists,
    outside: &mut O,
) -> Result<Option<Refusal>, Stop>
    ensures ends { Ends scale (Ok (lists_view lists.now)) result
        (O.around outside.old).world.holds (O.around outside.new).world.holds }
    ensures counts { Counts (O.around outside.old) (O.around outside.new) result }
{
    let faults = faults_told(alloc, scale, lists)?;
    let text = report_of(alloc, lists, &faults)?;
    outside.put(&text)?;
    Ok(first_of(&faults))
}

/// Tells all that is wrong with a mesh file, not the first alone: the file is fetched, and read in the format that the ending of its name
/// picks, the points with so many decimals. One line `shape WHY ..` tells each fault of the shape of its lists, in the order in which the
/// first is looked for; where there is none, one line `meets A B FACE` tells each edge and face that meet and share no vertex, in order;
/// of all these at most `FAULTS_MAX`. Then one line `checked V F faults M` tells how many points and faces there are, and how many faults
/// were told. Nothing is stored. Takes time in proportion to the faces and the logarithm of their number, and to the pairs that are near,
/// up to the edge with which as many meet as are told. The scale says how long the file and how large the mesh may be.
///
/// Answers the first fault, and None where nothing is wrong; where the file is missing or too long, or its text is outside the grammar, the
/// refusal, of which the line is written alone. Where memory wants, nothing is written.
pub fn check<O: Outside>(
    alloc: Global,
    scale: Scale,
    mesh: MeshFile<'_>,
    decimals: u8,
    outside: &mut O,
) -> Result<Option<Refusal>, Stop>
    requires few { decimals ≤ DECIMALS_MAX }
    ensures headline { InWorld O.around outside (Checks scale (mesh_name mesh.entry) decimals result) }
    ensures same { (O.around outside.new).sides ≡ (O.around outside.old).sides }
{
    match find(alloc, scale, mesh, decimals, outside)? {
        FileLists::No(why) => refuse(alloc, scale, &why, outside),
        FileLists::Lists(lists) => tell(alloc, scale, &lists, outside),
    }
}
