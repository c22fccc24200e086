ghost use Rattle.std.specs.Prelude.{◌≤◌, length, IfOk};
ghost use Rattle.grid_base.specs.declared.TheConstants.{TEXT_MAX, DECIMALS_MAX};
ghost use Rattle.outside_io.specs.Outside.{OnlyLooks};
ghost use Rattle.track_input.specs.Named.{mesh_name};
ghost use Rattle.track_check.specs.Finding.{Finds, Reads};

use grid_base::NoMemory;
use line_text::ReadFault;
use log_text::Refusal;
use mesh_base::{FileWord, MeshLists, Scale};
use outside_io::{Fetched, Outside, Stop};
use std::alloc::Global;
use track_convert::read_lists;
use track_input::{Format, MeshFile, fetch_text};

// What a mesh file gives.
#[derive(Drop)]
pub(crate) enum FileLists {
    // The file is missing or too long, or its text is outside the grammar.
    No(Refusal),
    // Lists, of whatever shape.
    Lists(MeshLists),
}

// What a text gives.
fn read_all(
    alloc: Global,
    format: Format,
    bytes: &[u8],
    decimals: u8,
) -> Result<FileLists, NoMemory>
    requires few { decimals ≤ DECIMALS_MAX }
    requires small { length bytes.now ≤ TEXT_MAX }
    ensures { IfOk result (Reads format decimals bytes.now) }
{
    match read_lists(alloc, format, bytes, decimals) {
        Ok(lists) => Ok(FileLists::Lists(lists)),
        Err(ReadFault::NoMemory) => Err(NoMemory),
        Err(ReadFault::Text(fault)) => Ok(FileLists::No(Refusal::Mesh(fault))),
    }
}

// Fetches a mesh file, and reads it, the points with so many decimals.
pub(crate) fn find<O: Outside>(
    alloc: Global,
    scale: Scale,
    mesh: MeshFile<'_>,
    decimals: u8,
    outside: &mut O,
) -> Result<FileLists, Stop>
    requires few { decimals ≤ DECIMALS_MAX }
    ensures finds { let files = (O.around outside.old).world.holds.files in
        IfOk result (Finds scale files (mesh_name mesh.entry) decimals) }
    ensures looks { OnlyLooks (O.around outside.old) (O.around outside.new) result }
{
    let bytes = match fetch_text(alloc, scale, outside, mesh.name)? {
        Fetched::Bytes(bytes) => bytes,
        Fetched::Absent => {
            return Ok(FileLists::No(Refusal::Missing {
                file: FileWord::Mesh,
            }));
        }
        Fetched::TooLong(seen) => {
            return Ok(FileLists::No(Refusal::Long {
                file: FileWord::Mesh,
                seen,
            }));
        }
    };
    Ok(read_all(alloc, mesh.format, &bytes, decimals)?)
}
