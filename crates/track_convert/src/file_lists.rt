ghost use Rattle.std.specs.Prelude.{◌≤◌, length, IfOk};
ghost use Rattle.grid_base.specs.declared.TheConstants.{TEXT_MAX, DECIMALS_MAX};
ghost use Rattle.outside_io.specs.Outside.{OnlyLooks};
ghost use Rattle.track_input.specs.Named.{mesh_name};
ghost use Rattle.track_convert.specs.Finding.{Finds, Reads};

use crate::formats::read_lists;
use grid_base::NoMemory;
use line_text::ReadFault;
use log_text::Refusal;
use mesh_base::{FileWord, MeshLists, Scale, ShapeRefusal};
use mesh_shape::shape;
use outside_io::{Fetched, Outside, Stop};
use std::alloc::Global;
use track_input::{Format, MeshFile, fetch_text};

// What a mesh file gives.
#[derive(Drop)]
pub(crate) enum FileLists {
    // The first refusal that applies, in the order in which the work is done.
    No(Refusal),
    // Lists of good shape.
    Lists(MeshLists),
}

// Reads a text and tests the shape of its lists.
fn read_all(
    alloc: Global,
    scale: Scale,
    format: Format,
    bytes: &[u8],
    decimals: u8,
) -> Result<FileLists, NoMemory>
    requires few { decimals ≤ DECIMALS_MAX }
    requires small { length bytes.now ≤ TEXT_MAX }
    ensures { IfOk result (Reads scale format decimals bytes.now) }
{
    let lists = match read_lists(alloc, format, bytes, decimals) {
        Ok(lists) => lists,
        Err(ReadFault::NoMemory) => return Err(NoMemory),
        Err(ReadFault::Text(fault)) => return Ok(FileLists::No(Refusal::Mesh(fault))),
    };
    match shape(alloc, scale, &lists) {
        Ok(()) => Ok(FileLists::Lists(lists)),
        Err(ShapeRefusal::NoMemory) => Err(NoMemory),
        Err(ShapeRefusal::Shape(fault)) => Ok(FileLists::No(Refusal::Shape(fault))),
    }
}

// Fetches a mesh file, reads it, the points with so many decimals, and tests the shape of its lists.
pub(crate) fn find<O: Outside>(
    alloc: Global,
    scale: Scale,
    from: MeshFile<'_>,
    decimals: u8,
    outside: &mut O,
) -> Result<FileLists, Stop>
    requires few { decimals ≤ DECIMALS_MAX }
    ensures finds { let files = (O.around outside.old).world.holds.files in
        IfOk result (Finds scale files (mesh_name from.entry) decimals) }
    ensures looks { OnlyLooks (O.around outside.old) (O.around outside.new) result }
{
    let bytes = match fetch_text(alloc, scale, outside, from.name)? {
        Fetched::Bytes(bytes) => bytes,
        Fetched::Absent => {
            return Ok(FileLists::No(Refusal::Missing {
                file: FileWord::Mesh,
            }));
        }
        Fetched::TooLong(seen) => {
            return Ok(FileLists::No(Refusal::Long {
                file: FileWord::Mesh,
                seen,
            }));
        }
    };
    Ok(read_all(alloc, scale, from.format, &bytes, decimals)?)
}
