ghost use Rattle.std.specs.Prelude.{◌≤◌, length, IfOk};
ghost use Rattle.grid_base.specs.declared.TheConstants.{TEXT_MAX, DECIMALS_MAX};
ghost use Rattle.outside_io.specs.Outside.{OnlyLooks};
ghost use Rattle.track_input.specs.Reading.{Reads};
ghost use Rattle.track_input.specs.Reads.{PreparesJob};

use crate::text_fetch::fetch_text;
use grid_base::NoMemory;
use line_text::ReadFault;
use log_text::Refusal;
use mesh_base::{FileWord, MeshLists, Scale, ShapeRefusal};
use mesh_shape::shape;
use obj_text::read_obj;
use outside_io::{Fetched, Outside, Stop};
use std::alloc::Global;
use step_text::{Directives, read_steps};

/// What is read: the first refusal that applies, or lists of good shape and directives.
#[derive(Drop)]
pub enum Ready {
    /// The first refusal that applies, in the order in which the work is done.
    No(Refusal),
    /// The lists of the mesh file, which are of good shape, and the directives of the step file.
    Yes(MeshLists, Directives),
}

// Reads both texts.
fn read_all(
    alloc: Global,
    scale: Scale,
    decimals: u8,
    mesh: &[u8],
    steps: &[u8],
) -> Result<Ready, NoMemory>
    requires few { decimals ≤ DECIMALS_MAX }
    requires mesh_length { length mesh.now ≤ TEXT_MAX }
    requires step_length { length steps.now ≤ TEXT_MAX }
    ensures { IfOk result (Reads scale decimals mesh.now steps.now) }
{
    let lists = match read_obj(alloc, mesh, decimals) {
        Ok(lists) => lists,
        Err(ReadFault::NoMemory) => return Err(NoMemory),
        Err(ReadFault::Text(fault)) => return Ok(Ready::No(Refusal::Mesh(fault))),
    };
    match shape(alloc, scale, &lists) {
        Ok(()) => {}
        Err(ShapeRefusal::NoMemory) => return Err(NoMemory),
        Err(ShapeRefusal::Shape(fault)) => return Ok(Ready::No(Refusal::Shape(fault))),
    }
    match read_steps(alloc, steps) {
        Ok(steps) => Ok(Ready::Yes(lists, steps)),
        Err(ReadFault::NoMemory) => Err(NoMemory),
        Err(ReadFault::Text(fault)) => Ok(Ready::No(Refusal::Steps(fault))),
    }
}

/// Fetches and reads a mesh file and a step file, the points with so many decimals, both files and the mesh within the limits of a scale.
/// Both files are fetched before a text is read, the mesh file first. Nothing is written or stored.
pub fn prepare<O: Outside>(
    alloc: Global,
    scale: Scale,
    mesh_name: &str,
    step_name: &str,
    decimals: u8,
    outside: &mut O,
) -> Result<Ready, Stop>
    requires few { decimals ≤ DECIMALS_MAX }
    ensures prepares { PreparesJob O.around outside scale mesh_name.now step_name.now decimals result }
    ensures looks { OnlyLooks (O.around outside.old) (O.around outside.new) result }
{
    let mesh = match fetch_text(alloc, scale, outside, mesh_name)? {
        Fetched::Bytes(bytes) => bytes,
        Fetched::Absent => {
            return Ok(Ready::No(Refusal::Missing {
                file: FileWord::Mesh,
            }));
        }
        Fetched::TooLong(seen) => {
            return Ok(Ready::No(Refusal::Long {
                file: FileWord::Mesh,
                seen,
            }));
        }
    };
    let steps = match fetch_text(alloc, scale, outside, step_name)? {
        Fetched::Bytes(bytes) => bytes,
        Fetched::Absent => {
            return Ok(Ready::No(Refusal::Missing {
                file: FileWord::Steps,
            }));
        }
        Fetched::TooLong(seen) => {
            return Ok(Ready::No(Refusal::Long {
                file: FileWord::Steps,
                seen,
            }));
        }
    };
    Ok(read_all(alloc, scale, decimals, &mesh, &steps)?)
}
