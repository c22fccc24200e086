ghost use Rattle.std.specs.Prelude.{◌≡◌, ◌≤◌, length, IfOk};
ghost use Rattle.grid_base.specs.declared.TheConstants.{TEXT_MAX, DECIMALS_MAX};
ghost use Rattle.line_text.specs.Faults.{Gives};
ghost use Rattle.obj_text.specs.Views.{lists_view};
ghost use Rattle.track_convert.specs.Formats.{lists_in, text_in};

use grid_base::NoMemory;
use line_text::ReadFault;
use mesh_base::MeshLists;
use obj_text::{obj_of_lists, read_obj};
use other_text::{off_of, ply_of, read_off, read_ply};
use std::alloc::Global;
use track_input::Format;

/// The lists that a text of a format writes, its points with so many decimals. Refuses the first line outside the grammar, and
/// where there is no memory.
pub fn read_lists(
    alloc: Global,
    format: Format,
    bytes: &[u8],
    decimals: u8,
) -> Result<MeshLists, ReadFault>
    requires small { length bytes.now ≤ TEXT_MAX }
    requires places { decimals ≤ DECIMALS_MAX }
    ensures { Gives lists_view result (lists_in format decimals bytes.now) }
{
    match format {
        Format::Obj => read_obj(alloc, bytes, decimals),
        Format::Off => read_off(alloc, bytes, decimals),
        Format::Ply => read_ply(alloc, bytes, decimals),
    }
}

// Writes lists in a format.
pub(crate) fn text_of_lists(
    alloc: Global,
    format: Format,
    lists: &MeshLists,
    decimals: u8,
) -> Result<Vec<u8>, NoMemory>
    requires { decimals ≤ DECIMALS_MAX }
    ensures { IfOk result (λ text. text.items ≡ text_in format decimals (lists_view lists.now)) }
{
    match format {
        Format::Obj => obj_of_lists(alloc, lists, decimals),
        Format::Off => off_of(alloc, lists, decimals),
        Format::Ply => ply_of(alloc, lists, decimals),
    }
}
