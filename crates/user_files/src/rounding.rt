// How many coordinates of a mesh were rounded.
ghost use Rattle.std.specs.Prelude.{◌≤◌, length};
ghost use Rattle.grid_base.specs.declared.TheConstants.{TEXT_MAX, DECIMALS_MAX};

use grid_base::DECIMALS_MAX;
use mesh_base::MeshLists;
use obj_text::read_obj;
use other_text::{read_off, read_ply};
use refusal_sentences::{has_finer_number, has_long_number, rounding_warning};
use std::alloc::{AllocError, Global};
use track_input::Format;

/// The lists of a text in a format, on a grid of so many decimals; None where it is outside the grammar, or there is no memory.
pub fn lists_in(alloc: Global, format: Format, bytes: &[u8], decimals: u8) -> Option<MeshLists>
    requires small { length bytes.now ≤ TEXT_MAX }
    requires few { decimals ≤ DECIMALS_MAX }
{
    match format {
        Format::Obj => read_obj(alloc, bytes, decimals).ok(),
        Format::Off => read_off(alloc, bytes, decimals).ok(),
        Format::Ply => read_ply(alloc, bytes, decimals).ok(),
    }
}

// The lists of a mesh on the finest grid, down to one of so many decimals, on which its coordinates are in the box, and the decimals of
// that.
fn finest(alloc: Global, format: Format, bytes: &[u8], decimals: u8) -> Option<(MeshLists, u8)>
    requires { length bytes.now ≤ TEXT_MAX }
{
    for down in 0..=DECIMALS_MAX.saturating_sub(decimals) {
        let fine = DECIMALS_MAX - down;
        if let Some(lists) = lists_in(alloc, format, bytes, fine) {
            return Some((lists, fine));
        }
    }
    None
}

/// Says how many coordinates of a mesh are rounded on a grid of so many decimals, if any are. A text all of whose numbers are short enough
/// is not read for it.
pub fn rounded(
    alloc: Global,
    format: Format,
    bytes: &[u8],
    decimals: u8,
) -> Result<Option<String>, AllocError>
    requires { length bytes.now ≤ TEXT_MAX }
{
    if !has_long_number(bytes, decimals) {
        return Ok(None);
    }
    match finest(alloc, format, bytes, decimals) {
        Some((lists, fine)) => {
            let is_finer = has_finer_number(bytes, format, fine);
            rounding_warning(alloc, &lists, fine, decimals, is_finer)
        }
        None => Ok(None),
    }
}
