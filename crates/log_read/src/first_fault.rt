//! The first fault of a text of which no line is kept.
ghost use Rattle.std.specs.Prelude.{◌≤◌, List, length, ◌∷◌, []};
ghost use Rattle.grid_base.specs.declared.TheConstants.{TEXT_MAX};
ghost use Rattle.log_text.specs.declared.LogLine.{LogLine};
ghost use Rattle.log_read.specs.Ahead.{IsChecked};
ghost use Rattle.log_read.specs.Reading as spec;

use crate::lines::read_line;
use crate::parser::version_of;
use line_text::{ReadFault, cut_at};
use mesh_base::Scale;
use std::alloc::Global;

// Looks at what stands after the last LF, which is no line where it is empty.
fn check_last(
    alloc: Global,
    scale: Scale,
    version: u8,
    last: &[u8],
    number: u32,
) -> Result<(), ReadFault>
    ensures { (lines : List LogLine) →
        IsChecked result (spec.parts_add scale version lines number (last.now ∷ [])) }
{
    if last.is_empty() {
        return Ok(());
    }
    read_line(alloc, scale, version, false, last, number)?;
    Ok(())
}

// Looks through a text, of which no line is kept: the first line that is no spelling, with the reason, where there is one.
pub(crate) fn check_log(alloc: Global, scale: Scale, bytes: &[u8]) -> Result<(), ReadFault>
    requires { length bytes.now ≤ TEXT_MAX }
    ensures { IsChecked result (spec.log_of scale bytes.now) }
{
    let version = version_of(bytes);
    let mut rest = bytes;
    let mut number = 1;
    'lines: loop {
        let (part, more) = cut_at(b'\n', rest);
        match more {
            None => return check_last(alloc, scale, version, part, number),
            Some(next) => {
                match read_line(alloc, scale, version, true, part, number) {
                    Ok(_) => {}
                    Err(fault) => return Err(fault),
                }
                number += 1;
                rest = next;
            }
        }
    }
}
