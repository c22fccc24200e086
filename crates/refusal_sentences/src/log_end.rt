// What may be amiss at the end of a log each line of which fits.
ghost use Rattle.std.specs.Prelude.{◌≤◌, length};
ghost use Rattle.grid_base.specs.declared.TheConstants.{TEXT_MAX};

use crate::places::word_at;
use line_text::Lines;
use std::alloc::{AllocError, Global};

// How a log ends.
#[derive(Clone, Copy)]
struct LogEnd {
    // Whether a line says that the run came to its end, or why it did not.
    has_end: bool,
    // The number of the first line after that; 0 where there is none.
    after: u32,
}

// How the log ends.
fn end_of(bytes: &[u8]) -> LogEnd
    requires { length bytes.now ≤ TEXT_MAX }
{
    let mut end = LogEnd {
        has_end: false,
        after: 0,
    };
    for line in Lines::new(bytes) {
        let first = word_at(line.bytes, 0);
        if end.has_end && end.after == 0 && !first.is_empty() {
            end.after = line.number;
        }
        if first == b"end".as_slice() || first == b"refused".as_slice() {
            end.has_end = true;
        }
    }
    end
}

/// Says that a log has no end, or that lines stand after it; `None` where neither is so.
pub fn log_end_warning(
    alloc: Global,
    name: &str,
    bytes: &[u8],
) -> Result<Option<String>, AllocError>
    requires { length bytes.now ≤ TEXT_MAX }
{
    let end = end_of(bytes);
    if !end.has_end {
        let said = format!(in alloc;
            "{name} has no line `end` or `refused`: it may have been cut, or its run was stopped"
        )?;
        return Ok(Some(said));
    }
    if end.after > 0 {
        let line = end.after;
        let said = format!(in alloc; "{name}, line {line}: a run writes nothing after its end")?;
        return Ok(Some(said));
    }
    Ok(None)
}
