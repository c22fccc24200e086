//! How a command ends, and what it writes.
ghost use Rattle.std.specs.Prelude.{◌≡◌, ◌<◌, length, IfOk};
ghost use Rattle.track_log.specs.Telling.{Tells};
ghost use Rattle.track_prove.specs.Doing.{ending_of, text_told};

use outside_io::{Outside, Stop};
use std::alloc::Global;
use track_log::{LogRefusal, put_text, refuse};

// What a command is to write, and so how it ends.
#[derive(Drop)]
pub(crate) enum Report {
    // The refusal, by its line.
    Refused(LogRefusal),
    // The text of a good end.
    Text(Vec<u8>),
}

// Writes the text of an ending, and answers the ending. A stop leaves the first bytes of the text, perhaps none, and not all.
pub(crate) fn tell<O: Outside>(
    alloc: Global,
    report: Report,
    outside: &mut O,
) -> Result<Option<LogRefusal>, Stop>
    requires some { 0 < length (text_told report) }
    ensures tells { Tells (text_told report) (O.around outside.old) (O.around outside.new) result }
    ensures ending { IfOk result (λ ending. ending ≡ ending_of report) }
{
    match report {
        Report::Refused(why) => refuse(alloc, &why, outside),
        Report::Text(text) => {
            put_text(outside, &text)?;
            Ok(None)
        }
    }
}
