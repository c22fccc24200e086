//! One line of a log, as text.
ghost use Rattle.std.specs.Prelude.{◌≡◌, [], ◌∷◌, OnErr, IsErrOf};
ghost use Rattle.log_text.specs.Lines.{text_of_line};
ghost use Rattle.outside_io.specs.Outside.{WritesPart};
ghost use Rattle.log_write.specs.Kinds.{kind_of};
ghost use Rattle.log_write.specs.Written.{Says};

use crate::listener::Listener;
use edit_base::Change;
use log_text::{LogLine, print_line};
use outside_io::{Desk, Ends, Fact, LineKind, Outside, Sink, Stop};
use std::alloc::Global;

// Most lines are shorter, so that memory is asked for once a line.
const LINE_ROOM: usize = 64;

/// Writes one line of a log, with its end. A fault leaves the first bytes of the line and not all of them, perhaps none; at want of
/// memory none. It is the sink's fault only where the sink counts one more.
pub fn write_line<O: Outside>(alloc: Global, outside: &mut O, line: &LogLine) -> Result<(), Stop>
    ensures says { Says (line.now ∷ []) (O.around outside.old) (O.around outside.new) result }
    // The line is not whole after an error.
    ensures part { OnErr result (WritesPart O.around outside (text_of_line line.now)) }
    ensures none { IsErrOf result Stop.NoMemory → outside.new ≡ outside.old }
{
    let Ok(mut text) = Vec::with_capacity(alloc, LINE_ROOM) else {
        return Err(Stop::NoMemory);
    };
    print_line(line, &mut text)?;
    outside.put(&text)
}

// What a line tells, as far as those look who watch a run.
fn kind_of(line: &LogLine) -> LineKind
    ensures { result ≡ kind_of line.now }
{
    match line {
        LogLine::Step { .. } => LineKind::Step,
        LogLine::Group => LineKind::Group,
        LogLine::Close { kept: true } => LineKind::Kept,
        LogLine::Close { kept: false } => LineKind::Undone,
        LogLine::Did(Change::Collapse { b, .. }) => LineKind::Gone { v: b.0 },
        _ => LineKind::Other,
    }
}

/// Writes the text of each line, with its end, to the sink, and lets it know what the line tells once it is whole.
impl<'d, 'k, D: Desk, K: Sink> Listener for Ends<'d, 'k, D, K> {
    fn tell(&mut self, alloc: Global, line: &LogLine) -> Result<(), Stop> {
        match write_line(alloc, self, line) {
            Ok(()) => {
                self.hear(Fact::Line(kind_of(line)));
                Ok(())
            }
            Err(stop) => Err(stop),
        }
    }
}
