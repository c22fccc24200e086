//! What takes the lines of a log as values.
ghost use Rattle.std.specs.Prelude.{◌≡◌, [], ◌∷◌, OnErr, IsErrOf};
ghost use Rattle.log_text.specs.Lines.{text_of_line};
ghost use Rattle.outside_io.specs.Sink.{AppendsPart};
ghost use Rattle.log_write.specs.Written.{Says};

use log_text::LogLine;
use outside_io::{Outside, Stop};
use std::alloc::Global;

/// What takes the lines of a log, each as a value, in the order in which they are told. What it holds then, where it tells, is the text of
/// the lines.
pub trait Listener: Outside {
    /// Takes one line. A fault leaves the first bytes of its text and not all of them, perhaps none; at want of memory none.
    fn tell(&mut self, alloc: Global, line: &LogLine) -> Result<(), Stop>
        ensures says { Says (line.now ∷ []) (Self.around self.old) (Self.around self.new) result }
        // The line is not whole after an error.
        ensures part { OnErr result (AppendsPart (Self.around self.old).world.holds.written
            (Self.around self.new).world.holds.written (text_of_line line.now)) }
        ensures none { IsErrOf result Stop.NoMemory →
            Self.around self.new ≡ Self.around self.old };
}
