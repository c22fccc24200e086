ghost use Rattle.std.specs.Prelude.{◌≡◌, [], ◌∷◌, IfOk, OnErr};
ghost use Rattle.log_text.specs.Lines.{text_of_line};
ghost use Rattle.outside_io.specs.Outside.{WritesPart};
ghost use Rattle.log_write.specs.Written.{Says};
ghost use Rattle.track_engine.specs.Effects.{ending_of};

use log_text::{LogLine, Refusal};
use log_write::Listener;
use outside_io::Stop;
use std::alloc::Global;

// The refusal that a last line tells, if it tells one.
fn ending_of(last: &LogLine) -> Option<Refusal>
    ensures { result ≡ ending_of last.now }
{
    match last {
        LogLine::Refused(why) => Some(*why),
        _ => None,
    }
}

/// Writes the last line of the log, and answers the refusal that it tells, if it tells one.
pub fn finish<O: Listener>(
    alloc: Global,
    outside: &mut O,
    last: LogLine,
) -> Result<Option<Refusal>, Stop>
    ensures says { Says (last ∷ []) (O.around outside.old) (O.around outside.new) result }
    ensures part { OnErr result (WritesPart O.around outside (text_of_line last)) }
    ensures ending { IfOk result (λ ending. ending ≡ ending_of last) }
{
    outside.tell(alloc, &last)?;
    Ok(ending_of(&last))
}
