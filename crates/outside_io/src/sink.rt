// A sink, and how a piece of bytes is put into it whole.
ghost use Rattle.std.specs.Prelude.{◌≡◌, ◌<◌, ◌≤◌, ◌-◌, ◌^◌, List, Option, ℕ, length, take, IfOk, OnOk, OnErr};
ghost use Rattle.outside_io.specs.Causes.{HasCause};
ghost use Rattle.outside_io.specs.Sink.{appended, AppendsPart};

use crate::Fact;
use thiserror::Error;

/// A call outside failed.
#[derive(Clone, Copy, Debug, PartialEq, Eq, Error)]
#[error("the sink failed")]
pub struct Failed;

/// What takes bytes, such as standard output. It counts its faults, so that a caller can tell a fault of the sink from
/// one of its own.
pub trait Sink {
    /// The bytes that it holds, where it tells.
    ghost written: { Self → Option (List ℕ) };

    /// How often it has failed.
    ghost faults: { Self → ℕ };

    /// Takes the first bytes of a piece, at least one where there is one, and says how many.
    fn write(&mut self, bytes: &[u8]) -> Result<usize, Failed>
        ensures within { IfOk result (λ n. n ≤ length bytes.now) }
        ensures taken { IfOk result
            (λ n. written self.new ≡ appended (written self.old) (take n bytes.now)) }
        ensures some { IfOk result (λ n. 0 < length bytes.now → 0 < n) }
        ensures refused { OnErr result (written self.new ≡ written self.old) }
        ensures cause { HasCause (faults self.old) (faults self.new) result };

    /// Hears a fact of the run. Nothing is written.
    fn hear(&mut self, fact: Fact)
        ensures written { written self.new ≡ written self.old }
        ensures faults { faults self.new ≡ faults self.old }
    {}

    /// The count of faults ends at the greatest `u64`, and stands still there.
    ghost few: { (sink : Self) → faults sink ≤ 2 ^ 64 - 1 };
}

/// Puts all of a piece into a sink. Where a write fails, the first bytes of the piece, perhaps none, were taken, and
/// not all of them.
pub fn put_all<K: Sink>(sink: &mut K, bytes: &[u8]) -> Result<(), Failed>
    ensures ok { OnOk result (K.written sink.new ≡ appended (K.written sink.old) bytes.now) }
    ensures failed { OnErr result
        (AppendsPart (K.written sink.old) (K.written sink.new) bytes.now) }
    ensures cause { HasCause (K.faults sink.old) (K.faults sink.new) result }
{
    let mut done = 0;
    while done < bytes.len() {
        done += sink.write(&bytes[done..])?;
    }
    Ok(())
}
