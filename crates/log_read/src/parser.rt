ghost use Rattle.std.specs.Prelude.{◌≡◌, ◌≤◌, length, ◌++◌, ◌∷◌, [], OnOk, OnErr};
ghost use Rattle.grid_base.specs.declared.TheConstants.{TEXT_MAX};
ghost use Rattle.line_text.specs.Faults.{Gives, Leaves, at_line};
ghost use Rattle.log_read.specs.Reading as spec;

use crate::lines::read_line;
use grid_base::NoMemory;
use line_text::{ReadFault, cut_at, is_word};
use log_text::{IDS_VERSION, Log, LogLine, OLD_VERSION, VERSION};
use mesh_base::Scale;
use std::alloc::Global;

// Puts the line at the end, or changes nothing. The refusal is put together again, since the checker wants its type named
// where lines are passed to a list.
fn push_line(log: &mut Log, line: LogLine) -> Result<(), NoMemory>
    ensures ok { OnOk result (log.new ≡ log.old ++ line ∷ []) }
    ensures err { OnErr result (log.new ≡ log.old) }
{
    match line {
        LogLine::Refused(why) => log.push(LogLine::Refused(why)),
        other => log.push(other),
    }
}

// Adds the line that a part of a text spells.
fn add_line(
    alloc: Global,
    scale: Scale,
    version: u8,
    log: &mut Log,
    ended: bool,
    text: &[u8],
    number: u32,
) -> Result<(), ReadFault>
    ensures { Leaves log.new result
        (at_line number (spec.line_adds scale version log.old ended text.now)) }
{
    let line = read_line(alloc, scale, version, ended, text, number)?;
    push_line(log, line)?;
    Ok(())
}

// The log with what stands after its last LF, which is no line where it is empty.
fn with_last(
    alloc: Global,
    scale: Scale,
    version: u8,
    log: Log,
    last: &[u8],
    number: u32,
) -> Result<Log, ReadFault>
    ensures { Gives (λ log. log) result (spec.parts_add scale version log number (last.now ∷ [])) }
{
    let mut log = log;
    if last.is_empty() {
        return Ok(log);
    }
    add_line(alloc, scale, version, &mut log, false, last, number)?;
    Ok(log)
}

// The version by which a text is read.
pub(crate) fn version_of(bytes: &[u8]) -> u8
    ensures { result ≡ spec.version_of bytes.now }
{
    let (first, _) = cut_at(b'\n', bytes);
    if is_word(first, b"topo log 2") {
        return VERSION;
    }
    if is_word(first, b"topo log 3") {
        return IDS_VERSION;
    }
    OLD_VERSION
}

/// The lines of a log, or the first of its lines that is no spelling, with the reason. Each line ends with LF. A log whose
/// first line names `VERSION` or `IDS_VERSION` is read by this version, and any other by `OLD_VERSION`. A `mesh` line tells of no more vertices
/// and faces than the limits of the scale, and a `moved` line of fewer rounds than vertices.
pub fn read_log(alloc: Global, scale: Scale, bytes: &[u8]) -> Result<Log, ReadFault>
    requires { length bytes.now ≤ TEXT_MAX }
    ensures { Gives (λ log. log) result (spec.log_of scale bytes.now) }
{
    let version = version_of(bytes);
    let mut log = Log::new(alloc);
    let mut rest = bytes;
    let mut number = 1;
    'lines: loop {
        let (part, more) = cut_at(b'\n', rest);
        match more {
            None => return with_last(alloc, scale, version, log, part, number),
            Some(next) => {
                match add_line(alloc, scale, version, &mut log, true, part, number) {
                    Ok(()) => {}
                    Err(fault) => return Err(fault),
                }
                number += 1;
                rest = next;
            }
        }
    }
}
