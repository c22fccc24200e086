//! The lines of a log that are to come.
ghost use Rattle.std.specs.Prelude.{◌≡◌, ◌≤◌, length, Ok, IfOk};
ghost use Rattle.grid_base.specs.declared.TheConstants.{TEXT_MAX};
ghost use Rattle.line_text.specs.Faults.{Gives};
ghost use Rattle.line_text.specs.Spellings.{spaced_words};
ghost use Rattle.log_read.specs.Ahead.{IsAhead, ParsesFirst, TakesFirst};
ghost use Rattle.log_read.specs.Reading as spec;

use crate::first_fault::check_log;
use crate::lines::read_line;
use crate::parser::{read_log, version_of};
use grid_base::NoMemory;
use line_text::{ReadFault, cut_at};
use log_text::LogLine;
use mesh_base::Scale;
use std::alloc::Global;
use std::collections::VecDeque;
use std::marker::Model;

// The lines of a text of at most so many bytes are parsed once, and kept.
const KEPT_MAX: usize = 16_777_216;

/// The lines of a log that are to come. A text of at most 16 MiB is parsed once. A longer one is first looked through, and then each
/// of its lines is parsed when it is taken, so that beside the text one line alone stands in memory. A contract sees the list of these lines.
#[derive(Drop)]
pub struct LogReader {
    parsed: VecDeque<LogLine>,
    text: Vec<u8>,
    at: usize,
    scale: Scale,
    version: u8,
}

impl Model for LogReader {
    ghost use Rattle.std.specs.Prelude.{List, ◌++◌};
    ghost use Rattle.log_text.specs.declared.LogLine.{LogLine};

    ghost Value = { List LogLine };

    ghost use Rattle.log_read.specs.Ahead.{lines_ahead, IsAhead};

    ghost view = { λ l. l.parsed.items ++ lines_ahead l.scale l.version l.text.items l.at };

    ghost invariant = { λ l. IsAhead l.scale l.version l.text.items l.at };
}

// The line that a part spells. Where it is known that it spells one, memory alone can be wanting.
fn spelled(
    alloc: Global,
    scale: Scale,
    version: u8,
    ended: bool,
    part: &[u8],
) -> Result<LogLine, NoMemory>
    ensures { IfOk result (λ line. Ok line ≡ spec.line_of scale version ended (spaced_words part.now)) }
{
    match read_line(alloc, scale, version, ended, part, 1) {
        Ok(line) => Ok(line),
        Err(_) => Err(NoMemory),
    }
}

// The line that is spelled from a place of a text on, and the place behind it; none at the end.
fn line_at(
    alloc: Global,
    scale: Scale,
    version: u8,
    text: &[u8],
    at: usize,
) -> Result<Option<(LogLine, usize)>, NoMemory>
    requires { IsAhead scale version text.now at }
    ensures { IfOk result (ParsesFirst scale version text.now at) }
{
    let (_, rest) = text.split_at(at);
    let (part, more) = cut_at(b'\n', rest);
    if let Some(next) = more {
        let line = spelled(alloc, scale, version, true, part)?;
        return Ok(Some((line, text.len() - next.len())));
    }
    if part.is_empty() {
        return Ok(None);
    }
    let line = spelled(alloc, scale, version, false, part)?;
    Ok(Some((line, text.len())))
}

impl LogReader {
    /// The lines of a log, or the first of its lines that is no spelling, with the reason, as `read_log` gives them.
    pub fn of(alloc: Global, scale: Scale, text: Vec<u8>) -> Result<LogReader, ReadFault>
        requires { length text.items ≤ TEXT_MAX }
        ensures { Gives (λ lines. lines) result (spec.log_of scale text.items) }
    {
        let version = version_of(&text);
        if text.len() <= KEPT_MAX {
            let log = read_log(alloc, scale, &text)?;
            return Ok(LogReader {
                parsed: VecDeque::from(log.into_vec()),
                text: Vec::new(alloc),
                at: 0,
                scale,
                version,
            });
        }
        check_log(alloc, scale, &text)?;
        Ok(LogReader {
            parsed: VecDeque::new(alloc),
            text,
            at: 0,
            scale,
            version,
        })
    }

    /// Takes the first of the lines, or answers that there is none.
    pub fn take_first(&mut self, alloc: Global) -> Result<Option<LogLine>, NoMemory>
        ensures { IfOk result (λ found. TakesFirst self.old found self.new) }
    {
        if let Some(line) = self.parsed.pop_front() {
            return Ok(Some(line));
        }
        match line_at(alloc, self.scale, self.version, &self.text, self.at)? {
            Some((line, behind)) => {
                self.at = behind;
                Ok(Some(line))
            }
            None => Ok(None),
        }
    }
}
