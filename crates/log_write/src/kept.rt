//! Lines of a log that are kept as values.
ghost use Rattle.std.specs.Prelude.{◌≡◌, ◌≤◌, ◌-◌, ◌^◌, true, [], ◌∷◌, ◌++◌, length, take, IfOk, OnOk, OnErr, IsErrOf};
ghost use Rattle.log_text.specs.Lines.{text_of_line, text_of_lines};
ghost use Rattle.outside_io.specs.Outside.{Fetches, Stores, Puts};
ghost use Rattle.outside_io.specs.Sink.{AppendsPart};
ghost use Rattle.log_write.specs.Written.{Says};

use crate::copies::copy_of_line;
use crate::listener::Listener;
use grid_base::NoMemory;
use log_text::{LogLine, print_line};
use outside_io::{Fact, Fetched, Outside, Stop};
use std::alloc::Global;

/// Lines that were told, kept as values until they are cleared, or not kept at all. Their text is made when it is asked for, each line
/// once. There are no files beside them.
#[derive(Drop)]
pub struct KeptLines {
    keeps: bool,
    lines: Vec<LogLine>,
    text: Vec<u8>,
    printed: usize,
    faults: u64,
    ghost few: { faults ≤ 2 ^ 64 - 1 },
    ghost within: { printed ≤ length lines.items },
    ghost first: { text.items ≡ text_of_lines (take printed lines.items) },
}

impl KeptLines {
    ghost use Rattle.log_write.specs.Kept.{lines_in, keeps as keeps_lines, faults_in, text_in, lines_where};

    /// No lines; those that are told are kept. Takes no memory.
    pub fn new(alloc: Global) -> KeptLines
        ensures keeps { keeps_lines result ≡ true }
        ensures lines { lines_in result ≡ [] }
    {
        KeptLines {
            keeps: true,
            lines: Vec::new(alloc),
            text: Vec::new(alloc),
            printed: 0,
            faults: 0,
        }
    }

    /// Whether lines that are told are kept.
    pub fn keeps(&self) -> bool
        ensures { result ≡ keeps_lines self.now }
    {
        self.keeps
    }

    /// The lines that were told since they were last cleared.
    pub fn lines(&self) -> &[LogLine]
        ensures { result.now ≡ lines_in self.now }
    {
        &self.lines
    }

    /// Forgets the lines.
    pub fn clear(&mut self)
        ensures keeps { keeps_lines self.new ≡ keeps_lines self.old }
        ensures lines { lines_in self.new ≡ [] }
    {
        self.printed = 0;
        self.text.clear();
        self.lines.clear();
    }

    /// Keeps the lines that are told from here on; or keeps none, and forgets those that were told.
    pub fn keep(&mut self, keeps: bool)
        ensures keeps { keeps_lines self.new ≡ keeps }
        ensures lines { lines_in self.new ≡ lines_where keeps (lines_in self.old) }
    {
        self.keeps = keeps;
        if !keeps {
            self.clear();
        }
    }

    /// Makes the text of the lines, each line once. NoMemory leaves the lines as they were.
    pub fn print(&mut self) -> Result<(), NoMemory>
        ensures text { OnOk result (text_in self.new ≡ text_of_lines (lines_in self.new)) }
        ensures keeps { keeps_lines self.new ≡ keeps_lines self.old }
        ensures lines { lines_in self.new ≡ lines_in self.old }
    {
        while self.printed < self.lines.len() {
            print_line(&self.lines[self.printed], &mut self.text)?;
            self.printed += 1;
        }
        Ok(())
    }

    /// The text that was made of the lines since they were last cleared: that of the first of them.
    pub fn text(&self) -> &[u8]
        ensures { result.now ≡ text_in self.now }
    {
        &self.text
    }

    // Keeps a line, or nothing where there is no memory.
    fn add(&mut self, alloc: Global, line: &LogLine) -> Result<(), NoMemory>
        ensures ok { OnOk result (lines_in self.new ≡ lines_in self.old ++ line.now ∷ []) }
        ensures err { OnErr result (lines_in self.new ≡ lines_in self.old) }
        ensures keeps { keeps_lines self.new ≡ keeps_lines self.old }
        ensures faults { faults_in self.new ≡ faults_in self.old }
    {
        let line = copy_of_line(alloc, line)?;
        self.lines.push(line)?;
        Ok(())
    }
}

impl Outside for KeptLines {
    ghost use Rattle.log_write.specs.Kept.{around_kept};

    ghost around = { around_kept };

    /// There are no files.
    fn fetch(&mut self, _alloc: Global, _name: &str, _limit: usize) -> Result<Fetched, Stop> {
        Ok(Fetched::Absent)
    }

    /// Keeps no file.
    fn store(&mut self, _name: &str, _bytes: &[u8]) -> Result<(), Stop> {
        Ok(())
    }

    /// Takes no bytes that are no lines: it fails where there are any.
    fn put(&mut self, bytes: &[u8]) -> Result<(), Stop> {
        if bytes.is_empty() {
            return Ok(());
        }
        self.faults = self.faults.saturating_add(1);
        Err(Stop::SinkFault)
    }

    fn hear(&mut self, _fact: Fact) {}
}

impl Listener for KeptLines {
    /// Keeps the line, or not, or nothing where there is no memory.
    fn tell(&mut self, alloc: Global, line: &LogLine) -> Result<(), Stop> {
        if !self.keeps {
            return Ok(());
        }
        match self.add(alloc, line) {
            Ok(()) => Ok(()),
            Err(NoMemory) => Err(Stop::NoMemory),
        }
    }
}
