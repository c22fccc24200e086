//! Standard output as the program writes it: it waits where the system would have it written later, and remembers what the system refused.
ghost use Rattle.std.specs.Prelude.{◌≡◌};

use std::cell::Cell;
use std::io;
use std::io::{ErrorKind, Print};
use std::rt::Clock;
use std::time::Duration;

// How many milliseconds it is waited for room in a pipe before it is looked for again.
const PAUSE_MILLIS: u64 = 1;

/// Standard output. A pipe that is full and does not block is waited for as one that blocks would be, and a call that a signal cut short is
/// made again. The last error is kept.
#[derive(Drop)]
pub struct SystemOutput<'a, R> {
    rt: &'a R,
    refused: Cell<Option<io::Error>>,
}

impl<'a, R: Print + Clock> SystemOutput<'a, R> {
    /// The standard output of a runtime, which has refused nothing yet.
    pub fn new(rt: &'a R) -> Self {
        SystemOutput {
            rt,
            refused: Cell::new(None),
        }
    }

    /// What the system refused last, if it did.
    pub fn refused(&self) -> Option<io::Error> {
        self.refused.get()
    }

    // Keeps an error, and hands the answer on.
    fn keep<T>(&self, answer: io::Result<T>) -> io::Result<T>
        ensures { result ≡ answer }
    {
        if let Err(error) = &answer {
            self.refused.set(Some(*error));
        }
        answer
    }
}

impl<'a, R: Print + Clock> Print for SystemOutput<'a, R> {
    fn print<D: std::fmt::Display + Drop>(&self, value: D) -> io::Result<()> {
        self.keep(self.rt.print(value))
    }

    fn println<D: std::fmt::Display + Drop>(&self, value: D) -> io::Result<()> {
        self.keep(self.rt.println(value))
    }

    fn write_all(&self, bytes: &[u8]) -> io::Result<()> {
        self.keep(self.rt.write_all(bytes))
    }

    fn write_some(&self, bytes: &[u8]) -> io::Result<usize> {
        for _ in 0..u64::MAX {
            match self.rt.write_some(bytes) {
                Err(error) if error.kind() == ErrorKind::WouldBlock => self
                    .rt
                    .sleep(Duration::from_millis(PAUSE_MILLIS)),
                Err(error) if error.kind() == ErrorKind::Interrupted => {}
                answer => return self.keep(answer),
            }
        }
        self.keep(Err(ErrorKind::WouldBlock.into()))
    }
}
