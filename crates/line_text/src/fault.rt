//! Why a text could not be read.

ghost use Rattle.std.specs.Prelude.{◌≡◌};
ghost use Rattle.line_text.specs.declared.fault.ReadFault.TheVariants as faults;

use std::alloc::{AllocError, AllocFailed};
use thiserror::Error;

/// Why a line is outside its grammar.
#[derive(Clone, Copy, Debug, PartialEq, Eq, Error)]
pub enum TextWhy {
    /// A word that writes no number of the wanted form.
    #[error("a word is no number")]
    Number = 1,
    /// A word that names no corner of a face.
    #[error("a word is no corner")]
    Corner = 2,
    /// A number outside its range.
    #[error("a number is out of range")]
    Range = 3,
    /// Fewer words than the line needs.
    #[error("too few words")]
    Short = 4,
    /// More words than the line may have.
    #[error("too many words")]
    Long = 5,
    /// A first word that begins no line.
    #[error("a word is unknown")]
    Unknown = 6,
    /// A line that would go on in the next.
    #[error("a line is continued")]
    Continuation = 7,
    /// A group that would lie too deep or is never closed, or a close of none.
    #[error("groups are not nested")]
    Nesting = 8,
    /// A line that no text of its form has there.
    #[error("a line is out of order")]
    Order = 9,
}

/// The first line that is outside the grammar, by its number from 1, and why.
#[derive(Clone, Copy, Debug, PartialEq, Eq, Error)]
#[error("line {line}: {why}")]
pub struct TextFault {
    /// The line, from 1.
    pub line: u32,
    /// Its reason.
    pub why: TextWhy,
}

/// Why a text was not read: there was no memory, or a line is outside the grammar.
#[derive(Clone, Copy, Debug, PartialEq, Eq, Error)]
pub enum ReadFault {
    /// There was no memory for what was read.
    #[error("out of memory")]
    NoMemory,
    /// The first line outside the grammar.
    #[error(transparent)]
    Text(TextFault),
}

impl From<grid_base::NoMemory> for ReadFault {
    ghost from_gives = { λ _ e. e ≡ faults.NoMemory };

    fn from(_e: grid_base::NoMemory) -> ReadFault {
        ReadFault::NoMemory
    }
}

impl From<AllocError> for ReadFault {
    ghost from_gives = { λ _ e. e ≡ faults.NoMemory };

    fn from(_e: AllocError) -> ReadFault {
        ReadFault::NoMemory
    }
}

impl<T: Drop> From<AllocFailed<T>> for ReadFault {
    ghost from_gives = { λ _ e. e ≡ faults.NoMemory };

    fn from(_e: AllocFailed<T>) -> ReadFault {
        ReadFault::NoMemory
    }
}

impl From<TextFault> for ReadFault {
    ghost from_gives = { λ f e. e ≡ faults.Text f };

    fn from(f: TextFault) -> ReadFault {
        ReadFault::Text(f)
    }
}
