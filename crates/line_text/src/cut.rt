ghost use Rattle.std.specs.Prelude.{◌≡◌};
ghost use Rattle.line_text.specs.Texts.{words_of};
ghost use Rattle.line_text.specs.Remaining.{words_left};

use crate::blank_words::Words;

/// The words of a line: the runs of bytes other than space and tab, up to the first that begins with `#`.
pub fn words<'a>(line: &'a [u8]) -> Words<'a>
    ensures { words_left result ≡ words_of line.now }
{
    Words::new(line)
}
