ghost use Rattle.std.specs.Prelude.{◌≡◌, ◌==◌};
ghost use Rattle.std.specs.List.{slice_split};
ghost use Rattle.line_text.specs.Pieces.{cut_view};

/// The part before the first such byte, and what follows it if there is one.
pub fn cut_at(byte: u8, text: &[u8]) -> (&[u8], Option<&[u8]>)
    ensures { slice_split (λ b. b == byte) text.now ≡ cut_view byte result }
{
    for (i, b) in text.iter().enumerate() {
        if *b == byte {
            let (front, rest) = text.split_at(i);
            return (front, Some(rest.split_at(1).1));
        }
    }
    (text, None)
}

/// The parts of a text between the places of a byte.
#[derive(Clone, Copy)]
pub struct Parts<'a> {
    byte: u8,
    rest: Option<&'a [u8]>,
}

impl<'a> Parts<'a> {
    ghost use Rattle.line_text.specs.Remaining.{parts_left};

    /// The parts of the text between the places of the byte: as many as the byte stands there, and one.
    #[tactic(auto, unfolding(crate::specs::Remaining::parts_left))]
    pub fn new(byte: u8, text: &'a [u8]) -> Parts<'a>
        ensures { parts_left result ≡ slice_split (λ b. b == byte) text.now }
    {
        Parts {
            byte,
            rest: Some(text),
        }
    }
}

impl<'a> Iterator for Parts<'a> {
    ghost use Rattle.std.specs.Iterator.{YieldsFirstRef, item_count};
    ghost use Rattle.line_text.specs.Remaining.{parts_left};

    type Item = &'a [u8];

    ghost next_gives = { YieldsFirstRef parts_left };

    ghost remaining = { item_count parts_left };

    #[tactic(auto, unfolding(crate::specs::Remaining::parts_left))]
    fn next(&mut self) -> Option<&'a [u8]> {
        match self.rest {
            None => None,
            Some(text) => {
                let (part, rest) = cut_at(self.byte, text);
                self.rest = rest;
                Some(part)
            }
        }
    }
}
