// The lines of a text are counted as its bytes come.
ghost use Rattle.std.specs.Prelude.{◌≡◌, ◌≤◌, ◌+◌, ◌++◌, ◌∷◌, [], List, ℕ, length, if◌then◌else◌};
ghost use Rattle.outside_io.specs.ToldLines.{LF, capped};

// How many of a line's first bytes are kept: more than tell one kind of line from the others.
const KEPT: usize = 12;

// How many lines have ended, how many of them tell a step, how many one that is taken whole, and how many a split; and the first
// bytes of the line that has not ended.
#[derive(Clone, Copy)]
pub(crate) struct LineCounts {
    pub(crate) lines: u64,
    pub(crate) steps: u64,
    pub(crate) whole_steps: u64,
    pub(crate) splits: u64,
    front: [u8; KEPT],
    len: usize,
    ghost sized: { length front ≡ 12 },
    ghost fits: { len ≤ 12 },
}

// A count with one more, where there is one more. It stands still at its end.
fn counted(count: u64, is_one_more: bool) -> u64
    ensures { result ≡ capped (count + (if is_one_more then 1 else 0)) }
{
    if is_one_more {
        count.saturating_add(1)
    } else {
        count
    }
}

impl LineCounts {
    ghost use Rattle.outside_io.specs.Counted.{AreOf};

    // Of the empty text.
    pub(crate) fn new() -> LineCounts
        ensures { AreOf result [] }
    {
        LineCounts {
            lines: 0,
            steps: 0,
            whole_steps: 0,
            splits: 0,
            front: [0; KEPT],
            len: 0,
        }
    }

    // Counts the line that ends here.
    fn end_line(&mut self)
        ensures { (text : List ℕ) → AreOf self.old text → AreOf self.new (text ++ LF ∷ []) }
    {
        let front = &self.front[..self.len];
        let is_step = front.starts_with(b"step ");
        let is_whole_step = front == b"moved whole".as_slice();
        let is_split = front.starts_with(b"split ");
        self.lines = counted(self.lines, true);
        self.steps = counted(self.steps, is_step);
        self.whole_steps = counted(self.whole_steps, is_whole_step);
        self.splits = counted(self.splits, is_split);
        self.len = 0;
    }

    // Counts with one more byte.
    fn take(&mut self, byte: u8)
        ensures { (text : List ℕ) → AreOf self.old text → AreOf self.new (text ++ byte ∷ []) }
    {
        if byte == b'\n' {
            self.end_line();
        } else if self.len < KEPT {
            self.front[self.len] = byte;
            self.len += 1;
        }
    }

    // Counts with more bytes.
    pub(crate) fn take_all(&mut self, bytes: &[u8])
        ensures { (text : List ℕ) → AreOf self.old text → AreOf self.new (text ++ bytes.now) }
    {
        for byte in bytes {
            self.take(*byte);
        }
    }
}
