// A text that only clauses read: it takes no memory, and its calls do nothing when they run.
ghost use Rattle.std.specs.Prelude.{◌≡◌, ◌++◌, [], List, ℕ};
ghost use Rattle.std.specs.Borrow.{ftrue};

use std::marker::Model;

// What was told so far.
#[derive(Drop)]
pub(crate) struct Told {
    pub ghost text: { List ℕ },
}

impl Model for Told {
    ghost also_owns = { λ _. ftrue };
}

impl Told {
    // Nothing.
    pub(crate) fn new() -> Told
        ensures { result.text ≡ [] }
    {
        Told {}
    }

    // The same, and these bytes at its end.
    pub(crate) fn and(&self, _bytes: &[u8]) -> Told
        ensures { result.text ≡ self.now.text ++ _bytes.now }
    {
        Told {}
    }
}
