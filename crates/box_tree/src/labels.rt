//! Numbers that a box is known by.
ghost use Rattle.std.specs.Prelude.{◌≡◌};
ghost use Rattle.box_tree.specs.Labels.{has_label, is_apart, label_or_zero, common};

/// Up to three numbers that a box is known by, such as the vertices of a face; 0 is none.
#[derive(Clone, Copy)]
pub struct Labels {
    pub first: u32,
    pub second: u32,
    pub third: u32,
}

impl Labels {
    /// Whether the number is one of them; 0 is none.
    pub fn has(&self, n: u32) -> bool
        ensures { result ≡ has_label self.now n }
    {
        n != 0 && (n == self.first || n == self.second || n == self.third)
    }

    /// Whether neither of the two numbers is one of them.
    pub fn is_apart(&self, a: u32, b: u32) -> bool
        ensures { result ≡ is_apart self.now a b }
    {
        !(self.has(a) || self.has(b))
    }

    // The number, if it is one of them, and else 0.
    fn label_or_zero(&self, n: u32) -> u32
        ensures { result ≡ label_or_zero self.now n }
    {
        if self.has(n) { n } else { 0 }
    }

    /// Those of them that are also of the others.
    pub fn common(&self, other: &Labels) -> Labels
        ensures { result ≡ common self.now other.now }
    {
        Labels {
            first: other.label_or_zero(self.first),
            second: other.label_or_zero(self.second),
            third: other.label_or_zero(self.third),
        }
    }
}
