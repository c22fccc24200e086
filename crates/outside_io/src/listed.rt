ghost use Rattle.std.specs.Prelude.{◌↔◌, Contains, IsTrue};

// Whether a list of numbers names the call of this number.
pub(crate) fn is_listed(failing: &[u64], number: u64) -> bool
    ensures { IsTrue result ↔ Contains failing.now number }
{
    failing.contains(&number)
}
