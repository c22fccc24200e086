//! What becomes of a group.
ghost use Rattle.std.specs.Prelude.{◌≡◌};
ghost use Rattle.track_held.specs.Closings.{closing_by};

/// What becomes of the group that was opened last, where it is closed.
#[derive(Clone, Copy, Debug, PartialEq, Eq)]
pub enum Closing {
    /// None is open.
    NoGroup,
    /// It is kept whole.
    Kept,
    /// It has failed, and is taken back whole.
    TakenBack,
}

/// The same, by whether that group has failed, if one is open.
pub(crate) fn closing_by(failed: Option<bool>) -> Closing
    ensures { result ≡ closing_by failed }
{
    match failed {
        None => Closing::NoGroup,
        Some(false) => Closing::Kept,
        Some(true) => Closing::TakenBack,
    }
}
