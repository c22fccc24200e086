ghost use Rattle.std.specs.Prelude.{◌≡◌};
ghost use Rattle.step_choose.specs.Settings.{at_first};

/// How steps are tested and what is tried where the asked shifts do not pass.
#[derive(Clone, Copy, Debug, PartialEq, Eq)]
pub struct Settings {
    /// The depth of time halving to which motions are tested, at most `DEPTH_MAX`.
    pub depth: u8,
    /// How many impulse passes are tried, at most `PASSES_MAX`.
    pub passes: u8,
    /// Whether impact zones are tried.
    pub zones: bool,
    /// How many halvings of the asked shifts are tried, at most `HALVINGS_MAX`.
    pub halvings: u8,
}

impl Settings {
    /// The settings of a run until its steps set others: depth 6, 3 impulse passes, impact zones, 6 halvings.
    pub fn at_first() -> Settings
        ensures { result ≡ at_first }
    {
        Settings {
            depth: 6,
            passes: 3,
            zones: true,
            halvings: 6,
        }
    }
}
