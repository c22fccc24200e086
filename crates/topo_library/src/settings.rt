//! Settings, and the lengths of a pass, as a caller in C gives them.
ghost use Rattle.std.specs.Prelude.{◌≡◌, MatchOption};
ghost use Rattle.mesh_sizing.specs.Sizes.{IsBand};
ghost use Rattle.topo_library.specs.Codes.{AreSettings};
ghost use Rattle.topo_library.specs.Tellings.{settings_at, band_of};

use grid_base::{DEPTH_MAX, HALVINGS_MAX, LENGTH_MAX};
use mesh_sizing::Band;
use step_choose::{PASSES_MAX, Settings};

/// Settings; None where one is beyond its limit.
pub(crate) fn settings_at(depth: u32, passes: u32, zones: u32, halvings: u32) -> Option<Settings>
    ensures { MatchOption result (¬ AreSettings depth passes zones halvings)
        (λ set. AreSettings depth passes zones halvings
        × (set ≡ settings_at depth passes zones halvings)) }
{
    if depth > u32::from(DEPTH_MAX) || passes > u32::from(PASSES_MAX) {
        return None;
    }
    if zones > 1 || halvings > u32::from(HALVINGS_MAX) {
        return None;
    }
    Some(Settings {
        depth: depth as u8,
        passes: passes as u8,
        zones: zones == 1,
        halvings: halvings as u8,
    })
}

/// The band from one length to another; None where it is none: the first is not below the second, or that is above `LENGTH_MAX`.
pub(crate) fn band_of(low: u32, high: u32) -> Option<Band>
    ensures { MatchOption result (¬ IsBand (band_of low high))
        (λ band. IsBand (band_of low high) × (band ≡ band_of low high)) }
{
    if low >= high || high > LENGTH_MAX {
        return None;
    }
    Some(Band { low, high })
}
