ghost use Rattle.std.specs.Prelude.{◌≤◌, unsigned_abs};
ghost use Rattle.grid_base.specs.declared.narrow.TheConstants.{TOTAL_MAX};

use grid_base::narrow::TOTAL_MAX;

/// From where to where something reaches along a direction.
#[derive(Clone, Copy)]
pub(crate) struct Range {
    pub(crate) low: i128,
    pub(crate) high: i128,
    pub(crate) ghost low_fits: { unsigned_abs low ≤ TOTAL_MAX },
    pub(crate) ghost high_fits: { unsigned_abs high ≤ TOTAL_MAX },
}
