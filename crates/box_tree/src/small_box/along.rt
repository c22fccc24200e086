ghost use Rattle.std.specs.Prelude.{◌≡◌, ◌&&◌, int_le};

use grid_base::EXTENT_MAX;

// Whether two intervals have a common number.
pub(crate) fn meet_along(low: i32, high: i32, other_low: i32, other_high: i32) -> bool
    ensures { result ≡ (int_le low other_high && int_le other_low high) }
{
    low <= other_high && other_low <= high
}

// The sum of an interval's ends, counted from the least that a box has.
pub(crate) fn middle_along(low: i32, high: i32) -> u64 {
    (i64::from(low) + i64::from(high) + 2 * i64::from(EXTENT_MAX)).unsigned_abs()
}
