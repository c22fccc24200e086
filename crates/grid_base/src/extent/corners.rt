ghost use Rattle.std.specs.Prelude.{ℤ, ◌≤◌, ◌≤ℤ◌, unsigned_abs};
ghost use Rattle.grid_base.specs.declared.TheConstants.{EXTENT_MAX};
ghost use Rattle.grid_base.specs.Ordered.{IsUnder};
ghost use Rattle.grid_base.specs.Triples.{Triple, IsWithin};

use crate::Wide;

// The smaller of two coordinates.
fn least(a: i128, b: i128) -> i128
    requires a_fits { unsigned_abs a ≤ EXTENT_MAX }
    requires b_fits { unsigned_abs b ≤ EXTENT_MAX }
    ensures first { result ≤ℤ a }
    ensures second { result ≤ℤ b }
    ensures greatest { (n : ℤ) → n ≤ℤ a → n ≤ℤ b → n ≤ℤ result }
    ensures within { unsigned_abs result ≤ EXTENT_MAX }
{
    if a < b { a } else { b }
}

// The greater of two coordinates.
fn most(a: i128, b: i128) -> i128
    requires a_fits { unsigned_abs a ≤ EXTENT_MAX }
    requires b_fits { unsigned_abs b ≤ EXTENT_MAX }
    ensures first { a ≤ℤ result }
    ensures second { b ≤ℤ result }
    ensures least { (n : ℤ) → a ≤ℤ n → b ≤ℤ n → result ≤ℤ n }
    ensures within { unsigned_abs result ≤ EXTENT_MAX }
{
    if a < b { b } else { a }
}

/// The greatest position that is at or below both in each component.
pub(crate) fn lower(a: Wide, b: Wide) -> Wide
    requires a_fits { IsWithin EXTENT_MAX a }
    requires b_fits { IsWithin EXTENT_MAX b }
    ensures first { IsUnder result a }
    ensures second { IsUnder result b }
    ensures greatest { (p : Triple) → IsUnder p a → IsUnder p b → IsUnder p result }
    ensures within { IsWithin EXTENT_MAX result }
{
    Wide {
        x: least(a.x, b.x),
        y: least(a.y, b.y),
        z: least(a.z, b.z),
    }
}

/// The least position that is at or above both in each component.
pub(crate) fn upper(a: Wide, b: Wide) -> Wide
    requires a_fits { IsWithin EXTENT_MAX a }
    requires b_fits { IsWithin EXTENT_MAX b }
    ensures first { IsUnder a result }
    ensures second { IsUnder b result }
    ensures least { (p : Triple) → IsUnder a p → IsUnder b p → IsUnder result p }
    ensures within { IsWithin EXTENT_MAX result }
{
    Wide {
        x: most(a.x, b.x),
        y: most(a.y, b.y),
        z: most(a.z, b.z),
    }
}
