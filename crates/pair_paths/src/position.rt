//! Positions, kept in 32 bits a coordinate.
ghost use Rattle.std.specs.Prelude.{◌≡◌, ◌≤◌, ◌-ℤ◌, unsigned_abs};
ghost use Rattle.grid_base.specs.declared.TheConstants.{EXTENT_MAX, HALF_MAX};
ghost use Rattle.grid_base.specs.Triples.{IsWithin, minus};

use grid_base::{HALF_MAX, Wide};
use std::marker::Model;

/// A position, in grid units or in half units, whose coordinates are at most `HALF_MAX` in size. A contract sees the
/// three whole numbers.
#[derive(Clone, Copy)]
pub struct Position {
    x: i32,
    y: i32,
    z: i32,
}

impl Model for Position {
    ghost use Rattle.grid_base.specs.declared.TheConstants.{HALF_MAX};
    ghost use Rattle.grid_base.specs.declared.Wide.{Wide};
    ghost use Rattle.grid_base.specs.Components.{FitWithin};

    ghost Value = { Wide };

    ghost view = { λ p. record { x = p.x; y = p.y; z = p.z } };

    ghost invariant = { λ p. FitWithin HALF_MAX p.x p.y p.z };

    ghost inverse = { λ t. record { x = t.x; y = t.y; z = t.z } };
}

impl Position {
    /// The position of these three whole numbers.
    pub fn of(p: Wide) -> Position
        requires { IsWithin HALF_MAX p }
        ensures { result ≡ p }
    {
        Position {
            x: p.x as i32,
            y: p.y as i32,
            z: p.z as i32,
        }
    }

    /// The three whole numbers.
    pub fn wide(self) -> Wide
        ensures value { result ≡ self }
        ensures within { IsWithin HALF_MAX result }
    {
        Wide {
            x: i128::from(self.x),
            y: i128::from(self.y),
            z: i128::from(self.z),
        }
    }

    /// The three whole numbers, less those of another position.
    pub fn seen_from(self, o: Position) -> Wide
        ensures value { result ≡ minus self o }
        ensures within { IsWithin EXTENT_MAX result }
    {
        Wide {
            x: i128::from(difference(self.x, o.x)),
            y: i128::from(difference(self.y, o.y)),
            z: i128::from(difference(self.z, o.z)),
        }
    }
}

// The difference of two positions' components.
fn difference(a: i32, b: i32) -> i32
    requires a_fits { unsigned_abs a ≤ HALF_MAX }
    requires b_fits { unsigned_abs b ≤ HALF_MAX }
    ensures value { result ≡ a -ℤ b }
    ensures within { unsigned_abs result ≤ EXTENT_MAX }
{
    a - b
}
