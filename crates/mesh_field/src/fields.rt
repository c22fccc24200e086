ghost use Rattle.std.specs.Prelude.{◌≡◌, ◌<◌, [], length, IfSome};
ghost use Rattle.grid_base.specs.Components.{FitWithin};
ghost use Rattle.mesh_field.specs.Stored.{stored, AreDistinct, place_of, IsOnlyPlace, MayAnswer, IsWellKept};

use crate::FIELDS_MAX;
use arrayvec::ArrayVec;
use grid_base::{Point, Shift};
use mesh_plain::FieldName;
use std::marker::Model;

/// Fields that shifts may be asked of, by distinct names. The number of a field is the place of its name, from 0. One
/// closure answers for all of them: for a number and a point, the shift there.
///
/// A contract sees them as the names, the reach and the closure. That the closure may be asked for each of them, and that
/// each component of its answers has at most the size `reach`, is a condition of each call that asks it (`IsWellKept`).
#[derive(Drop)]
pub struct Fields<F> {
    names: ArrayVec<FieldName, FIELDS_MAX>,
    reach: u32,
    closure: F,
}

impl<F> Model for Fields<F> {
    ghost use Rattle.mesh_field.specs.Stored.{StoredFields, stored_code, stored, AreDistinct};

    ghost Value = { StoredFields F };

    ghost coded = { stored_code F.code };

    ghost view = { λ a. stored a.names.items a.reach a.closure };

    ghost invariant = { λ a. AreDistinct a.names.items };
}

impl<F: Fn(u8, Point) -> Shift> Fields<F> {
    /// The fields of these names, for which the closure answers within the reach.
    pub fn new(names: ArrayVec<FieldName, FIELDS_MAX>, reach: u32, closure: F) -> Fields<F>
        requires distinct { AreDistinct names.items }
        requires within { IsWellKept F.Fn (stored names.items reach closure) }
        ensures made { result ≡ stored names.items reach closure }
        ensures kept { IsWellKept F.Fn result }
    {
        Fields {
            names,
            reach,
            closure,
        }
    }

    /// The number of the field of this name; None exactly where no field has it.
    pub fn find(&self, name: &FieldName) -> Option<u8>
        ensures value { result ≡ place_of self.now.names name.now }
        // No other field has the name.
        ensures only { IfSome result (IsOnlyPlace self.now.names name.now) }
    {
        let place = place(self.names.as_slice(), name)?;
        Some(place as u8)
    }

    /// What the field of this number answers at a point.
    pub fn ask(&self, which: u8, p: Point) -> Shift
        requires known { which < length self.now.names }
        requires kept { IsWellKept F.Fn self.now }
        ensures answer { MayAnswer F.Fn self.now which p result }
        ensures within { FitWithin self.now.reach result.x result.y result.z }
    {
        (self.closure)(which, p)
    }
}

// The place of a name among these.
fn place(names: &[FieldName], name: &FieldName) -> Option<usize>
    ensures value { result ≡ place_of names.now name.now }
    ensures few { IfSome result (λ place. place < length names.now) }
{
    names.iter().position(|other| other == name)
}

/// No field at all, with a closure that is never asked.
pub fn no_fields<F: Fn(u8, Point) -> Shift>(closure: F) -> Fields<F>
    ensures none { result.names ≡ [] }
    ensures kept { IsWellKept F.Fn result }
{
    Fields::new(ArrayVec::new(), 0, closure)
}
