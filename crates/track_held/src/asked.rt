//! A shift that is asked of a vertex.
ghost use Rattle.std.specs.Prelude.{MatchOption};
ghost use Rattle.grid_base.specs.declared.TheConstants.{SHIFT_MAX};
ghost use Rattle.grid_base.specs.Components.{FitWithin};
ghost use Rattle.track_held.specs.Asking.{CanBeAsked, CanAllBeAsked, IsGiven, IsExactlyWhere, shift_directive, shift_all_directive};

use crate::given::NamedPoint;
use grid_base::{ID_MAX, Shift};
use step_text::Directive;

// The shift; None where a component is above the limit.
fn shift_of(row: &NamedPoint) -> Option<Shift>
    ensures { MatchOption result (¬ FitWithin SHIFT_MAX row.now.x row.now.y row.now.z)
        (λ by. FitWithin SHIFT_MAX row.now.x row.now.y row.now.z × IsGiven row.now by) }
{
    Shift::new(row.x, row.y, row.z)
}

/// The directive that adds a shift to what is asked of a vertex; None where a component or the id is beyond its limit.
pub fn shift_directive(row: &NamedPoint) -> Option<Directive>
    ensures { IsExactlyWhere (CanBeAsked row.now) (shift_directive row.now) result }
{
    let v = row.id;
    let by = shift_of(row)?;
    if v < 1 || v > ID_MAX {
        return None;
    }
    Some(Directive::ShiftOne { v, by })
}

/// The directive that adds a shift to what is asked of each vertex; None where a component is beyond its limit. The id says nothing.
pub fn shift_all_directive(row: &NamedPoint) -> Option<Directive>
    ensures { IsExactlyWhere (CanAllBeAsked row.now) (shift_all_directive row.now) result }
{
    let by = shift_of(row)?;
    Some(Directive::ShiftAll { by })
}
