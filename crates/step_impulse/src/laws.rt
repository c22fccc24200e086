//! Laws of impulses. Each is the contract of a function that does nothing.

ghost use Rattle.step_impulse.specs.Laws.{SoManyAreSmallest, ImpulseKeepsTheSum};

/// Of ids that differ, exactly k have fewer than k below them.
pub fn so_many_are_smallest()
    ensures { SoManyAreSmallest }
{}

/// An impulse on five vertices with ids that differ, none of them fixed, keeps the sum of their shifts on its axis.
pub fn impulse_keeps_the_sum()
    ensures { ImpulseKeepsTheSum }
{}
