//! What those who watch a run are told of its end.
ghost use Rattle.std.specs.Prelude.{◌≡◌, true, IfSome};
ghost use Rattle.track_engine.specs.Engines.{state_in};
ghost use Rattle.track_run.specs.Ending.{unsaved_after, is_unsaved, stored_after, is_stored, IsEndingOf};
ghost use Rattle.track_run.specs.Surface.{surface_facts};

use crate::surface_facts::surface_facts;
use log_text::Refusal;
use mesh_base::Surface;
use outside_io::{Ending, Fact, Outside, Stop, SurfaceFacts};
use std::alloc::Global;
use step_text::{Directive, Placed};
use track_engine::Engine;

// Whether something is moved or edited that no stored mesh has, after a directive.
fn unsaved_after(was_unsaved: bool, what: &Directive) -> bool
    ensures { result ≡ unsaved_after was_unsaved what.now }
{
    match what {
        Directive::Step | Directive::Pass(_) | Directive::Fit => true,
        Directive::Save => false,
        _ => was_unsaved,
    }
}

// Whether something is moved or edited after the last mesh is saved.
fn is_unsaved(steps: &[Placed]) -> bool
    ensures { result ≡ is_unsaved steps.now }
{
    let mut unsaved = false;
    for placed in steps {
        unsaved = unsaved_after(unsaved, &placed.what);
    }
    unsaved
}

// Whether the mesh is the one that was stored last, after a directive. A group that is closed may be taken back.
fn stored_after(was_stored: bool, what: &Directive) -> bool
    ensures { result ≡ stored_after was_stored what.now }
{
    match what {
        Directive::Step | Directive::Pass(_) | Directive::Fit | Directive::Close => false,
        Directive::Save => true,
        _ => was_stored,
    }
}

// Whether the mesh that directives leave is the one that was stored last.
fn is_stored(steps: &[Placed]) -> bool
    ensures { result ≡ is_stored steps.now }
{
    let mut stored = true;
    for placed in steps {
        stored = stored_after(stored, &placed.what);
    }
    stored
}

// What may be amiss in the mesh that directives leave, where that was stored last and there is memory to look at it.
fn facts_of_stored<S: Surface>(alloc: Global, mesh: &S, steps: &[Placed]) -> Option<SurfaceFacts>
    ensures stored { IfSome result (λ _. is_stored steps.now ≡ true) }
    ensures facts { IfSome result (λ facts. facts ≡ surface_facts (S.mesh mesh.now)) }
{
    if !is_stored(steps) {
        return None;
    }
    match surface_facts(alloc, mesh) {
        Ok(facts) => Some(facts),
        Err(_) => None,
    }
}

// How directives ended that were all done.
fn ending_of<S: Surface>(alloc: Global, engine: &Engine<S>, steps: &[Placed]) -> Ending
    ensures { IsEndingOf steps.now (state_in S.mesh S.kept engine.now) result }
{
    Ending {
        is_empty: steps.is_empty(),
        is_unsaved: is_unsaved(steps),
        asks_in_vain: engine.asks(),
        surface: facts_of_stored(alloc, &engine.mesh, steps),
    }
}

/// Lets those who watch a run know how its directives ended, where all were done.
pub(crate) fn tell_ending<S: Surface, O: Outside>(
    alloc: Global,
    engine: &Engine<S>,
    steps: &[Placed],
    ended: &Result<Option<Refusal>, Stop>,
    outside: &mut O,
)
    ensures { O.around outside.new ≡ O.around outside.old }
{
    if let Ok(None) = ended {
        outside.hear(Fact::Ended(ending_of(alloc, engine, steps)));
    }
}
