//! A component is dropped by a group of collapses of an engine that is held, which is done whole or not at all.
ghost use Rattle.std.specs.Prelude.{◌≡◌, ◌≢◌, true, false, None, [], IfOk, OnErr, IfErr};
ghost use Rattle.outside_io.specs.declared.stop.Stop.TheVariants as cause;
ghost use Rattle.track_engine.specs.Invariant.{HasRoom};
ghost use Rattle.mesh_measure.specs.Components.{component_vertices};
ghost use Rattle.edit_drop.specs.Drop.{any_live, drop_collapses, drop_why};
ghost use Rattle.track_held.specs.Folding.{untold};
ghost use Rattle.track_held.specs.Dropping.{drop_effect, drop_told};

use crate::given_edits::{AskedEdits, ToldAnswer, why_told};
use crate::held::Held;
use edit_base::Why;
use edit_drop::drop_collapses;
use grid_base::NoMemory;
use mesh_base::{Surface, VertexId};
use outside_io::Stop;
use std::alloc::Global;

impl<S: Surface> Held<S> {
    ghost use Rattle.track_held.specs.Held.{engine_in, held_state, log_in, goes_on};
    ghost use Rattle.track_held.specs.Writing.{WritesEffect};

    // The collapses that take the component of a vertex away, or the reason against it. The mesh is as it was.
    fn plan_drop(
        &mut self,
        alloc: Global,
        v: VertexId,
        asked: &mut AskedEdits,
    ) -> Result<Option<Why>, NoMemory>
        requires goes_on { goes_on self.old ≡ true }
        requires none { asked.old ≡ [] }
        ensures goes_on { goes_on self.new ≡ true }
        ensures state { held_state self.new ≡ held_state self.old }
        ensures log { log_in self.new ≡ log_in self.old }
        ensures run { (engine_in self.new).run ≡ (engine_in self.old).run }
        ensures why { let s = held_state self.old in
            IfOk result (λ why. why ≡ drop_why s.set.depth s.mesh v) }
        ensures asked { let s = held_state self.old in
            IfOk result (λ why. why ≡ None → asked.new ≡ drop_collapses s.set.depth s.mesh v) }
    {
        let depth = self.engine.run.set.depth;
        drop_collapses(alloc, &mut self.engine.mesh, depth, v, asked)
    }

    /// Drops the component of a vertex: all vertices that chains of faces join with it, and all their faces. Its edges are
    /// collapsed, one after another, in a group of their own, until none of its vertices lives (`drop_collapses`). It is done
    /// whole or not at all: where a vertex of it is solid, or is left with collapses that are all refused, nothing is done or
    /// told to the log, and what is told is the reason; else what the last collapse did. So it is where no face is at the
    /// vertex, as at one that does not live: the reason is that there is no edge. Or it stops for want of memory, and goes on
    /// no more. Asked only while it goes on and has room (`has_room`).
    pub fn drop_component(&mut self, alloc: Global, v: VertexId) -> Result<ToldAnswer, Stop>
        requires goes_on { goes_on self.old ≡ true }
        requires room { HasRoom 1 (engine_in self.old).run }
        ensures goes_on { IfOk result (λ _. goes_on self.new ≡ true) }
        ensures stopped { OnErr result (goes_on self.new ≡ false) }
        // There is no other cause to stop.
        ensures why { IfErr result (λ stop. stop ≡ cause.NoMemory) }
        ensures tells { WritesEffect (drop_effect v) self (untold result) }
        ensures told { IfOk result (λ told. told ≡ drop_told v (held_state self.old)) }
        // Where no reason is told, none of the vertices of the component lives.
        ensures gone { let vs = component_vertices (held_state self.old).mesh v in
            IfOk result (λ told. told.why ≡ 0 → any_live (held_state self.new).mesh vs ≡ false) }
        // Else the state is as it was.
        ensures left { IfOk result (λ told. told.why ≢ 0 →
            held_state self.new ≡ held_state self.old) }
    {
        let mut asked = AskedEdits::new(alloc);
        match self.plan_drop(alloc, v, &mut asked) {
            Ok(None) => self.edits_as_one(alloc, asked.as_slice(), v),
            Ok(Some(why)) => Ok(why_told(why)),
            Err(_) => {
                self.goes_on = false;
                Err(Stop::NoMemory)
            }
        }
    }
}
