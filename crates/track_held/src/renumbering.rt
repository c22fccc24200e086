//! A tracker whose vertices and faces are numbered anew.
ghost use Rattle.std.specs.Prelude.{◌≡◌, ◌≤◌, true, false, [], length, map, All, IfOk, OnOk, OnErr};
ghost use Rattle.std.specs.List.Sorted.{IsNonDecreasing};
ghost use Rattle.grid_base.specs.declared.TheConstants.{VERTICES_MAX};
ghost use Rattle.mesh_base.specs.Mesh.{IsLiveVertex};
ghost use Rattle.mesh_base.specs.Sides.{IsClosed};
ghost use Rattle.mesh_base.specs.Valid.{IsValidSurface};
ghost use Rattle.mesh_journal.specs.Journal.{mesh_in, kept_in};
ghost use Rattle.mesh_rows.specs.Making.{with_solids};
ghost use Rattle.obj_text.specs.Written.{rank_among};
ghost use Rattle.track_engine.specs.State.{asked_in, is_open};
ghost use Rattle.track_engine.specs.Engines.{state_in};
ghost use Rattle.track_held.specs.Renumbered.{ranked_shift, dense_shifts, dense_mesh, dense_state};

use crate::held::Held;
use crate::queries::solid_vertices;
use grid_base::NoMemory;
use mesh_base::{Ids, Scale, ShiftOf, Shifts, Surface, VertexId, live_vertices};
use mesh_journal::JournalMesh;
use obj_text::{lists_by_rank, rank_of};
use std::alloc::Global;
use track_engine::{AskedShifts, Engine, asked_in};

// The ranks of vertices among the rising ids.
fn ranks_of(alloc: Global, ids: &[VertexId], vertices: &[u32]) -> Result<Ids, NoMemory>
    requires rising { IsNonDecreasing ids.now }
    requires few { length ids.now ≤ VERTICES_MAX }
    ensures { IfOk result (λ ranks. ranks ≡ map (rank_among ids.now) vertices.now) }
{
    let mut ranks = Ids::new(alloc);
    for v in vertices {
        ranks.push(VertexId(rank_of(ids, VertexId(*v))))?;
    }
    Ok(ranks)
}

// The same shifts, each of the vertex that has the rank among the rising ids as its id.
fn ranked_shifts(alloc: Global, ids: &[VertexId], asked: &[ShiftOf]) -> Result<Shifts, NoMemory>
    requires rising { IsNonDecreasing ids.now }
    requires few { length ids.now ≤ VERTICES_MAX }
    ensures { IfOk result (λ shifts. shifts ≡ map (ranked_shift ids.now) asked.now) }
{
    let mut shifts = Shifts::new(alloc);
    for s in asked {
        let v = VertexId(rank_of(ids, s.v));
        shifts.push(ShiftOf { v, by: s.by })?;
    }
    Ok(shifts)
}

// Marks live vertices as solid.
fn put_solids<S: Surface>(mesh: &mut S, vertices: &[VertexId]) -> Result<(), NoMemory>
    requires { All (IsLiveVertex (S.mesh mesh.old)) vertices.now }
    ensures { OnOk result (S.mesh mesh.new ≡ with_solids (S.mesh mesh.old) vertices.now) }
{
    for v in vertices {
        mesh.make_solid(*v)?;
    }
    Ok(())
}

// The mesh with its vertices and faces numbered anew.
fn dense_mesh<S: Surface>(alloc: Global, mesh: &S) -> Result<JournalMesh, NoMemory>
    requires { IsClosed (S.mesh mesh.now) }
    ensures { IfOk result (λ dense. mesh_in dense ≡ dense_mesh (S.mesh mesh.now)) }
{
    let ids = live_vertices(alloc, mesh)?;
    let solids = solid_vertices(alloc, mesh)?;
    let ranks = ranks_of(alloc, ids.as_slice(), solids.as_slice())?;
    let lists = lists_by_rank(alloc, mesh)?;
    let mut dense = JournalMesh::of(alloc, Scale::Large, &lists)?;
    put_solids(&mut dense, ranks.as_slice())?;
    dense.settle();
    Ok(dense)
}

// What is asked of the live vertices of a mesh, by their ranks.
fn dense_asked<S: Surface>(
    alloc: Global,
    mesh: &S,
    asked: &AskedShifts,
) -> Result<AskedShifts, NoMemory>
    ensures { let m = S.mesh mesh.now in
        IfOk result (λ dense. dense ≡ dense_shifts m (asked_in m asked.now)) }
{
    let ids = live_vertices(alloc, mesh)?;
    let all = asked_in(alloc, mesh, asked)?;
    let ranked = ranked_shifts(alloc, ids.as_slice(), all.as_slice())?;
    Ok(AskedShifts::of_all(ranked))
}

// An engine in the state with vertices and faces numbered anew.
fn dense_engine<S: Surface>(
    alloc: Global,
    engine: &Engine<S>,
) -> Result<Engine<JournalMesh>, NoMemory>
    requires { IsValidSurface (S.mesh engine.now.mesh) }
    ensures state { IfOk result (λ dense. state_in mesh_in kept_in dense
        ≡ dense_state (state_in S.mesh S.kept engine.now)) }
    ensures groups { IfOk result (λ dense. dense.run.groups ≡ []) }
    ensures set { IfOk result (λ dense. dense.run.set ≡ engine.now.run.set) }
{
    let mesh = dense_mesh(alloc, &engine.mesh)?;
    let asked = dense_asked(alloc, &engine.mesh, &engine.run.asked)?;
    let mut dense = Engine::new(alloc, mesh)?;
    dense.run.asked = asked;
    dense.run.set = engine.run.set;
    dense.run.steps = engine.run.steps;
    dense.run.saved = engine.run.saved;
    Ok(dense)
}

impl<S: Surface> Held<S> {
    ghost use Rattle.track_held.specs.Held.{held_state};

    /// Whether a group is open.
    pub fn has_open_group(&self) -> bool
        ensures { result ≡ is_open (held_state self.now).groups }
    {
        self.engine.run.groups.is_open()
    }
}

impl Held<JournalMesh> {
    ghost use Rattle.track_held.specs.Held.{held_state, keeps_lines, lines_in, goes_on};

    /// Numbers vertices and faces anew, from 1 by rising id, as they are in a file of the mesh that is read again; solid vertices
    /// stay solid, and the same is asked of each. The lines that were told are forgotten: those that are told from here on are of
    /// the mesh as it is numbered then. Where memory is wanting nothing is changed. Asked only while it goes on and no group is open.
    pub fn renumber(&mut self, alloc: Global) -> Result<(), NoMemory>
        requires goes_on { goes_on self.old ≡ true }
        requires groups { is_open (held_state self.old).groups ≡ false }
        ensures state { OnOk result (held_state self.new ≡ dense_state (held_state self.old)) }
        ensures lines { OnOk result (lines_in self.new ≡ []) }
        ensures keeps { keeps_lines self.new ≡ keeps_lines self.old }
        ensures goes_on { goes_on self.new ≡ true }
        ensures left { OnErr result (self.new ≡ self.old) }
    {
        let dense = dense_engine(alloc, &self.engine)?;
        self.engine = dense;
        self.log.clear();
        Ok(())
    }
}
