//! The journal over half-edges.
ghost use Rattle.std.specs.Prelude.{◌≡◌, IfOk, [], ◌∷◌, length};

use crate::journal::Journal;
use crate::undoable::Undoable;
use grid_base::{NoMemory, Point};
use half_mesh::HalfMesh;
use mesh_base::{AddFault, FaceId, MeshLists, Scale, Surface, VertexId};
use std::alloc::Global;

/// A mesh in half-edges whose marks take no memory.
pub type JournalMesh = Journal<HalfMesh>;

impl Undoable for HalfMesh {
    ghost use Rattle.std.specs.Prelude.{refl};
    ghost use Rattle.half_mesh.specs.Half.{state_in, spare_in};

    ghost state = { state_in };

    ghost spare = { spare_in };

    ghost same_mesh = { λ s. refl };

    ghost apart = { λ s. s.now_apart };

    fn make_vertex(&mut self, p: Point) -> Result<VertexId, AddFault> {
        self.add_vertex(p)
    }

    fn make_face(&mut self, c: [VertexId; 3]) -> Result<FaceId, AddFault> {
        self.add_face(c)
    }

    fn bury_face(&mut self, f: FaceId) {
        HalfMesh::bury_face(self, f);
    }

    fn bury_vertex(&mut self, v: VertexId) {
        HalfMesh::bury_vertex(self, v);
    }

    fn raise_face(&mut self, f: FaceId) {
        HalfMesh::raise_face(self, f);
    }

    fn raise_vertex(&mut self, v: VertexId) {
        HalfMesh::raise_vertex(self, v);
    }

    fn unmake_face(&mut self, f: FaceId) {
        HalfMesh::unmake_face(self, f);
    }

    fn unmake_vertex(&mut self, v: VertexId) {
        HalfMesh::unmake_vertex(self, v);
    }

    fn place_now(&mut self, v: VertexId, p: Point) {
        HalfMesh::place_now(self, v, p);
    }

    fn make_solid_now(&mut self, v: VertexId) {
        let _ = self.make_solid(v);
    }

    fn unmake_solid(&mut self, v: VertexId) {
        HalfMesh::unmake_solid(self, v);
    }

    fn forget(&mut self) {
        HalfMesh::forget(self);
    }

    fn room(&mut self, n: u32) -> Result<(), NoMemory> {
        HalfMesh::room(self, n)
    }
}

impl Journal<HalfMesh> {
    ghost use Rattle.mesh_base.specs.Given.{listed_mesh};
    ghost use Rattle.mesh_shape.specs.Shape.{HaveGoodShape};
    ghost use Rattle.mesh_shape.specs.Numbered.{MayBeNext, numbered_mesh};
    ghost use Rattle.mesh_journal.specs.Journal.{mesh_in, kept_in};

    /// The mesh that lists of good shape give, with an empty journal.
    pub fn of(alloc: Global, scale: Scale, lists: &MeshLists) -> Result<JournalMesh, NoMemory>
        requires { HaveGoodShape scale lists.now }
        ensures mesh { IfOk result (λ s. mesh_in s ≡ listed_mesh scale lists.now) }
        ensures kept { IfOk result (λ s. kept_in s ≡ mesh_in s ∷ []) }
    {
        let mesh = HalfMesh::of(alloc, scale, lists)?;
        Ok(Journal::over(alloc, mesh))
    }

    /// The mesh that lists of good shape give, where the next vertex and the next face get these ids. Both are above the
    /// ids in use, and at most one above `ID_MAX`.
    pub fn of_numbered(
        alloc: Global,
        scale: Scale,
        lists: &MeshLists,
        next_vertex: u32,
        next_face: u32,
    ) -> Result<JournalMesh, NoMemory>
        requires shape { HaveGoodShape scale lists.now }
        requires vertex { MayBeNext (length lists.now.points) next_vertex }
        requires face { MayBeNext (length lists.now.faces) next_face }
        ensures mesh { IfOk result
            (λ s. mesh_in s ≡ numbered_mesh scale lists.now next_vertex next_face) }
        ensures kept { IfOk result (λ s. kept_in s ≡ mesh_in s ∷ []) }
    {
        let mesh = HalfMesh::of_numbered(alloc, scale, lists, next_vertex, next_face)?;
        Ok(Journal::over(alloc, mesh))
    }
}
