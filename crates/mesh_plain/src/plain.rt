ghost use Rattle.std.specs.Prelude.{◌≡◌, All};
ghost use Rattle.mesh_base.specs.Mesh.{IsSound};

use crate::tables::Tables;
use grid_base::{Extent, ID_MAX, NoMemory, Point};
use mesh_base::{
    AddFault, Corners, FaceId, Limits, Mark, MeshLists, Scale, Surface, VertexId,
    faces_near_of_all, neighbours_above_of_all,
};
use std::alloc::Global;

/// A mesh in ordered maps from ids. It keeps a copy of the mesh for each mark.
#[derive(Drop)]
pub struct PlainMesh {
    now: Tables,
    before: Vec<Tables>,
    ghost now_sound: { IsSound now },
    ghost before_sound: { All IsSound before.items },
}

impl PlainMesh {
    ghost use Rattle.mesh_shape.specs.Shape.{HaveGoodShape};
    ghost use Rattle.mesh_base.specs.Given.{listed_mesh};
    ghost use Rattle.mesh_shape.specs.Numbered.{MayBeNext, numbered_mesh};
    ghost use Rattle.mesh_plain.specs.Plain.{mesh_in, kept_in};
    ghost use Rattle.std.specs.Prelude.{[], IfOk, length};

    /// The mesh that lists of good shape give, with the limits of a scale and with nothing kept.
    pub fn of(alloc: Global, scale: Scale, lists: &MeshLists) -> Result<PlainMesh, NoMemory>
        requires { HaveGoodShape scale lists.now }
        ensures mesh { IfOk result (λ s. mesh_in s ≡ listed_mesh scale lists.now) }
        ensures kept { IfOk result (λ s. kept_in s ≡ []) }
    {
        let now = Tables::of(alloc, scale, lists)?;
        Ok(PlainMesh {
            now,
            before: Vec::new(alloc),
        })
    }

    /// The mesh that lists of good shape give, where the next vertex and the next face get these ids. Both are above the
    /// ids in use, and at most one above `ID_MAX`.
    pub fn of_numbered(
        alloc: Global,
        scale: Scale,
        lists: &MeshLists,
        next_vertex: u32,
        next_face: u32,
    ) -> Result<PlainMesh, NoMemory>
        requires shape { HaveGoodShape scale lists.now }
        requires vertex { MayBeNext (length lists.now.points) next_vertex }
        requires face { MayBeNext (length lists.now.faces) next_face }
        ensures mesh { IfOk result
            (λ s. mesh_in s ≡ numbered_mesh scale lists.now next_vertex next_face) }
        ensures kept { IfOk result (λ s. kept_in s ≡ []) }
    {
        let mut now = Tables::of(alloc, scale, lists)?;
        now.number(next_vertex, next_face);
        Ok(PlainMesh {
            now,
            before: Vec::new(alloc),
        })
    }

    /// A mesh equal to the given one, however that is kept: with its ids, next ids and solid vertices, and with nothing kept.
    pub fn copy_of<S: Surface>(alloc: Global, mesh: &S) -> Result<PlainMesh, NoMemory>
        ensures mesh { IfOk result (λ s. mesh_in s ≡ S.mesh mesh.now) }
        ensures kept { IfOk result (λ s. kept_in s ≡ []) }
    {
        let now = Tables::copy_of(alloc, mesh)?;
        Ok(PlainMesh {
            now,
            before: Vec::new(alloc),
        })
    }
}

impl Surface for PlainMesh {
    ghost use Rattle.std.specs.Prelude.{[], ◌∷◌, ◌++◌, length, take, IfOk, IsOk, OnOk, OnErr, IsErrOf};
    ghost use Rattle.std.proofs.Common.{lit≤};
    ghost use Rattle.mesh_base.specs.Mesh.{IsLiveVertex, IsLiveFace};
    ghost use Rattle.mesh_base.specs.Sides.{faces_at};
    ghost use Rattle.mesh_base.specs.Changes.{corners_of, with_vertex, with_face, without_face, without_vertex, with_point, with_solid, IsFresh, IsFullOfVertices, IsFullOfFaces};
    ghost use Rattle.mesh_base.specs.Kept.{BeginsWith, MarkHolds, StandsFor};
    ghost use Rattle.mesh_plain.specs.Plain.{mesh_in, kept_in, IsUnchanged};

    ghost mesh = { λ s. s.now };

    ghost kept = { λ s. s.before.items };

    ghost beyond = { 0 };

    ghost beyond_small = { lit≤ tt };

    ghost sound = { λ s. s.now_sound };

    ghost kept_sound = { λ s. s.before_sound };

    fn vertices(&self) -> u32 {
        self.now.vertices() as u32
    }

    fn faces(&self) -> u32 {
        self.now.faces() as u32
    }

    fn next_vertex(&self) -> u32 {
        self.now.next_vertex()
    }

    fn next_face(&self) -> u32 {
        self.now.next_face()
    }

    fn limits(&self) -> Limits {
        self.now.limits()
    }

    fn vertex_after(&self, v: u32) -> Option<VertexId> {
        self.now.vertex_after(v)
    }

    fn face_after(&self, f: u32) -> Option<FaceId> {
        self.now.face_after(f)
    }

    fn point(&self, v: VertexId) -> Option<Point> {
        self.now.point(v)
    }

    fn solid(&self, v: VertexId) -> bool {
        self.now.solid(v)
    }

    fn corners(&self, f: FaceId) -> Option<[VertexId; 3]> {
        self.now.corners(f)
    }

    /// Looks at each live face.
    fn runs(&self, u: VertexId, v: VertexId) -> u32 {
        self.now.runs(u, v) as u32
    }

    /// Looks at the live faces by rising id until it is found.
    fn run_face(&self, u: VertexId, v: VertexId, nth: u32) -> Option<FaceId> {
        self.now.run_face(u, v, nth)
    }

    /// Looks at each live face.
    fn faces_at(&self, v: VertexId, into: &mut Vec<FaceId>) -> Result<(), NoMemory> {
        self.now.faces_at(v, into)
    }

    /// Looks at each live face.
    fn neighbours_above(&self, v: VertexId, into: &mut Vec<VertexId>) -> Result<(), NoMemory> {
        neighbours_above_of_all(&self.now, v, into)
    }

    fn faces_near(&self, at: Extent, into: &mut Vec<FaceId>) -> Result<(), NoMemory> {
        faces_near_of_all(&self.now, &at, into)
    }

    fn add_vertex(&mut self, p: Point) -> Result<VertexId, AddFault>
        ensures id { IfOk result (λ v. v ≡ (mesh_in self.old).next_vertex) }
        ensures ok { OnOk result (mesh_in self.new ≡ with_vertex (mesh_in self.old) p) }
        ensures full { IsErrOf result AddFault.Full → IsFullOfVertices (mesh_in self.old) }
        ensures room { IsOk result → ¬ IsFullOfVertices (mesh_in self.old) }
        ensures kept { kept_in self.new ≡ kept_in self.old }
        ensures marks { BeginsWith (kept_in self.new) (kept_in self.old) }
        ensures err { OnErr result (IsUnchanged self.old self.new) }
    {
        if self.now.vertices() >= self.now.limits().vertices as usize
            || self.now.next_vertex() > ID_MAX
        {
            return Err(AddFault::Full);
        }
        match self.now.add_vertex(p) {
            Ok(v) => Ok(v),
            Err(_) => Err(AddFault::NoMemory),
        }
    }

    fn add_face(&mut self, c: [VertexId; 3]) -> Result<FaceId, AddFault>
        requires { IsFresh (mesh_in self.old) (corners_of c) }
        ensures id { IfOk result (λ f. f ≡ (mesh_in self.old).next_face) }
        ensures ok { OnOk result (mesh_in self.new ≡ with_face (mesh_in self.old) (corners_of c)) }
        ensures full { IsErrOf result AddFault.Full → IsFullOfFaces (mesh_in self.old) }
        ensures room { IsOk result → ¬ IsFullOfFaces (mesh_in self.old) }
        ensures kept { kept_in self.new ≡ kept_in self.old }
        ensures marks { BeginsWith (kept_in self.new) (kept_in self.old) }
        ensures err { OnErr result (IsUnchanged self.old self.new) }
    {
        if self.now.faces() >= self.now.limits().faces as usize || self.now.next_face() > ID_MAX {
            return Err(AddFault::Full);
        }
        match self.now.add_face(Corners::of(c)) {
            Ok(f) => Ok(f),
            Err(_) => Err(AddFault::NoMemory),
        }
    }

    fn drop_face(&mut self, f: FaceId) -> Result<(), NoMemory>
        requires { IsLiveFace (mesh_in self.old) f }
        ensures ok { OnOk result (mesh_in self.new ≡ without_face (mesh_in self.old) f) }
        ensures kept { kept_in self.new ≡ kept_in self.old }
        ensures marks { BeginsWith (kept_in self.new) (kept_in self.old) }
        ensures err { OnErr result (IsUnchanged self.old self.new) }
    {
        self.now.drop_face(f);
        Ok(())
    }

    fn drop_vertex(&mut self, v: VertexId) -> Result<(), NoMemory>
        requires live { IsLiveVertex (mesh_in self.old) v }
        requires bare { faces_at (mesh_in self.old) v ≡ [] }
        ensures ok { OnOk result (mesh_in self.new ≡ without_vertex (mesh_in self.old) v) }
        ensures kept { kept_in self.new ≡ kept_in self.old }
        ensures marks { BeginsWith (kept_in self.new) (kept_in self.old) }
        ensures err { OnErr result (IsUnchanged self.old self.new) }
    {
        self.now.drop_vertex(v);
        Ok(())
    }

    fn place(&mut self, v: VertexId, p: Point) -> Result<(), NoMemory>
        requires { IsLiveVertex (mesh_in self.old) v }
        ensures ok { OnOk result (mesh_in self.new ≡ with_point (mesh_in self.old) v p) }
        ensures kept { kept_in self.new ≡ kept_in self.old }
        ensures marks { BeginsWith (kept_in self.new) (kept_in self.old) }
        ensures err { OnErr result (IsUnchanged self.old self.new) }
    {
        self.now.place(v, p)
    }

    fn make_solid(&mut self, v: VertexId) -> Result<(), NoMemory>
        requires { IsLiveVertex (mesh_in self.old) v }
        ensures ok { OnOk result (mesh_in self.new ≡ with_solid (mesh_in self.old) v) }
        ensures kept { kept_in self.new ≡ kept_in self.old }
        ensures marks { BeginsWith (kept_in self.new) (kept_in self.old) }
        ensures err { OnErr result (IsUnchanged self.old self.new) }
    {
        self.now.make_solid(v)
    }

    /// Keeps a copy of the mesh. The mark's `place` is its `under`.
    fn mark(&mut self) -> Result<Mark, NoMemory>
        ensures holds { IfOk result (MarkHolds 0 (kept_in self.new)) }
        ensures stands { IfOk result (λ m. StandsFor (kept_in self.new) m (mesh_in self.old)) }
        ensures under { IfOk result (λ m. m.under ≡ length (kept_in self.old)) }
        ensures place { IfOk result (λ m. m.place ≡ m.under) }
        ensures kept { IfOk result
            (λ m. kept_in self.new ≡ kept_in self.old ++ mesh_in self.old ∷ []) }
        ensures mesh { mesh_in self.new ≡ mesh_in self.old }
        ensures marks { BeginsWith (kept_in self.new) (kept_in self.old) }
        ensures err { OnErr result (kept_in self.new ≡ kept_in self.old) }
    {
        let copy = self.now.copy()?;
        let place = self.before.len();
        self.before.push(copy)?;
        Ok(Mark {
            place,
            under: place,
        })
    }

    /// Leaves of the kept meshes those that the mark's `under` counts, and no more.
    fn back_to(&mut self, m: Mark)
        requires { MarkHolds 0 (kept_in self.old) m }
        ensures mesh { StandsFor (kept_in self.old) m (mesh_in self.new) }
        ensures kept { kept_in self.new ≡ take m.under (kept_in self.old) }
        ensures marks { BeginsWith (kept_in self.new) (take m.under (kept_in self.old)) }
    {
        self.before.truncate(m.place + 1);
        self.now = self.before.pop().unwrap();
        self.before.truncate(m.under);
    }

    /// Gives up all that is kept.
    fn settle(&mut self)
        ensures mesh { mesh_in self.new ≡ mesh_in self.old }
        ensures kept { kept_in self.new ≡ [] }
    {
        self.before.clear();
    }
}
