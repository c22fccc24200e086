ghost use Rattle.std.specs.Prelude.{◌≡◌, ◌≤◌, ◌+◌, ℕ, [], IfOk, IsOk, OnOk, OnErr, IsErrOf};
ghost use Rattle.mesh_base.specs.Mesh.{IsLiveVertex, IsLiveFace};
ghost use Rattle.mesh_base.specs.Sides.{faces_at};
ghost use Rattle.mesh_base.specs.Changes.{corners_of, with_point, with_solid, IsFresh, IsFullOfVertices, IsFullOfFaces};
ghost use Rattle.half_mesh.specs.States.{State, none_buried, with_mesh, without_solid, bury_face, bury_vertex, raise_face, raise_vertex, unmake_face, unmake_vertex, CanRaiseFace, CanRaiseVertex, CanUnmakeFace, CanUnmakeVertex, AreApart};
ghost use Rattle.mesh_journal.specs.Undoable.{make_vertex, make_face};

use grid_base::{NoMemory, Point};
use mesh_base::{AddFault, FaceId, Surface, VertexId};

/// A mesh of which faces and vertices can be buried, to be raised again with no memory. All calls but `room` and the two
/// additions take none, and leave `spare` at least as it was.
pub trait Undoable: Surface {
    /// The mesh, with what is buried of it.
    ghost state: { Self → State };

    /// How many additions find memory.
    ghost spare: { Self → ℕ };

    /// `add_vertex`, with what it makes of what is buried and of `spare`.
    fn make_vertex(&mut self, p: Point) -> Result<VertexId, AddFault>
        ensures id { IfOk result (λ v. v ≡ (state self.old).mesh.next_vertex) }
        ensures ok { OnOk result (state self.new ≡ make_vertex (state self.old) p) }
        ensures full { IsErrOf result AddFault.Full → IsFullOfVertices (state self.old).mesh }
        ensures room { IsOk result → ¬ IsFullOfVertices (state self.old).mesh }
        ensures err { OnErr result (state self.new ≡ state self.old) }
        ensures memory { IsErrOf result AddFault.NoMemory → spare self.old ≡ 0 }
        ensures spare { spare self.old ≤ spare self.new + 1 };

    /// `add_face`, with what it makes of what is buried and of `spare`.
    fn make_face(&mut self, c: [VertexId; 3]) -> Result<FaceId, AddFault>
        requires { IsFresh (state self.old).mesh (corners_of c) }
        ensures id { IfOk result (λ f. f ≡ (state self.old).mesh.next_face) }
        ensures ok { OnOk result (state self.new ≡ make_face (state self.old) (corners_of c)) }
        ensures full { IsErrOf result AddFault.Full → IsFullOfFaces (state self.old).mesh }
        ensures room { IsOk result → ¬ IsFullOfFaces (state self.old).mesh }
        ensures err { OnErr result (state self.new ≡ state self.old) }
        ensures memory { IsErrOf result AddFault.NoMemory → spare self.old ≡ 0 }
        ensures spare { spare self.old ≤ spare self.new + 1 };

    /// Buries a live face: it is live no longer.
    fn bury_face(&mut self, f: FaceId)
        requires { IsLiveFace (state self.old).mesh f }
        ensures state { state self.new ≡ bury_face (state self.old) f }
        ensures spare { spare self.old ≤ spare self.new };

    /// Buries a live vertex that has no live face.
    fn bury_vertex(&mut self, v: VertexId)
        requires live { IsLiveVertex (state self.old).mesh v }
        requires bare { faces_at (state self.old).mesh v ≡ [] }
        ensures state { state self.new ≡ bury_vertex (state self.old) v }
        ensures spare { spare self.old ≤ spare self.new };

    /// Makes a buried face live again, with its old corners, which live.
    fn raise_face(&mut self, f: FaceId)
        requires { CanRaiseFace (state self.old) f }
        ensures state { state self.new ≡ raise_face (state self.old) f }
        ensures spare { spare self.old ≤ spare self.new };

    /// Makes a buried vertex live again, with its old point and mark.
    fn raise_vertex(&mut self, v: VertexId)
        requires { CanRaiseVertex (state self.old) v }
        ensures state { state self.new ≡ raise_vertex (state self.old) v }
        ensures spare { spare self.old ≤ spare self.new };

    /// Takes back the making of the newest face: its id is the next again.
    fn unmake_face(&mut self, f: FaceId)
        requires { CanUnmakeFace (state self.old) f }
        ensures state { state self.new ≡ unmake_face (state self.old) f }
        ensures spare { spare self.old ≤ spare self.new };

    /// Takes back the making of the newest vertex, which no face, live or buried, has as a corner.
    fn unmake_vertex(&mut self, v: VertexId)
        requires { CanUnmakeVertex (state self.old) v }
        ensures state { state self.new ≡ unmake_vertex (state self.old) v }
        ensures spare { spare self.old ≤ spare self.new };

    /// Puts a live vertex at a point.
    fn place_now(&mut self, v: VertexId, p: Point)
        requires { IsLiveVertex (state self.old).mesh v }
        ensures state { state self.new
            ≡ with_mesh (state self.old) (with_point (state self.old).mesh v p) }
        ensures spare { spare self.old ≤ spare self.new };

    /// Marks a live vertex as solid.
    fn make_solid_now(&mut self, v: VertexId)
        requires { IsLiveVertex (state self.old).mesh v }
        ensures state { state self.new
            ≡ with_mesh (state self.old) (with_solid (state self.old).mesh v) }
        ensures spare { spare self.old ≤ spare self.new };

    /// Takes the mark as solid of a live vertex away, if it has one.
    fn unmake_solid(&mut self, v: VertexId)
        requires { IsLiveVertex (state self.old).mesh v }
        ensures state { state self.new
            ≡ with_mesh (state self.old) (without_solid (state self.old).mesh v) }
        ensures spare { spare self.old ≤ spare self.new };

    /// Gives up what is buried.
    fn forget(&mut self)
        ensures state { state self.new
            ≡ record { mesh = (state self.old).mesh; buried = none_buried } }
        ensures spare { spare self.old ≤ spare self.new };

    /// Finds memory for `n` additions: while `spare` is above 0 they don't answer that memory is wanting.
    fn room(&mut self, n: u32) -> Result<(), NoMemory>
        ensures ok { OnOk result (n ≤ spare self.new) }
        ensures state { state self.new ≡ state self.old }
        ensures spare { spare self.old ≤ spare self.new };

    /// The state's mesh is the one that `Surface` tells.
    ghost same_mesh: { (s : Self) → Self.mesh s ≡ (state s).mesh };

    /// What is buried is not live, and it and its corners were made.
    ghost apart: { (s : Self) → AreApart (state s) };
}
