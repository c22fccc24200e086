//! What is buried of a mesh: faces and vertices that are not live, and can be raised again with no memory.
ghost use Rattle.std.specs.Prelude.{ℕ, length, ◌≤◌, ◌≡◌, ◌≢◌, ◌<◌, ◌^◌, [], OnOk, Some, None, IsSome};
ghost use Rattle.std.specs.FinMap as map;
ghost use Rattle.mesh_base.specs.Mesh.{IsSound, IsLiveVertex, IsLiveFace, AreDifferent};
ghost use Rattle.mesh_base.specs.Sides.{faces_at};
ghost use Rattle.half_mesh.specs.Fans.{Side, side_at, spokes_at, IsOutside};
ghost use Rattle.half_mesh.specs.FanChanges.{KeepsSides, KeepsSidesOutside};
ghost use Rattle.half_mesh.specs.States.{AreApart, none_buried, with_mesh, without_solid, bury_face, bury_vertex, raise_face, raise_vertex, unmake_face, unmake_vertex, CanRaiseFace, CanRaiseVertex};
ghost use Rattle.half_mesh.specs.Tied.{HaveFans, HasRaised, HasLost, IsRing};

use crate::fans::Fans;
use crate::row::Vertex;
use crate::tables::{Tables, corners_from};
use grid_base::NoMemory;
use id_table::Rows;
use mesh_base::{FaceId, VertexId};

impl Tables {
    /// Buries a live face. Takes no memory.
    pub(crate) fn bury_face(&mut self, f: FaceId)
        requires live { IsLiveFace self.old.state.mesh f }
        requires sound { IsSound self.old.state.mesh }
        ensures state { self.new.state ≡ bury_face self.old.state f }
        ensures spare { self.new.spare ≡ self.old.spare }
    {
        if let Some(key) = self.keys.get(f.0) {
            let (a, b, c) = corners_from(&self.fans, key);
            self.keys.bury(f.0);
            bury_ring(&mut self.fans, f.0, a, b, c);
        }
    }

    /// Buries a live vertex that has no face. Takes no memory.
    pub(crate) fn bury_vertex(&mut self, v: VertexId)
        requires live { IsLiveVertex self.old.state.mesh v }
        requires bare { faces_at self.old.state.mesh v ≡ [] }
        requires apart { AreApart self.old.state }
        ensures state { self.new.state ≡ bury_vertex self.old.state v }
        ensures spare { self.new.spare ≡ self.old.spare }
    {
        self.fans.bury(v.0);
    }

    /// Makes a buried face live again. Takes no memory.
    pub(crate) fn raise_face(&mut self, f: FaceId)
        requires can { CanRaiseFace self.old.state f }
        requires sound { IsSound self.old.state.mesh }
        requires apart { AreApart self.old.state }
        ensures state { self.new.state ≡ raise_face self.old.state f }
        ensures spare { self.new.spare ≡ self.old.spare }
    {
        if let Some(key) = self.keys.get_buried(f.0) {
            let (a, b, c) = corners_from(&self.fans, key);
            self.keys.raise(f.0, key);
            raise_ring(&mut self.fans, f.0, a, b, c, key);
        }
    }

    /// Makes a buried vertex live again. Takes no memory.
    pub(crate) fn raise_vertex(&mut self, v: VertexId)
        requires can { CanRaiseVertex self.old.state v }
        requires apart { AreApart self.old.state }
        ensures state { self.new.state ≡ raise_vertex self.old.state v }
        ensures spare { self.new.spare ≡ self.old.spare }
    {
        self.fans.raise(v.0);
    }

    /// Takes back the making of the newest face. Takes no memory.
    pub(crate) fn unmake_face(&mut self, f: FaceId)
        requires live { IsLiveFace self.old.state.mesh f }
        requires sound { IsSound self.old.state.mesh }
        requires apart { AreApart self.old.state }
        ensures state { self.new.state ≡ unmake_face self.old.state f }
        ensures spare { self.old.spare ≤ self.new.spare }
    {
        self.drop_face(f);
        let next_vertex = self.next_vertex();
        self.number(next_vertex, f.0);
    }

    /// Takes back the making of the newest vertex, which has no face. Takes no memory.
    pub(crate) fn unmake_vertex(&mut self, v: VertexId)
        requires live { IsLiveVertex self.old.state.mesh v }
        requires bare { faces_at self.old.state.mesh v ≡ [] }
        ensures state { self.new.state ≡ unmake_vertex self.old.state v }
        ensures spare { self.old.spare ≤ self.new.spare }
    {
        self.drop_vertex(v);
        let next_face = self.next_face();
        self.number(v.0, next_face);
    }

    /// Takes the mark of a live vertex as solid away. Takes no memory.
    pub(crate) fn unmake_solid(&mut self, v: VertexId)
        requires { IsLiveVertex self.old.state.mesh v }
        ensures state { self.new.state ≡ with_mesh self.old.state
            (without_solid self.old.state.mesh v) }
        ensures spare { self.new.spare ≡ self.old.spare }
    {
        if let Some(vertex) = self.fans.vertex(v.0) {
            self.fans.set(
                v.0,
                Vertex {
                    solid: false,
                    ..vertex
                },
            );
        }
    }

    /// Gives up what is buried. Takes no memory.
    pub(crate) fn forget(&mut self)
        requires { AreApart self.old.state }
        ensures state { self.new.state ≡
            record { mesh = self.old.state.mesh; buried = none_buried } }
        ensures spare { self.old.spare ≤ self.new.spare }
    {
        free_rings(&mut self.fans, &self.keys);
        self.keys.forget();
        self.fans.forget();
    }

    /// Finds memory for so many additions.
    pub(crate) fn room(&mut self, n: u32) -> Result<(), NoMemory>
        ensures ok { OnOk result (n ≤ self.new.spare) }
        ensures state { self.new.state ≡ self.old.state }
        ensures spare { self.old.spare ≤ self.new.spare }
    {
        self.fans.reserve_vertices(n as usize)?;
        self.keys.reserve(n as usize)?;
        self.fans.reserve(3 * n as usize)
    }
}

/// Takes the half-edges of the buried faces out of the slab. Takes no memory.
fn free_rings(fans: &mut Fans, keys: &Rows<u32>)
    requires { (f v : ℕ) → IsSome (map.get keys.now.buried f) →
        IsOutside f (spokes_at fans.old.woven.fans v) }
    ensures fans { fans.new.woven.fans ≡ fans.old.woven.fans }
    ensures sides { (k : ℕ) (side : Side) → side_at fans.old.woven.sides k ≡ Some side →
        map.get keys.now.buried side.face ≡ None → side_at fans.new.woven.sides k ≡ Some side }
    ensures kept { (fans.new.buried ≡ fans.old.buried) × (fans.new.seats ≡ fans.old.seats) }
    ensures room { fans.old.woven.room ≤ fans.new.woven.room }
{
    let mut last = 0;
    while let Some(f) = keys.buried_above(last) {
        if let Some(key) = keys.get_buried(f) {
            free_ring(fans, key, f);
        }
        last = f;
    }
}

/// Takes the three half-edges of a face, of which none is linked, out of the slab. The first stands at the key.
pub(crate) fn free_ring(fans: &mut Fans, key: u32, f: u32)
    requires { (v : ℕ) → IsOutside f (spokes_at fans.old.woven.fans v) }
    ensures fans { fans.new.woven.fans ≡ fans.old.woven.fans }
    ensures sides { KeepsSidesOutside f fans.old.woven.sides fans.new.woven.sides }
    ensures kept { (fans.new.buried ≡ fans.old.buried) × (fans.new.seats ≡ fans.old.seats) }
    ensures room { fans.old.woven.room ≤ fans.new.woven.room }
{
    let second = fans.side(key).next;
    let third = fans.side(second).next;
    fans.free(key, f);
    fans.free(second, f);
    fans.free(third, f);
}

/// Takes the three sides of a face out of those that leave its corners. They stay at their keys. Takes no memory.
pub(crate) fn bury_ring(fans: &mut Fans, id: u32, a: u32, b: u32, c: u32)
    requires different { AreDifferent (record { first = a; second = b; third = c }) }
    requires live { HaveFans fans.old.woven.fans (record { first = a; second = b; third = c }) }
    ensures lost { HasLost fans.old.woven fans.new.woven id
        (record { first = a; second = b; third = c }) }
    ensures sides { KeepsSides fans.old.woven.sides fans.new.woven.sides }
    ensures kept { (fans.new.buried ≡ fans.old.buried) × (fans.new.seats ≡ fans.old.seats) }
    ensures room { fans.new.woven.room ≡ fans.old.woven.room }
{
    fans.unlink(a, id);
    fans.unlink(b, id);
    fans.unlink(c, id);
}

/// Puts the three sides of a face, which stand in a ring from the key on, back among those that leave its corners. Takes no
/// memory.
fn raise_ring(fans: &mut Fans, id: u32, a: u32, b: u32, c: u32, key: u32)
    requires different { AreDifferent (record { first = a; second = b; third = c }) }
    requires live { HaveFans fans.old.woven.fans (record { first = a; second = b; third = c }) }
    requires ring { IsRing fans.old.woven.sides id
        (record { first = a; second = b; third = c }) key }
    requires outside { (v : ℕ) → IsOutside id (spokes_at fans.old.woven.fans v) }
    requires few { (v : ℕ) → length (spokes_at fans.old.woven.fans v) < 2 ^ 31 }
    ensures raised { HasRaised fans.old.woven fans.new.woven id
        (record { first = a; second = b; third = c }) }
    ensures kept { (fans.new.buried ≡ fans.old.buried) × (fans.new.seats ≡ fans.old.seats) }
    ensures room { fans.new.woven.room ≡ fans.old.woven.room }
{
    let first = fans.side(key);
    let second = fans.side(first.next);
    fans.relink(a, key);
    fans.relink(b, first.next);
    fans.relink(c, second.next);
}
