//! The ordered maps of one mesh.
ghost use Rattle.grid_base.specs.declared.TheConstants.{VERTICES_MAX, FACES_MAX};
ghost use Rattle.mesh_base.specs.Given.{listed_mesh, empty_mesh};
ghost use Rattle.mesh_base.specs.Limits.{under};
ghost use Rattle.mesh_shape.specs.Numbered.{numbered};
ghost use Rattle.std.specs.Prelude.{◌≤◌, ◌≡◌, ◌<◌, ◌+◌, ◌^◌, IfOk, OnOk, OnErr, IsNone, slice_get, length, []};
ghost use Rattle.std.specs.Option.{option_map};
ghost use Rattle.std.specs.FinMap as map;
ghost use Rattle.mesh_base.specs.Changes.{corner_list, with_vertex, with_face, without_face, without_vertex, with_point, with_solid};
ghost use Rattle.mesh_base.specs.Mesh.{is_solid};
ghost use Rattle.mesh_base.specs.Sides.{above, faces_at, faces_running, runs};
ghost use Rattle.mesh_plain.specs.Copying.{with_vertex_of, with_face_of, with_vertices_of, with_faces_of};

use grid_base::{NoMemory, Point};
use mesh_base::{
    Corners, FaceId, FaceTable, Limits, MeshLists, Scale, Surface, VertexId, point_of,
};
use std::alloc::Global;
use std::collections::BTreeMap;
use std::marker::Model;
use std::ops::Bound;

/// A mesh in ordered maps. A contract sees it as the mesh.
#[derive(Drop)]
pub(crate) struct Tables {
    points: BTreeMap<u32, Point>,
    faces: BTreeMap<u32, Corners>,
    // The solid vertices: a set, as a map that says nothing of each.
    solid: BTreeMap<u32, ()>,
    pub(crate) next_vertex: u32,
    pub(crate) next_face: u32,
    limits: Limits,
}

impl Model for Tables {
    ghost use Rattle.mesh_base.specs.Mesh.{Mesh};

    ghost Value = { Mesh };

    ghost use Rattle.mesh_shape.specs.Coded.{mesh_code};
    ghost use Rattle.grid_base.specs.contracts.Point as point;
    ghost use Rattle.mesh_base.specs.contracts.ids.Corners as corners;
    ghost use Rattle.mesh_base.specs.contracts.limits.Limits as allowed;

    ghost coded = { mesh_code point.the_row.coded corners.the_row.coded allowed.the_row.coded };

    ghost use Rattle.std.specs.FinMap as map;

    ghost view = { λ t. record {
      points = map.from_entries t.points.entries;
      faces = map.from_entries t.faces.entries;
      solid = map.from_entries t.solid.entries;
      next_vertex = t.next_vertex;
      next_face = t.next_face;
      limits = t.limits;
    } };
}

impl FaceTable for Tables {
    ghost mesh = { λ t. t };

    fn face_above(&self, f: u32) -> Option<FaceId> {
        self.face_after(f)
    }

    fn corners_of(&self, f: FaceId) -> Option<[VertexId; 3]> {
        self.corners(f)
    }

    fn point_of(&self, v: VertexId) -> Option<Point> {
        self.point(v)
    }
}

impl Tables {
    pub(crate) fn new(alloc: Global) -> Tables
        ensures { result ≡ empty_mesh }
    {
        Tables {
            points: BTreeMap::new(alloc),
            faces: BTreeMap::new(alloc),
            solid: BTreeMap::new(alloc),
            next_vertex: 1,
            next_face: 1,
            limits: Scale::Standard.limits(),
        }
    }

    /// The tables of lists, numbered from 1, with the limits of a scale.
    pub(crate) fn of(alloc: Global, scale: Scale, lists: &MeshLists) -> Result<Tables, NoMemory>
        requires points { length lists.now.points ≤ VERTICES_MAX }
        requires faces { length lists.now.faces ≤ FACES_MAX }
        ensures { IfOk result (λ t. t ≡ listed_mesh scale lists.now) }
    {
        let mut tables = Tables::new(alloc);
        tables.allow(scale.limits());
        for p in lists.points.as_slice() {
            tables.add_vertex(*p)?;
        }
        for f in lists.faces.as_slice() {
            tables.add_face(Corners::of([VertexId(f[0]), VertexId(f[1]), VertexId(f[2])]))?;
        }
        Ok(tables)
    }

    /// Puts a vertex of a mesh, with its mark as solid, if it has one.
    fn put_vertex<S: Surface>(&mut self, mesh: &S, v: VertexId) -> Result<(), NoMemory>
        ensures { OnOk result (self.new ≡ with_vertex_of (S.mesh mesh.now) self.old v) }
    {
        self.place(v, point_of(mesh, v))?;
        if mesh.solid(v) {
            self.make_solid(v)?;
        }
        Ok(())
    }

    /// Puts all vertices of a mesh.
    fn put_vertices<S: Surface>(&mut self, mesh: &S) -> Result<(), NoMemory>
        ensures { OnOk result (self.new ≡ with_vertices_of (S.mesh mesh.now) self.old) }
    {
        let mut last = 0;
        while let Some(v) = mesh.vertex_after(last) {
            self.put_vertex(mesh, v)?;
            last = v.0;
        }
        Ok(())
    }

    /// Puts a face at an id.
    fn set_face(&mut self, f: FaceId, c: Corners) -> Result<(), NoMemory>
        ensures ok { OnOk result
            (self.new ≡ record self.old { faces = map.insert self.old.faces f c }) }
        ensures err { OnErr result (self.new ≡ self.old) }
    {
        self.faces.insert(f.0, c)?;
        Ok(())
    }

    /// Puts a face of a mesh.
    fn put_face<S: Surface>(&mut self, mesh: &S, f: FaceId) -> Result<(), NoMemory>
        ensures { OnOk result (self.new ≡ with_face_of (S.mesh mesh.now) self.old f) }
    {
        match mesh.corners(f) {
            Some(c) => self.set_face(f, Corners::of(c)),
            None => Ok(()),
        }
    }

    /// Puts all faces of a mesh.
    fn put_faces<S: Surface>(&mut self, mesh: &S) -> Result<(), NoMemory>
        ensures { OnOk result (self.new ≡ with_faces_of (S.mesh mesh.now) self.old) }
    {
        let mut last = 0;
        while let Some(f) = mesh.face_after(last) {
            self.put_face(mesh, f)?;
            last = f.0;
        }
        Ok(())
    }

    /// The tables of a mesh, however it is kept.
    pub(crate) fn copy_of<S: Surface>(alloc: Global, mesh: &S) -> Result<Tables, NoMemory>
        ensures { IfOk result (λ t. t ≡ S.mesh mesh.now) }
    {
        let mut tables = Tables::new(alloc);
        tables.put_vertices(mesh)?;
        tables.put_faces(mesh)?;
        tables.number(mesh.next_vertex(), mesh.next_face());
        tables.allow(mesh.limits());
        Ok(tables)
    }

    /// Sets how many vertices and faces may be live.
    fn allow(&mut self, limits: Limits)
        ensures { self.new ≡ under limits self.old }
    {
        self.limits = limits;
    }

    /// Sets the next ids.
    pub(crate) fn number(&mut self, next_vertex: u32, next_face: u32)
        ensures { self.new ≡ numbered self.old next_vertex next_face }
    {
        self.next_vertex = next_vertex;
        self.next_face = next_face;
    }

    pub(crate) fn vertices(&self) -> usize
        ensures { result ≡ map.len self.now.points }
    {
        self.points.len()
    }

    pub(crate) fn faces(&self) -> usize
        ensures { result ≡ map.len self.now.faces }
    {
        self.faces.len()
    }

    pub(crate) fn next_vertex(&self) -> u32
        ensures { result ≡ self.now.next_vertex }
    {
        self.next_vertex
    }

    pub(crate) fn next_face(&self) -> u32
        ensures { result ≡ self.now.next_face }
    {
        self.next_face
    }

    pub(crate) fn limits(&self) -> Limits
        ensures { result ≡ self.now.limits }
    {
        self.limits
    }

    pub(crate) fn vertex_after(&self, v: u32) -> Option<VertexId>
        ensures { result ≡ slice_get (above v (map.keys self.now.points)) 0 }
    {
        match self
            .points
            .range((Bound::Excluded(v), Bound::Unbounded))
            .next()
        {
            Some((&id, _)) => Some(VertexId(id)),
            None => None,
        }
    }

    pub(crate) fn face_after(&self, f: u32) -> Option<FaceId>
        ensures { result ≡ slice_get (above f (map.keys self.now.faces)) 0 }
    {
        match self
            .faces
            .range((Bound::Excluded(f), Bound::Unbounded))
            .next()
        {
            Some((&id, _)) => Some(FaceId(id)),
            None => None,
        }
    }

    pub(crate) fn point(&self, v: VertexId) -> Option<Point>
        ensures { result ≡ map.get self.now.points v }
    {
        self.points.get(&v.0).copied()
    }

    pub(crate) fn solid(&self, v: VertexId) -> bool
        ensures { result ≡ is_solid self.now v }
    {
        self.solid.contains_key(&v.0)
    }

    pub(crate) fn corners(&self, f: FaceId) -> Option<[VertexId; 3]>
        ensures { result ≡ option_map corner_list (map.get self.now.faces f) }
    {
        match self.faces.get(&f.0) {
            Some(corners) => Some(corners.list()),
            None => None,
        }
    }

    pub(crate) fn runs(&self, u: VertexId, v: VertexId) -> usize
        ensures { result ≡ runs self.now u v }
    {
        let mut count: usize = 0;
        for (_, corners) in &self.faces {
            if corners.follows(u, v) {
                count += 1;
            }
        }
        count
    }

    pub(crate) fn run_face(&self, u: VertexId, v: VertexId, nth: u32) -> Option<FaceId>
        ensures { result ≡ slice_get (faces_running self.now u v) nth }
    {
        let mut left = nth;
        for (id, corners) in &self.faces {
            if corners.follows(u, v) {
                if left == 0 {
                    return Some(FaceId(*id));
                }
                left -= 1;
            }
        }
        None
    }

    pub(crate) fn faces_at(&self, v: VertexId, into: &mut Vec<FaceId>) -> Result<(), NoMemory>
        ensures ok { OnOk result (into.new.items ≡ faces_at self.now v) }
        ensures err { OnErr result (into.new.items ≡ []) }
    {
        into.clear();
        for (id, corners) in &self.faces {
            if corners.has_corner(v) {
                if into.push(FaceId(*id)).is_err() {
                    into.clear();
                    return Err(NoMemory);
                }
            }
        }
        Ok(())
    }

    pub(crate) fn add_vertex(&mut self, p: Point) -> Result<VertexId, NoMemory>
        requires { self.old.next_vertex + 1 < 2 ^ 32 }
        ensures id { IfOk result (λ v. v ≡ self.old.next_vertex) }
        ensures ok { OnOk result (self.new ≡ with_vertex self.old p) }
        ensures err { OnErr result (self.new ≡ self.old) }
    {
        let id = self.next_vertex;
        self.points.insert(id, p)?;
        self.next_vertex = id + 1;
        Ok(VertexId(id))
    }

    pub(crate) fn add_face(&mut self, c: Corners) -> Result<FaceId, NoMemory>
        requires { self.old.next_face + 1 < 2 ^ 32 }
        ensures id { IfOk result (λ f. f ≡ self.old.next_face) }
        ensures ok { OnOk result (self.new ≡ with_face self.old c) }
        ensures err { OnErr result (self.new ≡ self.old) }
    {
        let id = self.next_face;
        self.faces.insert(id, c)?;
        self.next_face = id + 1;
        Ok(FaceId(id))
    }

    pub(crate) fn drop_face(&mut self, f: FaceId)
        ensures { self.new ≡ without_face self.old f }
    {
        self.faces.remove(&f.0);
    }

    pub(crate) fn drop_vertex(&mut self, v: VertexId)
        ensures { self.new ≡ without_vertex self.old v }
    {
        self.points.remove(&v.0);
        self.solid.remove(&v.0);
    }

    pub(crate) fn place(&mut self, v: VertexId, p: Point) -> Result<(), NoMemory>
        ensures ok { OnOk result (self.new ≡ with_point self.old v p) }
        ensures err { OnErr result (self.new ≡ self.old) }
    {
        self.points.insert(v.0, p)?;
        Ok(())
    }

    pub(crate) fn make_solid(&mut self, v: VertexId) -> Result<(), NoMemory>
        ensures ok { OnOk result (self.new ≡ with_solid self.old v) }
        ensures err { OnErr result (self.new ≡ self.old) }
    {
        self.solid.insert(v.0, ())?;
        Ok(())
    }

    pub(crate) fn copy(&self) -> Result<Tables, NoMemory>
        ensures { IfOk result (λ copy. copy ≡ self.now) }
    {
        Ok(Tables {
            points: self.points.clone()?,
            faces: self.faces.clone()?,
            solid: self.solid.clone()?,
            next_vertex: self.next_vertex,
            next_face: self.next_face,
            limits: self.limits,
        })
    }
}
