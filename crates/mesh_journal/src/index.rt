//! An index of a mesh's faces by where they stand, which changes keep up.
ghost use Rattle.std.specs.Prelude.{◌≡◌, ◌≢◌, ◌≤◌, ℕ, Some, None, All, IsTrue};
ghost use Rattle.grid_base.specs.Triples.{Triple, IsWithin, times};
ghost use Rattle.grid_base.specs.Points.{position_of};
ghost use Rattle.grid_base.specs.declared.TheConstants.{HALF_MAX};
ghost use Rattle.grid_base.specs.Extents.{IsIn};
ghost use Rattle.mesh_base.specs.Sides.{faces_at};
ghost use Rattle.mesh_journal.specs.Boxed.{Boxes, Holds, AreBoxed};

use crate::boxes::{set_box, unset_box, wider_box};
use crate::entries::Entry;
use crate::face_boxes::{boxes_of, cell_for, longest_side};
use cell_grid::Grid;
use grid_base::{Extent, Point, Wide};
use mesh_base::{FaceId, Surface, VertexId};
use std::alloc::Global;

/// Boxes of the faces by id, with a grid that finds those near a box. A box may be wider than its face, and may be of a
/// face that lives no longer: what the grid finds is tested again.
#[derive(Drop)]
pub(crate) struct Index {
    /// None: each question looks at every face.
    pub grid: Option<Grid>,
    /// The length of the journal when the grid was made.
    pub since: usize,
    /// A box is long if its longest side is above this.
    long: u32,
    /// How many boxes were widened since the index was asked for.
    pub widened: u32,
    /// How many widenings left a long box since the grid was made.
    worn: u32,
    /// How many faces the mesh had when the grid was made.
    faces: u32,
}

impl Index {
    /// No boxes.
    pub(crate) fn none() -> Index
        ensures grid { result.grid ≡ None }
        ensures since { result.since ≡ 0 }
    {
        Index {
            grid: None,
            since: 0,
            long: 0,
            widened: 0,
            worn: 0,
            faces: 0,
        }
    }

    /// The boxes of a mesh whose journal is so long; none where memory is wanting.
    pub(crate) fn of<B: Surface>(alloc: Global, mesh: &B, len: usize) -> Index
        ensures boxed { AreBoxed result.grid (B.mesh mesh.now) }
        ensures since { result.since ≡ len }
    {
        let cell = cell_for(mesh);
        Index {
            grid: boxes_of(alloc, mesh, cell),
            since: len,
            long: cell.saturating_mul(2),
            widened: 0,
            worn: 0,
            faces: mesh.faces(),
        }
    }

    /// Whether it is to be made anew: it has no boxes, long boxes were widened as often as an eighth of the faces, or the
    /// faces have become twice as many or half as many, so that its cells are too large or too small for them.
    pub(crate) fn is_worn(&self, faces: u32) -> bool {
        self.grid.is_none()
            || self.worn > faces / 8
            || faces / 2 > self.faces
            || self.faces / 2 > faces
    }

    /// Counts a widening that left this box.
    fn note_widened(&mut self, around: &Extent)
        ensures grid { self.new.grid ≡ self.old.grid }
        ensures since { self.new.since ≡ self.old.since }
    {
        self.widened = self.widened.saturating_add(1);
        if longest_side(around) > self.long {
            self.worn = self.worn.saturating_add(1);
        }
    }

    /// Sets the box of a face. Where memory is wanting, the boxes are given up.
    pub(crate) fn set(&mut self, f: FaceId, around: Extent)
        ensures at { (p : Triple) → IsIn around p → Holds self.new.grid f p }
        ensures others { (q : ℕ) (p : Triple) → q ≢ f
            → Holds self.old.grid q p → Holds self.new.grid q p }
        ensures since { self.new.since ≡ self.old.since }
    {
        set_box(&mut self.grid, f, around);
    }

    /// Makes the box of a face wide enough for a position. Where memory is wanting, the boxes are given up.
    fn widen(&mut self, f: FaceId, p: Wide)
        requires { IsWithin HALF_MAX p }
        ensures at { Holds self.new.grid f p }
        ensures keeps { (q : ℕ) (t : Triple) → Holds self.old.grid q t → Holds self.new.grid q t }
        ensures since { self.new.since ≡ self.old.since }
    {
        let around = match &self.grid {
            Some(grid) => wider_box(grid, f, p),
            None => return,
        };
        self.note_widened(&around);
        set_box(&mut self.grid, f, around);
    }

    /// Makes the boxes of faces wide enough for a position.
    fn widen_all(&mut self, faces: &[FaceId], p: Wide)
        requires { IsWithin HALF_MAX p }
        ensures at { All (λ f. Holds self.new.grid f p) faces.now }
        ensures keeps { (q : ℕ) (t : Triple) → Holds self.old.grid q t → Holds self.new.grid q t }
        ensures since { self.new.since ≡ self.old.since }
    {
        for f in faces {
            self.widen(*f, p);
        }
    }

    /// Makes the boxes of the faces at a vertex wide enough for a point. Where memory is wanting, and where many boxes
    /// were widened since the index was asked for, the boxes are given up: a step moves every vertex, and need not pay
    /// for boxes that are of no use.
    pub(crate) fn widen_at<B: Surface>(&mut self, alloc: Global, mesh: &B, v: VertexId, p: Point)
        ensures at { let t = times 2 (position_of p) in
            All (λ f. Holds self.new.grid f t) (faces_at (B.mesh mesh.now) v) }
        ensures keeps { (q : ℕ) (t : Triple) → Holds self.old.grid q t → Holds self.new.grid q t }
        ensures since { self.new.since ≡ self.old.since }
    {
        if self.grid.is_none() {
            return;
        }
        if self.widened > mesh.faces() / 4 {
            self.grid = None;
            return;
        }
        let mut faces = Vec::new(alloc);
        let Ok(()) = mesh.faces_at(v, &mut faces) else {
            self.grid = None;
            return;
        };
        self.widen_all(&faces, p.doubled());
    }

    /// Gives the boxes up, where the journal is shorter than when they were made.
    pub(crate) fn cut(&mut self, len: usize)
        ensures since { self.new.since ≤ len }
        ensures grid { (b : Boxes) → self.new.grid ≡ Some b
            → (self.old.grid ≡ Some b) × (self.old.since ≤ self.new.since) }
    {
        if len < self.since {
            *self = Index::none();
        }
    }

    /// Takes out the box of a face that is not live.
    fn drop_gone<B: Surface>(&mut self, mesh: &B, f: FaceId)
        ensures { let m = B.mesh mesh.now in
            AreBoxed self.old.grid m → AreBoxed self.new.grid m }
    {
        if let Some(_) = mesh.corners(f) {
            return;
        }
        unset_box(&mut self.grid, f);
    }

    /// Takes out the box of a face that the entry dropped and that is not live.
    fn drop_dropped<B: Surface>(&mut self, mesh: &B, e: &Entry)
        ensures { let m = B.mesh mesh.now in
            AreBoxed self.old.grid m → AreBoxed self.new.grid m }
    {
        if let Entry::FaceDropped(f) = e {
            self.drop_gone(mesh, *f);
        }
    }

    /// Takes out the boxes of faces that entries dropped and that are not live. The journal begins anew.
    pub(crate) fn settle<B: Surface>(&mut self, mesh: &B, entries: &[Entry])
        ensures boxed { let m = B.mesh mesh.now in
            AreBoxed self.old.grid m → AreBoxed self.new.grid m }
        ensures since { self.new.since ≡ 0 }
    {
        for e in entries {
            self.drop_dropped(mesh, e);
        }
        self.since = 0;
    }
}
