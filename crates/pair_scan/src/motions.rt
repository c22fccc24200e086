//! The motions of a mesh: at rest, by shifts, and by moves of a few vertices in half units.
ghost use Rattle.std.specs.Prelude.{◌≡◌, IsTrue};
ghost use Rattle.std.specs.List.{All};
ghost use Rattle.std.specs.Option.{option_map, unwrap_or};
ghost use Rattle.grid_base.specs.declared.TheConstants.{HALF_MAX};
ghost use Rattle.grid_base.specs.Triples.{IsWithin, plus};
ghost use Rattle.grid_base.specs.Points.{position_of, displacement_of, point_at};
ghost use Rattle.mesh_base.specs.Placements.{origin, rest_positions_doubled};
ghost use Rattle.mesh_base.specs.Shifts.{NameLive, end_in_box, moved_by};
ghost use Rattle.edit_base.specs.Scaffold.{motion_by};
ghost use Rattle.pair_paths.specs.Paths.{at_rest};
ghost use Rattle.pair_scan.specs.Moves.{MoveFits};

use crate::lookup::shift_of;
use crate::moves::Moves;
use grid_base::{HALF_MAX, Point, Shift, Wide, moved};
use mesh_base::{ShiftOf, Surface, VertexId, point_of};
use pair_paths::{Path, Paths, Position};

/// A mesh at rest, as the paths of its vertices.
#[derive(Drop)]
pub struct RestingVertices<'a, S: Surface> {
    pub mesh: &'a S,
}

impl<'a, S: Surface> Paths for RestingVertices<'a, S> {
    ghost motion = { λ s. at_rest (S.mesh s.mesh.now) };

    fn path_of(&self, v: VertexId) -> Path {
        let here = Position::of(point_of(self.mesh, v).wide());
        Path {
            start: here,
            end: here,
        }
    }
}

/// A mesh whose vertices go from their points by their shifts.
#[derive(Drop)]
pub struct ShiftedVertices<'a, S: Surface> {
    pub mesh: &'a S,
    pub by: &'a [ShiftOf],
    pub ghost named: { NameLive (S.mesh mesh.now) by.now },
    pub ghost in_box: { IsTrue (end_in_box (S.mesh mesh.now) by.now) },
}

impl<'a, S: Surface> Paths for ShiftedVertices<'a, S> {
    ghost motion = { λ s. moved_by (S.mesh s.mesh.now) s.by.now };

    fn path_of(&self, v: VertexId) -> Path {
        let from = point_of(self.mesh, v);
        let to = end_of(from, shift_of(self.by, v));
        Path {
            start: Position::of(from.wide()),
            end: Position::of(to.wide()),
        }
    }
}

/// Where a point ends: at the origin, where the shift takes it out of the box.
fn end_of(from: Point, by: Option<Shift>) -> Point
    ensures { result ≡ point_at
        (plus (position_of from) (unwrap_or (option_map displacement_of by) origin)) }
{
    match by {
        Some(s) => moved_or_origin(from, s),
        None => from,
    }
}

fn moved_or_origin(from: Point, by: Shift) -> Point
    ensures { result ≡ point_at (plus (position_of from) (displacement_of by)) }
{
    match moved(from, by) {
        Some(p) => p,
        None => Point { x: 0, y: 0, z: 0 },
    }
}

/// A mesh in half units, of which the vertices of the moves go from their starts to their ends, and all others stay.
#[derive(Drop)]
pub struct MovedVertices<'a, S: Surface, M: Moves> {
    pub mesh: &'a S,
    pub moves: M,
    pub ghost fit: { All MoveFits (M.moves moves) },
}

impl<'a, S: Surface, M: Moves> Paths for MovedVertices<'a, S, M> {
    ghost motion = { λ s. motion_by (S.mesh s.mesh.now) (M.moves s.moves) };

    fn path_of(&self, v: VertexId) -> Path {
        match self.moves.move_of(v) {
            Some(m) => Path {
                start: Position::of(m.start),
                end: Position::of(m.end),
            },
            None => {
                let here = Position::of(resting(self.mesh, v));
                Path {
                    start: here,
                    end: here,
                }
            }
        }
    }
}

/// Where a vertex stands, in half units; the origin, where it is not live.
fn resting<S: Surface>(mesh: &S, v: VertexId) -> Wide
    ensures value { result ≡ rest_positions_doubled (S.mesh mesh.now) v }
    ensures within { IsWithin HALF_MAX result }
{
    point_of(mesh, v).doubled()
}
