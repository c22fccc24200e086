//! The pass by a sizing: each edge in turn, with the edit that is wanted of it there.
ghost use Rattle.std.specs.Prelude.{◌≡◌, ◌≤◌, IsErrOf};
ghost use Rattle.grid_base.specs.declared.TheConstants.{DEPTH_MAX};
ghost use Rattle.mesh_base.specs.Sides.{IsClosed};
ghost use Rattle.mesh_base.specs.Placements.{IsClearMesh};
ghost use Rattle.mesh_base.specs.Kept.{BeginsWith};
ghost use Rattle.mesh_sizing.specs.Sizes.{IsWellKept, MayAnswer};
ghost use Rattle.outside_io.specs.Causes.{Rose};
ghost use Rattle.pass_run.specs.Fits.{Calls, MayCall};
ghost use Rattle.pass_run.specs.Calls.{FitTells, CallKeeps, SinkHasFit};

use crate::candidates::splits;
use crate::chooser::Chooses;
use crate::faults::PassFault;
use crate::lengths::length_squared;
use crate::passes::{PassCount, take_turns};
use crate::terms::Turns;
use edit_base::{Asked, is_edge};
use grid_base::{DEPTH_MAX, NoMemory, Point, floor_mid};
use log_text::LogLine;
use log_write::Listener;
use mesh_base::{Surface, VertexId, point_of};
use mesh_sizing::{Band, Sizing, Want};
use outside_io::{Ends, Sink, Stop, TallyDesk};
use std::alloc::Global;

/// The edit that an edge calls for, if it stands: by its length and what the sizing says at its middle.
fn edit_called_for<S: Surface, G: Fn(Point) -> Band>(
    mesh: &S,
    sizing: &Sizing<G>,
    a: VertexId,
    b: VertexId,
) -> Option<Asked>
    requires { IsWellKept G.Fn sizing.now }
    ensures { Calls (MayAnswer G.Fn sizing.now) (S.mesh mesh.now) (a, b) result }
{
    if !is_edge(mesh, a, b) {
        return None;
    }
    let middle = floor_mid(point_of(mesh, a), point_of(mesh, b));
    match sizing.want(middle, length_squared(mesh, a, b)) {
        Want::Split => Some(Asked::Split { a, b }),
        Want::Collapse => Some(Asked::Collapse { a, b }),
        Want::Leave => None,
    }
}

impl<G: Fn(Point) -> Band> Chooses for Sizing<G> {
    ghost can_choose = { λ sizing. IsWellKept G.Fn sizing };

    ghost may_choose = { λ sizing m what call. MayCall (MayAnswer G.Fn sizing) m what call };

    fn choice<S: Surface>(
        &self,
        _alloc: Global,
        mesh: &S,
        what: Asked,
    ) -> Result<Option<Asked>, NoMemory> {
        match what {
            Asked::Split { a, b } => Ok(edit_called_for(mesh, self, a, b)),
            _ => Ok(None),
        }
    }
}

/// Does one pass over a mesh by a sizing. The first line tells the pass. Then comes each edge that the mesh has at the start, in order
/// of the smaller and then of the larger id. At its turn the sizing is asked at its middle, each component rounded down, if it still
/// stands: it is split where it is longer than `high`, and collapsed where it is shorter than `low`. Each edit that is so called for
/// has one line: that it is done, or why it is refused. An edge that calls for nothing has none.
///
/// All else is as in `pass_to`: a pass that is `grouped` ends with its first `no` line; `depth` is the number of time halvings of the
/// written test; lengths are compared by exact squares; the mesh stays closed and clear, after a stop too, and earlier marks hold.
pub fn fit_to<S: Surface, O: Listener, G: Fn(Point) -> Band>(
    alloc: Global,
    mesh: &mut S,
    turns: Turns<'_, Sizing<G>>,
    outside: &mut O,
) -> Result<PassCount, Stop>
    requires closed { IsClosed (S.mesh mesh.old) }
    requires clear { IsClearMesh (S.mesh mesh.old) }
    requires depth { turns.depth ≤ DEPTH_MAX }
    requires sizing { IsWellKept G.Fn turns.by.now }
    // Ok: all lines are written. A stop: the first of them, and perhaps a part of the next.
    ensures fits { FitTells S.mesh S.kept O.around mesh outside G.Fn turns.entry result }
    // After every answer.
    ensures keeps { CallKeeps S.mesh S.kept O.around mesh outside result }
{
    outside.tell(alloc, &LogLine::PassFit)?;
    let edges = splits(alloc, mesh)?;
    take_turns(alloc, mesh, turns, edges.as_slice(), outside)
}

/// Does one pass over a mesh by a sizing as `fit_to` does, where there is no desk.
pub fn fit_pass<S: Surface, K: Sink, G: Fn(Point) -> Band>(
    alloc: Global,
    mesh: &mut S,
    sizing: &Sizing<G>,
    depth: u8,
    grouped: bool,
    out: &mut K,
) -> Result<PassCount, PassFault>
    requires closed { IsClosed (S.mesh mesh.old) }
    requires clear { IsClearMesh (S.mesh mesh.old) }
    requires depth { depth ≤ DEPTH_MAX }
    requires sizing { IsWellKept G.Fn sizing.now }
    // Ok: all lines are written. A fault: the first of them, and perhaps a part of the next.
    ensures fits { SinkHasFit S.mesh K.written mesh out G.Fn sizing.now depth grouped result }

    // After every answer.
    ensures closed { IsClosed (S.mesh mesh.new) }
    ensures clear { IsClearMesh (S.mesh mesh.new) }
    ensures marks { BeginsWith (S.kept mesh.new) (S.kept mesh.old) }
    ensures later { K.faults out.old ≤ K.faults out.new }
    ensures cause { IsErrOf result PassFault.SinkFault →
        Rose (K.faults out.old) (K.faults out.new) }
{
    let turns = Turns {
        by: sizing,
        depth,
        grouped,
    };
    let mut desk = TallyDesk::new();
    let mut ends = Ends {
        desk: &mut desk,
        out,
    };
    match fit_to(alloc, mesh, turns, &mut ends) {
        Ok(count) => Ok(count),
        Err(stop) => Err(PassFault::of(stop)),
    }
}
