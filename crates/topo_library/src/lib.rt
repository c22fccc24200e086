//! The tracker for a caller in C or C++: a surface is made of points and faces, and changed by one call after another.
//! Coordinates, shifts and lengths are in grid units. Each call but three answers a code: done, no memory, refused for the reason
//! that the fault tells, an argument beyond its limit or a buffer too short, no tracker in the handle, a tracker that is
//! stopped, or one that is spent.
//!
//! The tracker is that of Brochu and Bridson, "Robust topological operations for dynamic explicit surfaces" (2009).
#![tactic(auto)]

ghost use Rattle.std.specs.Prelude.{◌≡◌, ◌≤◌, ◌<◌, None};
ghost use Rattle.grid_base.specs.declared.TheConstants.{LENGTH_MAX, ID_MAX};
ghost use Rattle.grid_base.specs.Motion.{NeverMeet};
ghost use Rattle.mesh_sizing.specs.Sizes.{IsBand};
ghost use Rattle.step_text.specs.Ranges.{IsFrom};
ghost use Rattle.step_text.specs.declared.Directive.TheVariants as directive;
ghost use Rattle.edit_base.specs.declared.PassKind.TheVariants as pass;
ghost use Rattle.track_engine.specs.Told.{step_told};
ghost use Rattle.track_engine.specs.Answers.{Nothing};
ghost use Rattle.track_engine.specs.Effects.{effect_of, undo_effect};
ghost use Rattle.track_held.specs.Events.{log_events};
ghost use Rattle.track_held.specs.Reading.{named_points, named_faces, solid_vertices, star_of, beside_edge};
ghost use Rattle.track_held.specs.Dropping.{drop_effect, drop_told};
ghost use Rattle.track_held.specs.Editing.{ends};
ghost use Rattle.track_held.specs.Tables.{table_fault};
ghost use Rattle.topo_library.specs.Alone.{places};
ghost use Rattle.topo_library.specs.Components.{told_components};
ghost use Rattle.topo_library.specs.Codes.{tracker_state, lines_told, AreSettings};
ghost use Rattle.topo_library.specs.Calls.{HoldsTheSame, HandleIsBeyond, HandleHasDone, HandleHasTold, HandleHasPassed, HandleHasToldPass, HandleHasShifted, HandleHasShiftedAll, HandleHasShiftedEach};
ghost use Rattle.topo_library.specs.Calls.{HandleHasWritten, HandleHasEdited, HandleHasClosedFold, HandleHasFittedTo, HandleHasFittedBy, HandleRefusesTable, HandleHasSet, HandleHasRenumbered, HandleHasBegunLog, HandleHasEndedLog};
ghost use Rattle.topo_library.specs.Calls.{HasMade, HasMadeNumbered, HandleHasPut, HandleHasTakenLog, HandleHasForgotten, HandleHasKept, HandleHasCounted, HasTestedMeeting, HasTestedMotion};
ghost use Rattle.topo_library.specs.Tellings.{way_told, closing_of, undone_of, band_of};

mod alone;
mod codes;
mod component_drop;
mod components;
mod directives;
mod edit_calls;
mod fault;
mod fold_closure;
mod handle;
mod log_calls;
mod loose;
mod new_tracker;
mod numbered_tracker;
mod owned;
mod queries;
mod results;
mod settings;
mod tracker;

use alone::{TopoFive, tell_meets, tell_passes};
use codes::{RANGE, REFUSED};
use component_drop::drop_component;
use components::TopoComponent;
use directives::{
    advance, close, fit, fit_by, pass_with, renumber, set, shift_each, shift_every, shift_one, step,
};
use edit_base::PassKind;
use edit_calls::{edit_each, undo};
use fault::{TopoFault, table_place};
use fold_closure::close_fold;
use grid_base::{ID_MAX, LENGTH_MAX};
use handle::Topo;
use log_calls::{begin_log, end_log, save};
use log_text::VERSION;
use mesh_base::VertexId;
use new_tracker::make;
use numbered_tracker::{NumberedRows, make_numbered};
use queries::{
    count, forget_log, keep_lines, read_beside, read_components, read_events, read_faces, read_log,
    read_points, read_solids, read_star,
};
use results::{TopoCounted, TopoEdits, TopoWay};
use settings::{band_of, settings_at};
use std::alloc::Global;
use step_text::Directive;
use track_held::{
    BandTable, Cells, Event, GivenBand, GivenEdit, GivenFace, GivenPoint, NamedFace, NamedPoint,
    ToldAnswer,
};

/// The version of these calls. It rises where what one of them takes or answers changes, and where one is gone.
pub const CALLS: u32 = 4;

/// Makes a tracker of the surface of these points and faces, whose corners number the points from 1, or refuses them for their first fault.
/// What `out` held is freed first; where no tracker is made, it holds none.
#[unsafe(no_mangle)]
pub extern "C" fn topo_new(
    alloc: Global,
    points: &[GivenPoint],
    faces: &[GivenFace],
    out: &mut Topo,
    fault: &mut TopoFault,
) -> u32
    ensures { HasMade points.now faces.now out fault result }
{
    make(alloc, points, faces, out, fault)
}

/// Makes a tracker of the surface of these vertices and faces, which keep their ids, of which these vertices are solid, and where the next vertex
/// and the next face get these ids; or refuses them for their first fault. So a tracker goes on where another was left. What `out` held is
/// freed first; where no tracker is made, it holds none.
#[unsafe(no_mangle)]
pub extern "C" fn topo_new_numbered(
    alloc: Global,
    points: &[NamedPoint],
    faces: &[NamedFace],
    solids: &[u32],
    next_vertex: u32,
    next_face: u32,
    out: &mut Topo,
    fault: &mut TopoFault,
) -> u32
    ensures { HasMadeNumbered points.now faces.now solids.now next_vertex next_face
        out fault result }
{
    let given = NumberedRows {
        points,
        faces,
        solids,
        next_vertex,
        next_face,
    };
    make_numbered(alloc, &given, out, fault)
}

/// Frees a tracker. The handle then holds none.
#[unsafe(no_mangle)]
pub extern "C" fn topo_free(alloc: Global, topo: &mut Topo)
    ensures { topo.new.owned.value ≡ None }
{
    drop(topo.take(alloc));
}

// A vertex, and the shift that is asked of it.
fn row_of(id: u32, x: i32, y: i32, z: i32) -> NamedPoint
    ensures { result ≡ record { id = id; x = x; y = y; z = z } }
{
    NamedPoint { id, x, y, z }
}

/// Adds a shift to what is asked of one vertex. A component above `SHIFT_MAX` and an id that no vertex may have are beyond their limit; refused
/// where the vertex does not live or is solid, or the sum is above the limit.
#[unsafe(no_mangle)]
pub extern "C" fn topo_shift(
    alloc: Global,
    topo: &mut Topo,
    v: u32,
    x: i32,
    y: i32,
    z: i32,
    fault: &mut TopoFault,
) -> u32
    ensures { HandleHasShifted (record { id = v; x = x; y = y; z = z }) topo fault result }
{
    let row = row_of(v, x, y, z);
    shift_one(alloc, topo, &row, fault)
}

/// Adds each shift to what is asked of its vertex, up to the first that cannot be asked or is refused.
#[unsafe(no_mangle)]
pub extern "C" fn topo_shift_each(
    alloc: Global,
    topo: &mut Topo,
    shifts: &[NamedPoint],
    fault: &mut TopoFault,
) -> u32
    ensures { HandleHasShiftedEach shifts.now topo fault result }
{
    shift_each(alloc, topo, shifts, fault)
}

/// Adds a shift to what is asked of each vertex that is not solid. A component above `SHIFT_MAX` is beyond its limit; refused where one of the
/// sums is above the limit.
#[unsafe(no_mangle)]
pub extern "C" fn topo_shift_all(
    alloc: Global,
    topo: &mut Topo,
    x: i32,
    y: i32,
    z: i32,
    fault: &mut TopoFault,
) -> u32
    ensures { HandleHasShiftedAll (record { id = 0; x = x; y = y; z = z }) topo fault result }
{
    let row = row_of(0, x, y, z);
    shift_every(alloc, topo, &row, fault)
}

/// Sets the depth of time halving of the tests, how many impulse passes are tried, whether impact zones are, 1 or 0, and how many halvings
/// of the asked shifts; or none of them, where one is beyond its limit.
#[unsafe(no_mangle)]
pub extern "C" fn topo_set(
    alloc: Global,
    topo: &mut Topo,
    depth: u32,
    passes: u32,
    zones: u32,
    halvings: u32,
) -> u32
    ensures beyond { ¬ AreSettings depth passes zones halvings →
        (result ≡ 3) × HoldsTheSame topo }
    ensures sets { HandleHasSet depth passes zones halvings topo result }
{
    match settings_at(depth, passes, zones, halvings) {
        Some(settings) => set(alloc, topo, settings),
        None => RANGE,
    }
}

/// Takes the asked shifts, or the first of the lesser ways that is safe, and tells which, and how many pairs do not pass in the asked step.
/// Refused where a vertex would leave the box.
#[unsafe(no_mangle)]
pub extern "C" fn topo_step(
    alloc: Global,
    topo: &mut Topo,
    way: &mut TopoWay,
    fault: &mut TopoFault,
) -> u32
    ensures does { HandleHasDone directive.Step topo fault result }
    ensures tells { HandleHasTold (λ t. way_told (step_told (tracker_state t))) topo way result }
{
    step(alloc, topo, way, fault)
}

/// Splits each edge that is longer, and tells how many edits were done and refused. A length above `LENGTH_MAX` is beyond its limit.
#[unsafe(no_mangle)]
pub extern "C" fn topo_split(
    alloc: Global,
    topo: &mut Topo,
    over: u32,
    edits: &mut TopoEdits,
    fault: &mut TopoFault,
) -> u32
    ensures beyond { LENGTH_MAX < over → HandleIsBeyond topo fault result }
    ensures does { over ≤ LENGTH_MAX → HandleHasPassed (pass.Split over) topo fault result }
    ensures kept { LENGTH_MAX < over → edits.new ≡ edits.old }
    ensures tells { over ≤ LENGTH_MAX →
        HandleHasToldPass (pass.Split over) topo edits result }
{
    if over > LENGTH_MAX {
        return RANGE;
    }
    pass_with(alloc, topo, PassKind::Split { over }, edits, fault)
}

/// Collapses each edge that is shorter, and tells the same. A length above `LENGTH_MAX` is beyond its limit.
#[unsafe(no_mangle)]
pub extern "C" fn topo_collapse(
    alloc: Global,
    topo: &mut Topo,
    under: u32,
    edits: &mut TopoEdits,
    fault: &mut TopoFault,
) -> u32
    ensures beyond { LENGTH_MAX < under → HandleIsBeyond topo fault result }
    ensures does { under ≤ LENGTH_MAX → HandleHasPassed (pass.Collapse under) topo fault result }
    ensures kept { LENGTH_MAX < under → edits.new ≡ edits.old }
    ensures tells { under ≤ LENGTH_MAX →
        HandleHasToldPass (pass.Collapse under) topo edits result }
{
    if under > LENGTH_MAX {
        return RANGE;
    }
    pass_with(alloc, topo, PassKind::Collapse { under }, edits, fault)
}

/// Flips each edge that is longer than the distance of its opposite corners, and tells the same.
#[unsafe(no_mangle)]
pub extern "C" fn topo_flip(
    alloc: Global,
    topo: &mut Topo,
    edits: &mut TopoEdits,
    fault: &mut TopoFault,
) -> u32
    ensures does { HandleHasPassed pass.Flip topo fault result }
    ensures tells { HandleHasToldPass pass.Flip topo edits result }
{
    pass_with(alloc, topo, PassKind::Flip, edits, fault)
}

/// Zips each two edges whose midpoints are no further apart, and tells the same. A length above `LENGTH_MAX` is beyond its limit.
#[unsafe(no_mangle)]
pub extern "C" fn topo_zip(
    alloc: Global,
    topo: &mut Topo,
    within: u32,
    edits: &mut TopoEdits,
    fault: &mut TopoFault,
) -> u32
    ensures beyond { LENGTH_MAX < within → HandleIsBeyond topo fault result }
    ensures does { within ≤ LENGTH_MAX → HandleHasPassed (pass.Zip within) topo fault result }
    ensures kept { LENGTH_MAX < within → edits.new ≡ edits.old }
    ensures tells { within ≤ LENGTH_MAX →
        HandleHasToldPass (pass.Zip within) topo edits result }
{
    if within > LENGTH_MAX {
        return RANGE;
    }
    pass_with(alloc, topo, PassKind::Zip { within }, edits, fault)
}

/// Pinches each vertex whose faces are two fans or more, and tells the same.
#[unsafe(no_mangle)]
pub extern "C" fn topo_pinch(
    alloc: Global,
    topo: &mut Topo,
    edits: &mut TopoEdits,
    fault: &mut TopoFault,
) -> u32
    ensures does { HandleHasPassed pass.Pinch topo fault result }
    ensures tells { HandleHasToldPass pass.Pinch topo edits result }
{
    pass_with(alloc, topo, PassKind::Pinch, edits, fault)
}

/// Splits each edge that is longer than `high`, and collapses each that is shorter than `low`, one after another, and tells how many edits were
/// done and refused. Where `low` is not below `high`, or `high` is above `LENGTH_MAX`, they are beyond their limit.
#[unsafe(no_mangle)]
pub extern "C" fn topo_fit(
    alloc: Global,
    topo: &mut Topo,
    low: u32,
    high: u32,
    edits: &mut TopoEdits,
) -> u32
    ensures beyond { ¬ IsBand (band_of low high) → HandleIsBeyond topo edits result }
    ensures fits { IsBand (band_of low high) →
        HandleHasFittedTo (band_of low high) topo edits result }
{
    match band_of(low, high) {
        Some(band) => fit(alloc, topo, band, edits),
        None => RANGE,
    }
}

/// The same by a table: how long an edge may be goes by the cell in which its middle lies, or by the nearest cell. Refused where the cells have no
/// side, there is none, there is not a band for each, or a band's `low` is not below its `high`, or that is above `LENGTH_MAX`.
#[unsafe(no_mangle)]
pub extern "C" fn topo_fit_by(
    alloc: Global,
    topo: &mut Topo,
    cells: &Cells,
    bands: &[GivenBand],
    edits: &mut TopoEdits,
    fault: &mut TopoFault,
) -> u32
    ensures refused { HandleRefusesTable cells.now bands.now topo edits fault result }
    ensures fits { HandleHasFittedBy cells.now bands.now topo edits result }
    ensures faultless { table_fault cells.now bands.now ≡ None → fault.new ≡ fault.old }
{
    match BandTable::new(*cells, bands) {
        Ok(table) => fit_by(alloc, topo, &table, edits),
        Err(why) => {
            *fault = table_place(why);
            REFUSED
        }
    }
}

/// Asks edits by ids, one after another, and tells what came of each, and of how many: of all, or, in an open group, of those up to the first
/// that is refused. Where a kind is none, an id none that a vertex may have, or there is not room for as many answers, they are beyond their
/// limit, and none is asked.
#[unsafe(no_mangle)]
pub extern "C" fn topo_edit_each(
    alloc: Global,
    topo: &mut Topo,
    asked: &[GivenEdit],
    answers: &mut [ToldAnswer],
    taken: &mut usize,
) -> u32
    ensures { HandleHasEdited asked.now topo answers taken result }
{
    edit_each(alloc, topo, asked, answers, taken)
}

/// Closes the fold at an edge with two faces, `a b c` and `b a d`, and tells what came of it: the edge is flipped to `c d`, which is then
/// collapsed; where `c d` is an edge already, it is only collapsed. It is done whole or not at all: it is a group of its own, which is taken back
/// where one of the edits is refused, or where the vertex that is left would have an edge along which more than one face runs one way. Where the
/// edge is no fold, nothing is done, and nothing is told to the log. Ids that no vertex may have, or that are one, are beyond their limit.
#[unsafe(no_mangle)]
pub extern "C" fn topo_close_fold(
    alloc: Global,
    topo: &mut Topo,
    a: u32,
    b: u32,
    answer: &mut ToldAnswer,
) -> u32
    ensures { HandleHasClosedFold (ends a b) topo answer result }
{
    close_fold(alloc, topo, a, b, answer)
}

/// Drops the component of a vertex, which are all vertices that chains of faces join with it, and tells what came of it: its edges are collapsed,
/// one after another, until none of its vertices lives. It is done whole, as a group of its own, or not at all: where a vertex of it is solid, or
/// one is left where each collapse is refused, nothing is done, and nothing is told to the log. Where no face is at the vertex, there is no edge.
/// An id that no vertex may have is beyond its limit.
#[unsafe(no_mangle)]
pub extern "C" fn topo_drop(alloc: Global, topo: &mut Topo, v: u32, answer: &mut ToldAnswer) -> u32
    ensures beyond { ¬ IsFrom 1 ID_MAX v → HandleIsBeyond topo answer result }
    ensures does { IsFrom 1 ID_MAX v → HandleHasWritten (drop_effect v) topo result }
    ensures tells { IsFrom 1 ID_MAX v →
        HandleHasTold (λ t. drop_told v (tracker_state t)) topo answer result }
{
    if v < 1 || v > ID_MAX {
        return RANGE;
    }
    drop_component(alloc, topo, VertexId(v), answer)
}

/// Makes a vertex solid: it does not move from here on, unless the group in which this is done is taken back. An id that no vertex may have is
/// beyond its limit; refused where the vertex does not live.
#[unsafe(no_mangle)]
pub extern "C" fn topo_solid(alloc: Global, topo: &mut Topo, v: u32, fault: &mut TopoFault) -> u32
    ensures beyond { ¬ IsFrom 1 ID_MAX v → HandleIsBeyond topo fault result }
    ensures does { IsFrom 1 ID_MAX v → HandleHasDone (directive.Solid v) topo fault result }
{
    if v < 1 || v > ID_MAX {
        return RANGE;
    }
    advance(alloc, topo, &Directive::Solid { v }, fault)
}

/// Opens a group of calls, which is kept whole or taken back whole.
#[unsafe(no_mangle)]
pub extern "C" fn topo_open(alloc: Global, topo: &mut Topo, fault: &mut TopoFault) -> u32
    ensures { HandleHasDone directive.Group topo fault result }
{
    advance(alloc, topo, &Directive::Group, fault)
}

/// Closes the group that was opened last: where each step in it was whole and no edit was refused it is kept, and else it is taken back; and
/// tells which. Nothing is done where no group is open.
#[unsafe(no_mangle)]
pub extern "C" fn topo_close(
    alloc: Global,
    topo: &mut Topo,
    kept: &mut u32,
    fault: &mut TopoFault,
) -> u32
    ensures does { HandleHasDone directive.Close topo fault result }
    ensures tells { HandleHasTold (λ t. closing_of (tracker_state t).groups) topo kept result }
{
    close(alloc, topo, kept, fault)
}

/// Takes the group that was opened last back, whatever was done in it, and tells that, or that none was open.
#[unsafe(no_mangle)]
pub extern "C" fn topo_undo(alloc: Global, topo: &mut Topo, became: &mut u32) -> u32
    ensures does { HandleHasWritten (λ s. undo_effect s.groups s) topo result }
    ensures tells { HandleHasTold (λ t. undone_of (tracker_state t).groups) topo became result }
{
    undo(alloc, topo, became)
}

/// How many vertices and faces live, which ids the next vertex and the next face get, how many steps were taken, and how many bytes the log has.
#[unsafe(no_mangle)]
pub extern "C" fn topo_counts(alloc: Global, topo: &mut Topo, counts: &mut TopoCounted) -> u32
    ensures { HandleHasCounted topo counts result }
{
    count(alloc, topo, counts)
}

/// Puts the live vertices, by rising id, and where they stand into a buffer, where all of them fit, and tells how many they are.
#[unsafe(no_mangle)]
pub extern "C" fn topo_points(
    alloc: Global,
    topo: &mut Topo,
    into: &mut [NamedPoint],
    size: &mut usize,
) -> u32
    ensures { HandleHasPut (λ t. named_points (tracker_state t).mesh) topo into size result }
{
    read_points(alloc, topo, into, size)
}

/// Puts the live faces, by rising id, and their corners into a buffer, where all of them fit, and tells how many they are.
#[unsafe(no_mangle)]
pub extern "C" fn topo_faces(
    alloc: Global,
    topo: &mut Topo,
    into: &mut [NamedFace],
    size: &mut usize,
) -> u32
    ensures { HandleHasPut (λ t. named_faces (tracker_state t).mesh) topo into size result }
{
    read_faces(alloc, topo, into, size)
}

/// Puts the faces at a vertex, by rising id, and their corners into a buffer, where all of them fit, and tells how many they are. None, where it
/// does not live.
#[unsafe(no_mangle)]
pub extern "C" fn topo_star(
    alloc: Global,
    topo: &mut Topo,
    v: u32,
    into: &mut [NamedFace],
    size: &mut usize,
) -> u32
    ensures { HandleHasPut (λ t. star_of (tracker_state t).mesh v) topo into size result }
{
    read_star(alloc, topo, v, into, size)
}

/// Puts the faces beside an edge, which have both of its ends as corners, by rising id, and their corners into a buffer, where all of them fit,
/// and tells how many they are. None, where there is no edge between two vertices.
#[unsafe(no_mangle)]
pub extern "C" fn topo_beside(
    alloc: Global,
    topo: &mut Topo,
    a: u32,
    b: u32,
    into: &mut [NamedFace],
    size: &mut usize,
) -> u32
    ensures { HandleHasPut (λ t. beside_edge (tracker_state t).mesh a b) topo into size result }
{
    read_beside(alloc, topo, (a, b), into, size)
}

/// Puts the ids of the live vertices that are solid, by rising id, into a buffer, where all of them fit, and tells how many they are.
#[unsafe(no_mangle)]
pub extern "C" fn topo_solids(
    alloc: Global,
    topo: &mut Topo,
    into: &mut [u32],
    size: &mut usize,
) -> u32
    ensures { HandleHasPut (λ t. solid_vertices (tracker_state t).mesh) topo into size result }
{
    read_solids(alloc, topo, into, size)
}

/// Puts the components of the surface, in order of their least faces, into a buffer, where all of them fit, and tells how many they are: two
/// faces that share a vertex are in one component, and so on. Of each its least vertex, how many faces it has, its Euler number, and six times
/// its volume.
#[unsafe(no_mangle)]
pub extern "C" fn topo_components(
    alloc: Global,
    topo: &mut Topo,
    into: &mut [TopoComponent],
    size: &mut usize,
) -> u32
    ensures { HandleHasPut (λ t. told_components (tracker_state t).mesh) topo into size result }
{
    read_components(alloc, topo, into, size)
}

/// Puts what was told since the log was last taken or forgotten into a buffer, as numbers, where all of it fits, and tells how
/// many events they are. It stays told.
#[unsafe(no_mangle)]
pub extern "C" fn topo_events(
    alloc: Global,
    topo: &mut Topo,
    into: &mut [Event],
    size: &mut usize,
) -> u32
    ensures { HandleHasPut (λ t. log_events (lines_told t)) topo into size result }
{
    read_events(alloc, topo, into, size)
}

/// Numbers the live vertices and faces anew, from 1, in their order, as a file of the mesh that is read again numbers them. Solid vertices
/// stay solid, the same is asked of each, settings and steps stay, and what was told is forgotten. Refused where a group is open.
#[unsafe(no_mangle)]
pub extern "C" fn topo_renumber(alloc: Global, topo: &mut Topo) -> u32
    ensures { HandleHasRenumbered topo result }
{
    renumber(alloc, topo)
}

/// Begins a log at the mesh as it is: what was told is forgotten, and the first lines are told: that of the version, that of the mesh, which gets
/// the number 0, those of the ids that there are, where one below the next is left out, of vertices or of faces, and one for each solid vertex.
/// Refused where a group is open.
#[unsafe(no_mangle)]
pub extern "C" fn topo_begin_log(alloc: Global, topo: &mut Topo) -> u32
    ensures { HandleHasBegunLog topo result }
{
    begin_log(alloc, topo)
}

/// Tells the line of a mesh that is saved, by the next number, and tells that number. Who asks for it keeps the mesh.
#[unsafe(no_mangle)]
pub extern "C" fn topo_save(alloc: Global, topo: &mut Topo, number: &mut u32) -> u32
    ensures does { HandleHasWritten (effect_of Nothing directive.Save) topo result }
    ensures tells { HandleHasTold (λ t. (tracker_state t).saved) topo number result }
{
    save(alloc, topo, number)
}

/// Ends a log: its last line is told. Refused where a group is open.
#[unsafe(no_mangle)]
pub extern "C" fn topo_end_log(alloc: Global, topo: &mut Topo) -> u32
    ensures { HandleHasEndedLog topo result }
{
    end_log(alloc, topo)
}

/// Keeps the lines that are told from here on, at 1, or none of them, at 0, and then forgets those that were told. A tracker that is made
/// keeps them. What is not kept is in no log and no events.
#[unsafe(no_mangle)]
pub extern "C" fn topo_keep(alloc: Global, topo: &mut Topo, lines: u32) -> u32
    ensures { HandleHasKept lines topo result }
{
    if lines > 1 {
        return RANGE;
    }
    keep_lines(alloc, topo, lines == 1)
}

/// Forgets what was told since the log was last taken.
#[unsafe(no_mangle)]
pub extern "C" fn topo_forget(alloc: Global, topo: &mut Topo) -> u32
    ensures { HandleHasForgotten topo result }
{
    forget_log(alloc, topo)
}

/// Puts what was told since the log was last taken into a buffer, where it fits, and forgets it then; and tells how many bytes it has.
#[unsafe(no_mangle)]
pub extern "C" fn topo_log(alloc: Global, topo: &mut Topo, into: &mut [u8], size: &mut usize) -> u32
    ensures { HandleHasTakenLog topo into size result }
{
    read_log(alloc, topo, into, size)
}

/// The version of these calls, for a caller that was built with another header.
#[unsafe(no_mangle)]
pub extern "C" fn topo_calls() -> u32
    ensures { result ≡ CALLS }
{
    CALLS
}

/// The version of the log that a tracker writes where no id is left out.
#[unsafe(no_mangle)]
pub extern "C" fn topo_version() -> u32
    ensures { result ≡ VERSION }
{
    u32::from(VERSION)
}

/// Tells 1 where the edge and the triangle of these five points share a position, ends, sides and corners counted, and else 0. A point
/// outside the box is beyond its limit.
#[unsafe(no_mangle)]
pub extern "C" fn topo_meets(at: &TopoFive, meets: &mut u32) -> u32
    ensures { HasTestedMeeting at.now meets result }
{
    tell_meets(at, meets)
}

/// Tells 1 where an edge and a triangle that go from five points to five points, all in the same time, pass the written test to a depth, and
/// else 0. Where they pass they meet at no fraction of the time. A point outside the box and a depth above `DEPTH_MAX` are beyond their limit.
#[unsafe(no_mangle)]
pub extern "C" fn topo_passes(start: &TopoFive, end: &TopoFive, depth: u32, passes: &mut u32) -> u32
    ensures tests { HasTestedMotion depth start.now end.now passes result }
    ensures clear { result ≡ 0 → passes.new ≡ 1 →
        NeverMeet (places start.now) (places end.now) }
{
    tell_passes(start, end, depth, passes)
}
