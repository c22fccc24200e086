//! All that is wrong with lists.
ghost use Rattle.std.specs.Prelude.{◌≡◌, map, length, take, slice_get, option_map, IfOk, None};
ghost use Rattle.mesh_shape.specs.Shape.{shape_fault};
ghost use Rattle.mesh_base.specs.Given.{mesh_under};
ghost use Rattle.obj_text.specs.Views.{lists_view};
ghost use Rattle.mesh_faults.specs.MeetingPairs.{meeting_pairs};
ghost use Rattle.track_check.specs.Check.{refusal_of, shape_as_fault, pair_as_fault, faults_told};

use crate::fault::{FAULTS_MAX, Fault, refusal_of};
use grid_base::NoMemory;
use log_text::Refusal;
use mesh_base::{MeshLists, PairName, Scale, ShapeFault};
use mesh_faults::meeting_pairs;
use mesh_journal::JournalMesh;
use mesh_shape::shape_faults;
use std::alloc::Global;

// Faults of shape.
fn of_shape(alloc: Global, found: &[ShapeFault]) -> Result<Vec<Fault>, NoMemory>
    ensures { IfOk result (λ faults. faults.items ≡ map shape_as_fault found.now) }
{
    let mut faults = Vec::with_capacity(alloc, found.len())?;
    for fault in found {
        faults.push(Fault::Shape(*fault))?;
    }
    Ok(faults)
}

// Pairs that meet.
fn of_pairs(alloc: Global, found: &[PairName]) -> Result<Vec<Fault>, NoMemory>
    ensures { IfOk result (λ faults. faults.items ≡ map pair_as_fault found.now) }
{
    let mut faults = Vec::with_capacity(alloc, found.len())?;
    for pair in found {
        faults.push(Fault::Meets(*pair))?;
    }
    Ok(faults)
}

// The pairs that meet, of lists of good shape, as far as they are told.
fn meeting_faults(alloc: Global, scale: Scale, lists: &MeshLists) -> Result<Vec<Fault>, NoMemory>
    requires good { shape_fault scale (length lists.now.points) lists.now.faces ≡ None }
    ensures { let m = mesh_under scale lists.now.points lists.now.faces in IfOk result
        (λ faults. faults.items ≡ map pair_as_fault (take FAULTS_MAX (meeting_pairs m))) }
{
    let mesh = JournalMesh::of(alloc, scale, lists)?;
    let pairs = meeting_pairs(alloc, &mesh, FAULTS_MAX)?;
    of_pairs(alloc, &pairs)
}

/// What is wrong with lists, as far as it is told.
pub(crate) fn faults_told(
    alloc: Global,
    scale: Scale,
    lists: &MeshLists,
) -> Result<Vec<Fault>, NoMemory>
    ensures { IfOk result (λ faults. faults.items ≡ faults_told scale (lists_view lists.now)) }
{
    let found = shape_faults(alloc, scale, lists, FAULTS_MAX)?;
    if found.is_empty() {
        return meeting_faults(alloc, scale, lists);
    }
    of_shape(alloc, &found)
}

/// The first fault as a refusal, if there is one.
pub(crate) fn first_of(faults: &[Fault]) -> Option<Refusal>
    ensures { result ≡ option_map refusal_of (slice_get faults.now 0) }
{
    match faults.first() {
        Some(fault) => Some(refusal_of(*fault)),
        None => None,
    }
}
