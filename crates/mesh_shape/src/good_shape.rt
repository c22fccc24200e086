//! Whether lists make a closed mesh.
ghost use Rattle.std.specs.Prelude.{◌≡◌, IsOk, IfOk, IfErr};
ghost use Rattle.mesh_base.specs.Mesh.{IsSound};
ghost use Rattle.mesh_base.specs.Sides.{IsClosed};
ghost use Rattle.mesh_base.specs.Given.{listed_mesh};
ghost use Rattle.mesh_shape.specs.Shape.{lists_fault, HaveGoodShape, IsRefusal, IsJust, EarlierHold};

use crate::all_faults::shape_faults;
use grid_base::NoMemory;
use mesh_base::{MeshLists, Scale, ShapeFault, ShapeRefusal};
use std::alloc::Global;

/// Whether lists make a closed mesh within the limits of a scale. If not, the first fault, in the order of `ShapeFault`, at its
/// least place: the least face, then corner, or the least two numbers, the first compared first.
pub fn shape(alloc: Global, scale: Scale, lists: &MeshLists) -> Result<(), ShapeRefusal>
    // Ok: no fault, which is to say a mesh within its limits, and closed.
    ensures none { IsOk result → HaveGoodShape scale lists.now }
    ensures sound { IsOk result → IsSound (listed_mesh scale lists.now) }
    ensures closed { IsOk result → IsClosed (listed_mesh scale lists.now) }

    // A fault: the first. What it names is at fault, and the parts before the one that it denies hold.
    ensures first { IfErr result (IsRefusal (lists_fault scale lists.now)) }
    ensures just { IfErr result (IsJust (listed_mesh scale lists.now)) }
    ensures earlier { IfErr result (EarlierHold (listed_mesh scale lists.now)) }
{
    match fault_of(alloc, scale, lists) {
        Ok(None) => Ok(()),
        Ok(Some(fault)) => Err(ShapeRefusal::Shape(fault)),
        Err(_) => Err(ShapeRefusal::NoMemory),
    }
}

/// The first of what is wrong with lists.
fn fault_of(alloc: Global, scale: Scale, lists: &MeshLists) -> Result<Option<ShapeFault>, NoMemory>
    ensures { IfOk result (λ fault. fault ≡ lists_fault scale lists.now) }
{
    let found = shape_faults(alloc, scale, lists, 1)?;
    Ok(found.first().copied())
}
