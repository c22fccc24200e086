//! All faults of the shape of lists.
ghost use Rattle.std.specs.Prelude.{◌≡◌, ◌<◌, ◌++◌, [], map, take, None, IfOk};
ghost use Rattle.mesh_shape.specs.Shape.{repeated_from};
ghost use Rattle.mesh_shape.specs.ShapeFaults.{faults_of, all_doubled_from, unbalanced_fault, unbalanced_pairs, FirstIsShapeFault};
ghost use Rattle.mesh_shape.specs.Listing.{Adds};

use crate::balance::{put_unbalanced, told_by_sides};
use crate::doubled::put_doubled;
use crate::fault_list::{put_limits, put_no_vertices, put_repeated};
use grid_base::NoMemory;
use mesh_base::{MeshLists, Scale, ShapeFault};
use std::alloc::Global;

/// What keeps lists from making a closed mesh within the limits of a scale, the first so many of it at most, in the order of `ShapeFault`,
/// and of each kind by rising place: too many points or faces; each corner that is no vertex; each face with a corner twice; each face
/// that a later one equals up to rotation, with the first such; and each two vertices, the smaller first, between which the faces do not
/// run as often one way as the other. The first is the one that `shape` refuses, so there is none exactly where that accepts. Takes time
/// in proportion to the faces and the logarithm of their number, and beside what it answers at most some 40 bytes of memory a face.
/// Refuses only where there is no memory, and where there are 2^32 faces or more, whose numbers a fault does not tell.
pub fn shape_faults(
    alloc: Global,
    scale: Scale,
    lists: &MeshLists,
    most: usize,
) -> Result<Vec<ShapeFault>, NoMemory>
    ensures found { IfOk result (λ found. found.items ≡ take most (faults_of scale lists.now)) }
    // The first of all of them is the one that a test for one finds.
    ensures first { FirstIsShapeFault scale lists.now }
{
    let n = lists.points.len();
    let faces = lists.faces.as_slice();
    let mut faults = Vec::new(alloc);
    put_limits(scale, n, faces.len(), most, &mut faults)?;
    put_no_vertices(n, faces, most, &mut faults)?;
    put_repeated(faces, most, &mut faults)?;
    put_by_sides(alloc, n, faces, most, &mut faults)?;
    faults.truncate(most);
    Ok(faults)
}

/// Puts what the sides of the faces in order tell at the end of the list: double faces, and the two vertices, of `n`, between which the
/// faces do not run as often one way as the other.
fn put_by_sides(
    alloc: Global,
    n: usize,
    faces: &[[u32; 3]],
    most: usize,
    faults: &mut Vec<ShapeFault>,
) -> Result<(), NoMemory>
    requires { 0 < most → faults.old.items ≡ [] → repeated_from 1 faces.now ≡ None }
    ensures { Adds most result faults.old faults.new
        (all_doubled_from 1 faces.now ++ map unbalanced_fault (unbalanced_pairs n faces.now)) }
{
    if most <= faults.len() {
        return Ok(());
    }
    let told = told_by_sides(alloc, faces)?;
    put_doubled(alloc, faces, told.0, most, faults)?;
    put_unbalanced(n, faces, &told.1, most, faults)
}
