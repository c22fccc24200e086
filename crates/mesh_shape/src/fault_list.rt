//! Faults that are put at the end of a list, of which the first so many are kept.
ghost use Rattle.std.specs.Prelude.{◌≡◌, ◌+◌, IfOk};
ghost use Rattle.mesh_base.specs.Changes.{corners_of};
ghost use Rattle.mesh_shape.specs.Shape.{is_vertex, repeats};
ghost use Rattle.mesh_shape.specs.ShapeFaults.{one_if, no_vertices_in, no_vertices_from, all_repeated_from, limit_faults};
ghost use Rattle.mesh_shape.specs.Listing.{Adds};

use grid_base::NoMemory;
use mesh_base::{Scale, ShapeFault};

/// Puts a fault at the end of the list, where it is one and there is room among the first `most`.
pub(crate) fn put_if(
    is: bool,
    fault: ShapeFault,
    most: usize,
    faults: &mut Vec<ShapeFault>,
) -> Result<(), NoMemory>
    ensures { Adds most result faults.old faults.new (one_if is fault) }
{
    if is && faults.len() < most {
        faults.push(fault)?;
    }
    Ok(())
}

/// The number of the face at a place. Answers want of memory where a fault cannot tell that number: no text that is read has so many faces.
pub(crate) fn face_number(place: usize) -> Result<u32, NoMemory>
    ensures { IfOk result (λ number. number ≡ place + 1) }
{
    if place < u32::MAX as usize {
        Ok(place as u32 + 1)
    } else {
        Err(NoMemory)
    }
}

/// Whether there is a vertex of this number, among `n`.
pub(crate) fn is_vertex(n: usize, v: u32) -> bool
    ensures { result ≡ is_vertex n v }
{
    1 <= v && v as usize <= n
}

/// Puts the corners of a face that are no vertex at the end of the list.
fn put_no_vertices_in(
    n: usize,
    face: u32,
    f: &[u32; 3],
    most: usize,
    faults: &mut Vec<ShapeFault>,
) -> Result<(), NoMemory>
    ensures { Adds most result faults.old faults.new (no_vertices_in n face (corners_of f.now)) }
{
    put_if(
        !is_vertex(n, f[0]),
        ShapeFault::NoVertex { face, corner: 1 },
        most,
        faults,
    )?;
    put_if(
        !is_vertex(n, f[1]),
        ShapeFault::NoVertex { face, corner: 2 },
        most,
        faults,
    )?;
    put_if(
        !is_vertex(n, f[2]),
        ShapeFault::NoVertex { face, corner: 3 },
        most,
        faults,
    )
}

/// Puts the corners that are no vertex, of `n`, at the end of the list.
pub(crate) fn put_no_vertices(
    n: usize,
    faces: &[[u32; 3]],
    most: usize,
    faults: &mut Vec<ShapeFault>,
) -> Result<(), NoMemory>
    ensures { Adds most result faults.old faults.new (no_vertices_from n 1 faces.now) }
{
    if most <= faults.len() {
        return Ok(());
    }
    for (i, f) in faces.iter().enumerate() {
        put_no_vertices_in(n, face_number(i)?, f, most, faults)?;
    }
    Ok(())
}

fn repeats(f: &[u32; 3]) -> bool
    ensures { result ≡ repeats (corners_of f.now) }
{
    f[0] == f[1] || f[1] == f[2] || f[2] == f[0]
}

/// Puts the faces with a corner twice at the end of the list.
pub(crate) fn put_repeated(
    faces: &[[u32; 3]],
    most: usize,
    faults: &mut Vec<ShapeFault>,
) -> Result<(), NoMemory>
    ensures { Adds most result faults.old faults.new (all_repeated_from 1 faces.now) }
{
    if most <= faults.len() {
        return Ok(());
    }
    for (i, f) in faces.iter().enumerate() {
        let face = face_number(i)?;
        put_if(repeats(f), ShapeFault::Repeated { face }, most, faults)?;
    }
    Ok(())
}

/// Puts what is beyond the limits of a scale at the end of the list.
pub(crate) fn put_limits(
    scale: Scale,
    points: usize,
    faces: usize,
    most: usize,
    faults: &mut Vec<ShapeFault>,
) -> Result<(), NoMemory>
    ensures { Adds most result faults.old faults.new (limit_faults scale points faces) }
{
    let limits = scale.limits();
    let too_many_vertices = ShapeFault::TooManyVertices {
        count: points as u64,
    };
    let too_many_faces = ShapeFault::TooManyFaces {
        count: faces as u64,
    };
    put_if(
        points > limits.vertices as usize,
        too_many_vertices,
        most,
        faults,
    )?;
    put_if(faces > limits.faces as usize, too_many_faces, most, faults)
}
