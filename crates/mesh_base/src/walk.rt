ghost use Rattle.std.specs.Prelude.{◌≡◌, IfOk};
ghost use Rattle.std.specs.FinMap as map;
ghost use Rattle.mesh_base.specs.Sides.{above};

use crate::lists::{FaceIds, Ids};
use crate::surface::Surface;
use grid_base::NoMemory;
use std::alloc::Global;

/// The live vertices, by rising id. Refuses only where there is no memory.
pub fn live_vertices<S: Surface>(alloc: Global, mesh: &S) -> Result<Ids, NoMemory>
    ensures { IfOk result (λ ids. ids ≡ map.keys (S.mesh mesh.now).points) }
{
    let mut ids = Ids::new(alloc);
    let mut last = 0;
    while let Some(v) = mesh.vertex_after(last) {
        ids.push(v)?;
        last = v.0;
    }
    Ok(ids)
}

/// The live faces whose ids are above this one, by rising id. Refuses only where there is no memory.
pub fn live_faces_above<S: Surface>(alloc: Global, mesh: &S, id: u32) -> Result<FaceIds, NoMemory>
    ensures { IfOk result (λ ids. ids ≡ above id (map.keys (S.mesh mesh.now).faces)) }
{
    let mut ids = FaceIds::new(alloc);
    let mut last = id;
    while let Some(f) = mesh.face_after(last) {
        ids.push(f)?;
        last = f.0;
    }
    Ok(ids)
}

/// The live faces, by rising id. Refuses only where there is no memory.
pub fn live_faces<S: Surface>(alloc: Global, mesh: &S) -> Result<FaceIds, NoMemory>
    ensures { IfOk result (λ ids. ids ≡ map.keys (S.mesh mesh.now).faces) }
{
    live_faces_above(alloc, mesh, 0)
}
