//! Laws of the measures. Each is the contract of a function that does nothing.

ghost use Rattle.mesh_base.specs.Mesh.{Mesh, IsSound};
ghost use Rattle.mesh_base.specs.Sides.{IsClosed};
ghost use Rattle.mesh_measure.specs.Laws.{HasNoOrigin, VolumeStaysWhereAllMove};

/// On a closed mesh the volume is the same from every origin: it does not change when all points move by one shift.
pub fn volume_has_no_origin()
    ensures placed { (m : Mesh) → IsSound m → IsClosed m → HasNoOrigin m }
    ensures moved { VolumeStaysWhereAllMove }
{}
