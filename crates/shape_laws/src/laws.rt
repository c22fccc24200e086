//! Laws of the shape. Each is the contract of a function that does nothing.
ghost use Rattle.std.specs.Prelude.{ℕ};
ghost use Rattle.mesh_base.specs.Mesh.{Mesh};
ghost use Rattle.mesh_base.specs.Changes.{with_solid};
ghost use Rattle.edit_flip.specs.Answer.{OfFlips};
ghost use Rattle.edit_any.specs.Dispatch.{OfEdits};
ghost use Rattle.shape_laws.specs.Kept.{HaveSameShape, ShapeStays, ShapeAlwaysStays, ShapeStaysOnCollapse, ShapeStaysOnMoves};

/// Whatever edit is asked for, tested by whatever test to whatever depth: where it is done on a sound and closed mesh, and
/// `keeps_shape` or `collapse_keeps_shape` says so, the mesh is in as many pieces as before and has the same Euler number. Each
/// flip keeps both.
pub fn shapes_stay()
    ensures edits { OfEdits ShapeStays }
    ensures flips { OfFlips ShapeAlwaysStays }
    ensures collapses { OfEdits ShapeStaysOnCollapse }
{}

/// Moves of live vertices, of which none is named twice, leave the mesh in as many pieces and with the same Euler number; so does a
/// vertex that becomes solid.
pub fn moves_keep_the_shape()
    ensures moves { ShapeStaysOnMoves }
    ensures marks { (m : Mesh) (v : ℕ) → HaveSameShape m (with_solid m v) }
{}
