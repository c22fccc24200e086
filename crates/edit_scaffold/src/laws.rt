//! Laws of scaffolds. Each is the contract of a function that does nothing.
ghost use Rattle.std.specs.Prelude.{IfSome};
ghost use Rattle.mesh_base.specs.Mesh.{Mesh};
ghost use Rattle.edit_base.specs.declared.answers.Change.{Change};
ghost use Rattle.edit_any.specs.Dispatch.{scaffold_of};
ghost use Rattle.motion_proof.specs.Acceptance.{AreWays};
ghost use Rattle.edit_scaffold.specs.Laws.{ScaffoldsAgree, ScaffoldsAreClearWhereUntouched};

/// The mesh on which an edit is tested agrees with the edited one but for new faces and the vertices that move; so
/// where the edited mesh is clear, only pairs with a new face or a vertex that moves need be looked at.
pub fn scaffolds_agree()
    ensures { ScaffoldsAgree }
{}

/// So of a clear mesh the scaffold of an edit is clear where nothing is touched: where faces from the mesh's next id on
/// are new, and the vertices move as they do there. Its motion may be certified, and a certificate of it checked, by
/// what is near what is touched.
pub fn scaffolds_are_clear_where_untouched()
    ensures { ScaffoldsAreClearWhereUntouched }
{}

/// The ways of the scaffold of an edit begin and end within the greatest size of a position in half units, as a
/// certificate needs them.
pub fn scaffold_ways_are_within()
    ensures { (m : Mesh) (change : Change) →
        IfSome (scaffold_of m change) (λ s. AreWays s.moves) }
{}
