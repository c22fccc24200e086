use grid_base::Items;
use mesh_base::Mark;
use mesh_plain::PlainMesh;
use motion_proof::{Claim, Way};

/// On what an edit is tested: a mesh, the vertices that move, each with its way in half units, and when no pair of that
/// motion meets.
#[derive(Drop)]
pub struct Scaffold {
    pub mesh: PlainMesh,
    pub ways: Items<Way>,
    pub claim: Claim,
}

/// The same, where that mesh is made of the edited one itself. The mark stands for the mesh from before.
#[derive(Drop)]
pub struct MarkedMotion {
    pub mark: Mark,
    pub ways: Items<Way>,
    pub claim: Claim,
}

/// How the vertices move on what an edit is tested, and what is claimed of it.
#[derive(Drop)]
pub(crate) struct Motion {
    pub(crate) ways: Items<Way>,
    pub(crate) claim: Claim,
}
