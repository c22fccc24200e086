//! Laws of meshes, their pairs and their motions. Each is the contract of a function that does nothing.

ghost use Rattle.std.specs.Prelude.{◌↔◌, map};
ghost use Rattle.std.specs.List.{Contains};
ghost use Rattle.std.specs.List.Sorted.{IsStrictlySortedBy};
ghost use Rattle.mesh_base.specs.Mesh.{Mesh, IsSound};
ghost use Rattle.mesh_base.specs.Pairs.{Pair, IsPair, edges, pairs, name_cmp};
ghost use Rattle.mesh_base.specs.SideList.{edge_cmp};
ghost use Rattle.mesh_base.specs.Shifts.{Shifts, NameLive, NameOnce};
ghost use Rattle.mesh_base.specs.Laws.{EdgesAreListed, MovesAddShifts, MovesKeepLive, MovesKeepFaces, MovesKeepNextVertex, MovesKeepNextFace};
ghost use Rattle.mesh_base.specs.Laws.{MovesKeepLimits, MovesKeepSound, MovesKeepClosed, MovesKeepPairs, LeftNameOnce};
ghost use Rattle.mesh_base.specs.Laws.{LeftShiftAlike, LeftEndInBox, ClearMotionLeavesClear};
ghost use Rattle.mesh_base.specs.Laws.{TranslationIsClearAlong, TranslationLeavesClear};

/// The list of edges has exactly the edges, the smaller id first; the list of pairs has exactly the pairs. Both are in order
/// and have nothing twice: edges by the smaller id and then by the larger, pairs by the edge and then by the face.
pub fn pairs_are_listed()
    ensures edges { EdgesAreListed }
    ensures pairs { (m : Mesh) → IsSound m → (p : Pair) → (Contains (pairs m) p ↔ IsPair m p) }
    ensures edges_rise { (m : Mesh) → IsStrictlySortedBy edge_cmp (edges m) }
    ensures pairs_rise { (m : Mesh) → IsStrictlySortedBy name_cmp (map (λ p. p.name) (pairs m)) }
{}

/// Moves that end in the box put each vertex at its point and its shift together, and change nothing else: the same
/// vertices are live, the laws of a mesh, its limits and its balance hold, and it has the same pairs.
pub fn moves_keep_the_mesh()
    ensures places { MovesAddShifts }
    ensures live { MovesKeepLive }
    ensures faces { MovesKeepFaces }
    ensures next_vertex { MovesKeepNextVertex }
    ensures next_face { MovesKeepNextFace }
    ensures limits { MovesKeepLimits }
    ensures sound { MovesKeepSound }
    ensures closed { MovesKeepClosed }
    ensures pairs { MovesKeepPairs }
{}

/// Shifts of the live vertices, by rising id, name each once. Where some that shift nothing are left out, each vertex has
/// the shift that it had, those left name each vertex once, and they end in the box where all did.
pub fn moves_of_nothing_may_be_left_out()
    ensures named { (m : Mesh) (shifts : Shifts) → NameLive m shifts → NameOnce m shifts }
    ensures left { LeftNameOnce }
    ensures shift { LeftShiftAlike }
    ensures ends { LeftEndInBox }
{}

/// After moves that are clear at every fraction and end in the box, the mesh is clear.
pub fn clear_motion_leaves_a_clear_mesh()
    ensures { ClearMotionLeavesClear }
{}

/// Where all live vertices of a clear mesh move by one shift, no pair meets at any fraction, and the mesh is clear after.
pub fn translation_never_meets()
    ensures along { TranslationIsClearAlong }
    ensures after { TranslationLeavesClear }
{}
