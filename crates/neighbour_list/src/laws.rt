//! Why a list serves. Each law is the contract of a function that does nothing.

ghost use Rattle.neighbour_list.specs.Laws.{PairsNotNearPass, CommonShiftsUseNoSkin};
ghost use Rattle.neighbour_list.specs.Laws.{ListsAreOfMeshesAlike, ListsStayWhereVerticesMove};

/// A pair that is not near at reference points passes the written test to each depth, where its vertices are among some that
/// drift alike up to the skin, at the start of a motion and at its end. The vertices may be all of a mesh, or those of two
/// clusters of its faces. Nothing is asked of the reference points, the skin, or the steps before.
pub fn a_pair_that_is_not_near_passes()
    ensures { PairsNotNearPass }
{}

/// A shift that all vertices have in common uses up no skin.
pub fn a_common_shift_uses_up_no_skin()
    ensures { CommonShiftsUseNoSkin }
{}

/// A list of a mesh is one of each mesh with the same faces and the same live vertices, wherever these stand; so it stays
/// one where vertices are moved.
pub fn a_list_stays_where_vertices_move()
    ensures alike { ListsAreOfMeshesAlike }
    ensures moved { ListsStayWhereVerticesMove }
{}
