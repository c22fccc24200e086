ghost use Rattle.obj_text.specs.Laws.{WrittenIsRead, ListsGiveRenumbered, StaysClosed, StaysClear, KeepsOrder};
ghost use Rattle.obj_text.specs.ListLaws.{ListsAreWrittenAsMesh, ListsAreRead};

/// A mesh that is written is read again: on a grid of as many decimals the text gives its live points and its live faces,
/// in order, each corner by its rank.
pub fn written_is_read()
    ensures { WrittenIsRead }
{}

/// What a written mesh gives when it is read again is the mesh with its vertices and faces numbered anew, which is closed
/// where the mesh is, and clear where it is. A vertex gets its rank as its id.
pub fn written_stays_good()
    ensures renumbered { ListsGiveRenumbered }
    ensures closed { StaysClosed }
    ensures clear { StaysClear }
    ensures order { KeepsOrder }
{}

/// Lists of good shape are written as the mesh that they make, and read again: on a grid of as many decimals the text gives
/// the same points and the same faces, in the same order.
pub fn lists_are_read()
    ensures as_mesh { ListsAreWrittenAsMesh }
    ensures read { ListsAreRead }
{}
