//! Where an edge and a face of a motion stand, and what boxes tell of them. Each is the contract of a function that does nothing.

ghost use Rattle.pair_paths.specs.Laws.{PairsBeginInTheMotion, PairsEndInTheMotion};
ghost use Rattle.pair_paths.specs.Laws.{BoxesApartKeepApart, BoxesApartPass, BoxesApartPassInAFrame};

/// An edge and a face of a motion begin where the motion has the ends and the corners of their pair at its start, and end
/// where it has them at its end.
pub fn pairs_go_as_the_motion_says()
    ensures start { PairsBeginInTheMotion }
    ensures end { PairsEndInTheMotion }
{}

/// An edge and a face do not meet where boxes with no common point have them, and pass the written test to each depth
/// where the boxes have them at the start and at the end.
pub fn boxes_apart_keep_apart()
    ensures apart { BoxesApartKeepApart }
    ensures passes { BoxesApartPass }
{}

/// The same in a frame that moves: an edge and a face pass the written test to each depth where boxes with no common point
/// have them at the start, and have them at the end as one position sees them there.
pub fn boxes_apart_in_a_frame_keep_apart()
    ensures { BoxesApartPassInAFrame }
{}
