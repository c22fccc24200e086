//! Laws of what is measured. Each is the contract of a function that does nothing.
ghost use Rattle.track_measure.specs.Laws.{VertexIdsChangeNoMeasure, FaceIdsChangeNoMeasure};

/// A line by which the vertices or the faces of a sound mesh take new ids, and which fits, changes nothing that there is to measure: the
/// volume, the pieces, the Euler number and the genus are what they were.
pub fn new_ids_change_no_measure()
    ensures vertices { VertexIdsChangeNoMeasure }
    ensures faces { FaceIdsChangeNoMeasure }
{}
