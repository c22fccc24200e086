//! Laws of zips. Each is the contract of a function that does nothing.

ghost use Rattle.edit_zip.specs.Answer.{OfZips, OfExactZips};
ghost use Rattle.edit_base.specs.Laws.{AlwaysMakes, StaysSound, StaysClosed, StaysClear};
ghost use Rattle.edit_zip.specs.Done.{IsZip, zip_result};

/// A done zip of a sound, closed and clear mesh leaves one. It moves nothing.
pub fn zips_keep_the_mesh()
    ensures kind { OfZips (AlwaysMakes IsZip) }
    ensures sound { OfZips (StaysSound zip_result) }
    ensures closed { OfZips (StaysClosed zip_result) }
    ensures clear { OfExactZips (StaysClear zip_result) }
{}
