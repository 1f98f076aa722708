//! Laws of the definitions, as contracts of functions that do nothing.

ghost use Rattle.group_open.specs.Laws.{OpeningsAreLawful};

/// The opening of 1 to 8 images of accepted files that fit the frames is lawful.
pub fn openings_are_lawful()
    ensures { OpeningsAreLawful }
{}
