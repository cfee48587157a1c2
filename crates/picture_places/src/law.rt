//! A law of the definitions, the contract of a function that does nothing.

ghost use Rattle.picture_places.specs.North.{AllInFrame, CornersMeet, EastIsRight, NorthIsUp};

/// In a picture north is up and east to the right, and the box that is drawn fills the frame.
pub fn north_is_up()
    ensures north { NorthIsUp }
    ensures east { EastIsRight }
    ensures frame { AllInFrame }
    ensures corners { CornersMeet }
{}
