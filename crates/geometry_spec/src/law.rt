//! Laws of the definitions, each the contract of a function that does nothing.

ghost use Rattle.geometry_spec.specs.Laws.{ClockwiseIsNegative, DisjointBoxesAreApart, SignsDecideLyingOn, SignsDecideMeeting, TilesAreFloors};

/// The signs of four determinants decide what two segments have in common.
pub fn signs_decide_meeting()
    ensures { SignsDecideMeeting }
{}

/// The sign of one determinant and the order of points decide whether a point lies on a segment.
pub fn signs_decide_lying_on()
    ensures { SignsDecideLyingOn }
{}

/// Segments whose boxes are disjoint have no common point.
pub fn disjoint_boxes_are_apart()
    ensures { DisjointBoxesAreApart }
{}

/// A tile's number is the floor of each of its coordinates divided by the tile's side.
pub fn tiles_are_floors()
    ensures { TilesAreFloors }
{}

/// A closed list of points that runs clockwise has a negative area.
pub fn clockwise_is_negative()
    ensures { ClockwiseIsNegative }
{}
