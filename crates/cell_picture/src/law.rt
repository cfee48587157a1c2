//! Laws of the definitions, each the contract of a function that does nothing.

ghost use Rattle.cell_picture.specs.Laws.{EachIsDrawnOnce, EscapesLeaveNoMarkup};

/// Each node and edge and each area of Group 1 and of coverage is drawn once; each finding has one row in the list by its number, and one mark if it
/// is anywhere, which has the number too where there are at most 500.
pub fn each_is_drawn_once()
    ensures { EachIsDrawnOnce }
{}

/// A text that is escaped has no brackets of elements and no quotation marks.
pub fn escapes_leave_no_markup()
    ensures { EscapesLeaveNoMarkup }
{}
