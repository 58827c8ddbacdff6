//! What the document of a shape shows.

ghost use Rattle.shape_laws.specs.Document.Laws.{ShapesAreShort, ShapesShowMeeting};

/// The document of a shape that fits two selectors is legal, and both match its marked element. The elements may be any
/// that suit its slots.
pub fn shapes_show_meeting()
    ensures { ShapesShowMeeting }
{}

/// The document of a shape has at most four lines for each compound, and two more.
pub fn shapes_are_short()
    ensures { ShapesAreShort }
{}
