//! What holds of places and of shown texts, as functions that do nothing.

ghost use Rattle.line_places.specs.Laws.{ColumnsCountCodePoints, LinesPartTheText, PlacesAreInTheirLines, ShownHasNoControls};

/// Lines part the text: one after the other, each with its end, they are the text.
pub fn lines_part_the_text()
    ensures { LinesPartTheText }
{}

/// The place of a byte has the number of the line that it is in. Its column counts the code points of this line before
/// it, and no byte order mark.
pub fn places_are_in_their_lines()
    ensures { PlacesAreInTheirLines }
{}

/// Columns count code points: each code point of a text in UTF-8 once (RFC 3629, section 3).
pub fn columns_count_code_points()
    ensures { ColumnsCountCodePoints }
{}

/// What is shown has no control code of ASCII, and as many bytes as the text.
pub fn shown_has_no_controls()
    ensures { ShownHasNoControls }
{}
