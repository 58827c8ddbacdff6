//! What follows from the lines, as functions that do nothing.

ghost use Rattle.dead_text.specs.Laws.{AliveSelectorsMatch, DeadSelectorsMatchNothing};

/// Each line `ITEM.NUMBER dead` is that of a selector of the sheet that matches nothing: no legal document has a target
/// that it matches.
pub fn dead_selectors_match_nothing()
    ensures { DeadSelectorsMatchNothing }
{}

/// Each line `ITEM.NUMBER alive` is that of a selector of the sheet, followed by an example in which this selector
/// matches the marked element of a legal document.
pub fn alive_selectors_match()
    ensures { AliveSelectorsMatch }
{}
