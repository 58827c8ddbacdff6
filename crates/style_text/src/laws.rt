//! What is printed of an input, as functions that do nothing.

ghost use Rattle.style_text.specs.Laws.{InputsHaveTwoParts, WinnersAreTold};

use doc_text::texts_differ;

/// What is printed of an input says which declaration wins, for each name of a declaration that applies to the marked
/// element of its document (CSS Cascading 3, section 6). It wins among all values that the rules of its sheet give this
/// name. Kept items are taken to apply nothing.
pub fn winners_are_told()
    ensures { WinnersAreTold }
{
    texts_differ();
}

/// An input is the text of its document, an empty line's line feed and its sheet; or it is the text of its document
/// alone.
pub fn inputs_have_two_parts()
    ensures { InputsHaveTwoParts }
{}
