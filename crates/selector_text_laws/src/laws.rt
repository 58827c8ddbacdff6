//! The printed text of selectors, as functions that do nothing.

ghost use Rattle.selector_text_laws.specs.Back.{SelectorsReadBack};
ghost use Rattle.selector_text_laws.specs.Text.{SelectorTextsAreLexed, SelectorTextsAreShort};
ghost use Rattle.selector_text_laws.specs.Together.{TogetherEndsAlike, TogetherStands};

/// The printed text of a selector is read back: the tokens that it is read as are read as that selector, and printed
/// again they have the same text. They are of few kinds, and no more than two brackets are open at once.
pub fn selectors_read_back()
    ensures { SelectorsReadBack }
{}

/// The printed text of a selector is read as these tokens, before each sign but `(` as before nothing.
pub fn selector_texts_are_lexed()
    ensures { SelectorTextsAreLexed }
{}

/// The printed text of a selector is no longer than the kept text of the selector's tokens.
pub fn selector_texts_are_short()
    ensures { SelectorTextsAreShort }
{}

/// A token that another may follow by the table ends there as it did where it was read. A row of parts up to it is then
/// read before the other.
pub fn tokens_stand_together()
    ensures ends { TogetherEndsAlike }
    ensures stands { TogetherStands }
{}
