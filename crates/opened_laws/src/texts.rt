//! Which blocks of two sheets are opened, the law as the contract of a function that does nothing.

ghost use Rattle.opened_laws.specs.Texts.{SameTextsAreOpenedAlike};

use token_laws::kept_text_is_read_back;

/// Two kept blocks of sheets that are read, with one kept text, are both opened by themselves, or neither is.
///
/// Also both are an `@import`, or neither is.
pub fn same_texts_are_opened_alike()
    ensures { SameTextsAreOpenedAlike }
{
    kept_text_is_read_back();
}
