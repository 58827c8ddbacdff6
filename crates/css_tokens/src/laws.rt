//! Laws on the definition of the tokens, as functions that do nothing.

ghost use Rattle.css_model.specs.Text.Runs.{RunsAreLongest};
ghost use Rattle.css_tokens.specs.Laws.{PartsJoin, TokensCover, TokensRestart};
ghost use Rattle.css_tokens.specs.Lexed.{LexedAreParts, LexedAreUtf8, PartsAreLexed};

/// A run is the longest row of its units.
pub fn runs_are_longest()
    ensures { RunsAreLongest }
{}

/// The parts of a text, joined, are the text, or its front up to what is wrong with it.
pub fn parts_join()
    ensures { PartsJoin }
{}

/// The tokens of a source lie in it in order, from a place on up to its fault or its end. Each has a byte. Only
/// comments come before it, and it says whether there are any.
pub fn tokens_cover()
    ensures { TokensCover }
{}

/// Each token of a source is in it, after the one before it. The tokens from where it begins are that token and those
/// after it.
pub fn tokens_restart()
    ensures { TokensRestart }
{}

/// A text with nothing wrong is read back from its parts. Each part is the one at the front of its bytes and those
/// after it. Parts for which this holds are the parts of the text that they spell.
pub fn parts_read_back()
    ensures lexed { PartsAreLexed }
    ensures back { LexedAreParts }
{}

/// Each part of a text in UTF-8 is UTF-8 itself, where it is read as it is: no token ends inside a code point.
pub fn parts_are_utf8()
    ensures { LexedAreUtf8 }
{}
