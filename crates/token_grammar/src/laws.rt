//! The laws. They do nothing when they run.

ghost use Rattle.token_grammar.specs.Laws.{NamesAreDecoded, NamesAreUnescaped, TokensAreThoseOfTheGrammar};

/// The tokens of a source, and its fault, are those of the grammar of CSS Syntax 3, and there are no others.
pub fn tokens_are_those_of_the_grammar()
    ensures { TokensAreThoseOfTheGrammar }
{}

/// The bytes that a name or the inside of a string says, by the rules of escapes, are those that the reader gives.
pub fn names_are_unescaped()
    ensures { NamesAreUnescaped }
{}

/// The code points that a name or the inside of a string says are those that the reader gives.
pub fn names_are_decoded()
    ensures { NamesAreDecoded }
{}
