//! Where tokens end and what they are read back as, as functions that do nothing.

ghost use Rattle.token_laws.specs.Alike.{PartsEndAlike, RowsEndAlike};
ghost use Rattle.token_laws.specs.Solids.{KeptAgain, KeptIsShort, KeptReadsBack, SolidsAreLexemes, ValueReadsBack};
ghost use Rattle.token_laws.specs.SpaceBehind.{LastCloses, SelfEndedAreShut, SpaceCloses, SpaceEnds};

/// A white space after a token is no part of it, unless the token ends in an open escape. Such a token takes the white
/// space, and is open no more. A token that ends itself is not open. Nor is one whose last byte is neither a hex digit
/// nor a backslash.
pub fn space_behind()
    ensures ends { SpaceEnds }
    ensures closes { SpaceCloses }
    ensures kinds { SelfEndedAreShut }
    ensures last { LastCloses }
{}

/// A token or a comment that ends before one rest of a text ends before another one too, if in that one nothing begins
/// that it could go on with, and that did not begin in the first. `Alike` says so for names, numbers and white space,
/// which end where no more of them follows. `LooksAlike` says so for the single tokens that look at what comes next, as
/// `<` for `!--`. All others end themselves, whatever follows. A row of parts is then read before other parts as it is
/// by itself, if its last one ends alike.
pub fn parts_end_alike()
    ensures part { PartsEndAlike }
    ensures row { RowsEndAlike }
{}

/// The tokens of a source that are no white space, with their bytes and with what comes after them, are those of its
/// parts.
pub fn solids_are_lexemes()
    ensures { SolidsAreLexemes }
{}

/// The kept text of tokens that follow one another in a text, and the text of a value, are read back as the same
/// tokens, where the last one is no function. An open token before white space has a white space of its own there. It
/// holds also before a sign, and after a sign before any token. Neither is longer than the text, and kept again each is
/// the same.
pub fn kept_text_is_read_back()
    ensures kept { KeptReadsBack }
    ensures value { ValueReadsBack }
    ensures short { KeptIsShort }
    ensures again { KeptAgain }
{}
