//! The printed text of steps and offsets, as functions that do nothing.

ghost use Rattle.selector_text_laws.specs.Notation.Printed.{TextIsNotation, TextIsRead, TextIsShortest};
ghost use Rattle.selector_text_laws.specs.Notation.Tokens.{TextStands};

/// The printed form of a step and an offset is a notation of them (Selectors 3, section 6.6.5.2), and within the limits
/// it is read as them.
pub fn notation_text_reads_back()
    ensures notation { TextIsNotation }
    ensures read { TextIsRead }
{}

/// No notation of a step and an offset is shorter than their printed form.
pub fn notation_text_is_shortest()
    ensures { TextIsShortest }
{}

/// The tokens of the printed form of a step and an offset are idents, numbers and dimensions without escapes. They are
/// read before `)` as before any other sign but `(`.
pub fn notation_text_stands_before_signs()
    ensures { TextStands }
{}
