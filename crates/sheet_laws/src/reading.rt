//! What a source is read as, as functions that do nothing.

ghost use Rattle.sheet_laws.specs.Reading.{ReadIsSound};

/// What a source is read as is sound for it: each selector, declaration and kept item is one that the source has.
pub fn read_is_sound()
    ensures { ReadIsSound }
{}
