//! Cuts of parts that their rule has again, as a function that does nothing.

ghost use Rattle.repeat_laws.specs.Repeats.{RepeatsAreFree};

/// A cut of a declaration that its rule has again after it, or of a selector that its rule has again, reverses nothing. So it
/// is free by all answers, also by none.
pub fn repeats_are_free()
    ensures { RepeatsAreFree }
{}
