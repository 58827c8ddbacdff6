//! The laws of fitting, as functions that do nothing.

ghost use Rattle.compound_fit.specs.Laws.{EnoughLeft, PartsApart};

/// An element passes compounds exactly where its type, its flags and its attributes do, each for itself.
pub fn parts_are_apart()
    ensures { PartsApart }
{}

/// Where the values of tests have few code points from U+10000 on, some code point is in none of them.
pub fn enough_code_points_are_left()
    ensures { EnoughLeft }
{}
