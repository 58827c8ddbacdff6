//! What is known of pairs of selectors, as functions that do nothing.

ghost use Rattle.overlap.specs.Laws.{ApartSelectorsDoNotMeet, ReasonsAreDefined};

/// Selectors that are held to be apart do not meet.
pub fn apart_selectors_do_not_meet()
    ensures { ApartSelectorsDoNotMeet }
{}

/// The numbers of the reasons are those of the definition.
pub fn reasons_are_defined()
    ensures { ReasonsAreDefined }
{}
