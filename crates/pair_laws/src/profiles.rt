//! Selectors of the profile, as functions that do nothing.

ghost use Rattle.pair_laws.specs.Profile.Fittable.{CompoundsAreFittable, PairsAreFittable, TablesAreFittable};
ghost use Rattle.pair_laws.specs.Profile.Limited.{ProfileKeepsTheLimits};
ghost use Rattle.pair_laws.specs.Profile.Named.{ProfileHasNames};

/// Each selector of the profile keeps to the limits of a selector that is read.
pub fn profile_keeps_the_limits()
    ensures { ProfileKeepsTheLimits }
{}

/// Features may be asked for of the compounds of selectors of the profile.
///
/// - They may be asked for of any compound of one.
/// - They may be asked for of any two compounds of two.
/// - They may be asked for of each group of compounds for which two have a table of features.
///
/// The texts of both are short. A code point from U+10000 on takes at least three bytes of a text, so some of these are
/// in no value.
pub fn profile_is_fittable()
    ensures one { CompoundsAreFittable }
    ensures two { PairsAreFittable }
    ensures table { TablesAreFittable }
{}

/// No test in a selector of the profile names a type or an attribute by an empty name.
pub fn profile_has_names()
    ensures { ProfileHasNames }
{}
