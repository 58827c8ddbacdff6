//! The two forms of matching agree (Selectors 3), as functions that do nothing.

ghost use Rattle.cascade_laws.specs.Matching.{PassingIsDecided, MatchingIsDecided};

/// The words of Selectors 3, section 6.3, and the test of an attribute's value agree.
pub fn passing_is_decided()
    ensures { PassingIsDecided }
{}

/// The words of Selectors 3, sections 4 to 8, and the test `matches` agree for every document,
/// target and selector.
pub fn matching_is_decided()
    ensures { MatchingIsDecided }
{}
