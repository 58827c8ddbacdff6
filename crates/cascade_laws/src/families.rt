//! The two forms of relating names agree, as a function that does nothing.

ghost use Rattle.cascade_laws.specs.Families.{RelatingIsDecided};

/// Names are related, in the words of their families, exactly where the test `related` says so.
pub fn relating_is_decided()
    ensures { RelatingIsDecided }
{}
