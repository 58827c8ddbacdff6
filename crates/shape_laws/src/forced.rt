//! Compounds that have to hold of one element.

ghost use Rattle.shape_laws.specs.Forced.{ForcedCompoundsSuit};

/// If two selectors meet, some legal element passes each two of their compounds that have to hold of one element.
pub fn forced_compounds_suit()
    ensures { ForcedCompoundsSuit }
{}
