//! What climbing over the lines of a document finds, as functions that do nothing.

ghost use Rattle.cascade_laws.specs.Eval.Climbing.{MatchingIsClimbing};
ghost use Rattle.cascade_laws.specs.Eval.Repeating.{RepeatingChangesNothing};

/// A selector matches the marked element of a document in lines exactly where climbing over its lines finds that.
pub fn matching_is_climbing()
    ensures { MatchingIsClimbing }
{}

/// More equal elements side by side change nothing, where so many leave all that is known as it was, and what the
/// selector's compounds ask repeats after so many.
pub fn repeating_changes_nothing()
    ensures { RepeatingChangesNothing }
{}
