//! Why the steps that remain are blocked, each law as the contract of a function that does nothing.

ghost use Rattle.remaining_laws.specs.Remaining.{RemainingStepsAreBlocked};

/// Each step that would still save bytes in a merged sheet, or in the body of an opened block, is blocked.
///
/// It reverses a pair and a kept item, or two pairs of which an answer that is held says why they may not pass each
/// other: a legal document shows an element that the selectors of both match, or these are outside of what is decided,
/// or the budget was spent on them.
pub fn remaining_steps_are_blocked()
    ensures { RemainingStepsAreBlocked }
{}
