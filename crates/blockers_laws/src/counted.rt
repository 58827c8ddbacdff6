//! How many steps are stopped.

ghost use Rattle.blockers_laws.specs.Counted.{EachBlockedStepIsCounted};

/// The first line of `blockers` counts as many steps as are listed as blocked in the planned levels, each with what
/// blocks it. These lists have the steps that would still save bytes, by whatever answers they were made.
pub fn each_blocked_step_is_counted()
    ensures { EachBlockedStepIsCounted }
{}
