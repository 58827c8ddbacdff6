//! Remainders of one number, and of numbers so far from it.

ghost use Rattle.remainders.specs.Leaving.{JointRestsAreLeft, MovingKeepsRemainders};

/// A number that leaves some remainders leaves their joint one, where their joint step is not too great. So where
/// they have none, no number leaves them all.
pub fn joint_rests_are_left()
    ensures { JointRestsAreLeft }
{}

/// Where a number leaves a remainder, one so far from it leaves the moved remainder.
pub fn moving_keeps_remainders()
    ensures { MovingKeepsRemainders }
{}
