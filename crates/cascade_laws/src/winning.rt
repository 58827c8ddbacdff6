//! What applies, outranks and wins, in the words of CSS Cascading 3, as functions that do nothing.

ghost use Rattle.cascade_laws.specs.Winning.{AppliedIsWhatApplies, OutrankingIsDecided, UnderstandingIsDecided, WinnerIsGreatest, GreatestIsWinner, NoWinnerIsNoneUnderstood};

/// What is listed as applied is what the rules apply, in the words of CSS Cascading 3, section 5, and
/// what the kept items are said to apply.
pub fn applied_is_what_applies()
    ensures { AppliedIsWhatApplies }
{}

/// The order by ranks is that of CSS Cascading 3, section 6: importance, then specificity, then order
/// of appearance.
pub fn outranking_is_decided()
    ensures { OutrankingIsDecided }
{}

/// A declaration is understood where its name and value are in the list.
pub fn understanding_is_decided()
    ensures { UnderstandingIsDecided }
{}

/// The winner is an applied declaration that is understood, and none of these outranks it.
pub fn winner_is_greatest()
    ensures { WinnerIsGreatest }
{}

/// An applied declaration that is understood, and that none of these outranks, is the winner.
pub fn greatest_is_winner()
    ensures { GreatestIsWinner }
{}

/// There is no winner exactly where no applied declaration is understood.
pub fn no_winner_is_none_understood()
    ensures { NoWinnerIsNoneUnderstood }
{}
