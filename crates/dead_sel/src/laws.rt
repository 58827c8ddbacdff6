//! What it means that a selector is dead by what is held, as functions that do nothing.

ghost use Rattle.dead_sel.specs.Laws.{DeadMatchNothing, OthersAreUndecided};

use overlap::apart_selectors_do_not_meet;
use pair_laws::profile_keeps_the_limits;

/// A selector that is dead by true answers matches no target of a legal document.
pub fn dead_match_nothing()
    ensures { DeadMatchNothing }
{
    apart_selectors_do_not_meet();
}

/// A selector of the profile that matches nothing, and that true answers do not call dead although it was asked for, was
/// not decided. No white space was left to separate a word with, or the budget was spent.
pub fn others_are_undecided()
    ensures { OthersAreUndecided }
{
    profile_keeps_the_limits();
}
