//! What follows from the lines, as functions that do nothing.

ghost use Rattle.lint_text.specs.Laws.{DeadAreTold, ToldDeadMatchNothing, ToldMayGo};

use dead_sel::{dead_match_nothing, others_are_undecided};
use lint_laws::cleaning_bodies_keeps_winners;
use media_groups::opened_blocks_are_sheets;
use print_laws::selectors_are_in_the_profile;
use sheet_laws::read_is_sound;

/// A selector that is told to be dead matches nothing in any legal document.
pub fn told_dead_match_nothing()
    ensures { ToldDeadMatchNothing }
{
    dead_match_nothing();
}

/// Each selector of a rule that matches nothing is told to be dead, unless it was not decided.
pub fn dead_are_told()
    ensures { DeadAreTold }
{
    others_are_undecided();
    read_is_sound();
    selectors_are_in_the_profile();
    opened_blocks_are_sheets();
}

/// The sheet without all that is told has the same winners. It holds in every legal document, for every target, in each
/// scene and whatever is understood (CSS Cascading 3, section 6).
pub fn told_may_go()
    ensures { ToldMayGo }
{
    dead_match_nothing();
    cleaning_bodies_keeps_winners();
}
