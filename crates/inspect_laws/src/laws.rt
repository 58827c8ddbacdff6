//! Which entry wins, as functions that do nothing.

ghost use Rattle.inspect_laws.specs.Laws.{FirstWins, LostNeverWins, RanksDiffer, RivalsAreInOneGroup, WinsUnderItsHead, WinsWhereNoneHolds};

use cascade_laws::{greatest_is_winner, no_winner_is_none_understood, sheet_means_its_winner};

/// No two entries of a sheet have one rank. So the order of the cascade is one list.
pub fn ranks_differ()
    ensures { RanksDiffer }
{}

/// The winner of a property is the first entry of its group that competes for it, in each scene in which blocks with one
/// head hold together (CSS Cascading 3, section 6).
pub fn first_wins()
    ensures { FirstWins }
{
    greatest_is_winner();
    no_winner_is_none_understood();
    sheet_means_its_winner();
}

/// An entry that is told to win is the winner of its property where no head holds. One that is told to win under a head
/// is the winner where this head alone holds.
pub fn told_winners_win()
    ensures outside { WinsWhereNoneHolds }
    ensures inside { WinsUnderItsHead }
{
    first_wins();
}

/// An entry that is told to have lost is the winner in no scene.
pub fn lost_never_wins()
    ensures { LostNeverWins }
{}

/// All entries that compete for a property are in the group of its family.
pub fn rivals_are_in_one_group()
    ensures { RivalsAreInOneGroup }
{}
