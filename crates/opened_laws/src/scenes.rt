//! What opened blocks mean for the cascade, as functions that do nothing.

ghost use Rattle.opened_laws.specs.Media.Scenes.{BodiesCountByWinners, MergedSheetsWinAlike, ScenesGiveMeanings};

use cascade_laws::{meanings_count_by_winners, sheet_means_its_winner};

/// In a scene the kept items of a sheet apply what they may.
pub fn scenes_give_meanings()
    ensures { ScenesGiveMeanings }
{}

/// Where the bodies of opened blocks are replaced by sheets with the same winners in a scene, the winner of the sheet
/// around them stays. It also stays where that sheet too is replaced by one with the same winner.
pub fn bodies_count_by_winners()
    ensures bodies { BodiesCountByWinners }
    ensures sheets { MergedSheetsWinAlike }
{
    meanings_count_by_winners();
    sheet_means_its_winner();
}
