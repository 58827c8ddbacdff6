//! What a kept item means counts by its winner alone, as functions that do nothing.

ghost use Rattle.cascade_laws.specs.Meaning.Meanings.{MeaningsCountByWinners, SheetMeansItsWinner};

use crate::order_decides_winner;

/// Where the lists of kept items are replaced by others with the same winner, the winner of the sheet stays.
pub fn meanings_count_by_winners()
    ensures { MeaningsCountByWinners }
{
    order_decides_winner();
}

/// Where a kept item means what a sheet applies, its winner is the winner of that sheet.
pub fn sheet_means_its_winner()
    ensures { SheetMeansItsWinner }
{
    order_decides_winner();
}
