//! What stays where dead selectors and repeated declarations go, as functions that do nothing.

ghost use Rattle.lint_laws.specs.Cleaned.{CleaningBodiesKeepsWinners, CleaningKeepsWinners};

use cascade_laws::{
    greatest_is_winner, matching_is_decided, meanings_count_by_winners,
    no_winner_is_none_understood, outranking_is_decided, sheet_means_its_winner,
    winner_is_greatest,
};
use opened_laws::bodies_count_by_winners;
use order_laws::listed_stands_last;

/// A sheet has the same winners without its repeated declarations, without selectors that match nothing in any legal
/// document, and without the rules that then have no declaration or no selector. It holds in every legal document, for
/// every target, whatever the kept items apply and whatever is understood (CSS Cascading 3, section 6).
pub fn cleaning_keeps_winners()
    ensures { CleaningKeepsWinners }
{
    listed_stands_last();
    matching_is_decided();
    sheet_means_its_winner();
    meanings_count_by_winners();
    winner_is_greatest();
    greatest_is_winner();
    no_winner_is_none_understood();
    outranking_is_decided();
}

/// A sheet without all that is told, in the bodies of its opened blocks of media too, has the winners of the whole sheet for every
/// element of every document and every target, in each scene.
pub fn cleaning_bodies_keeps_winners()
    ensures { CleaningBodiesKeepsWinners }
{
    cleaning_keeps_winners();
    bodies_count_by_winners();
}
