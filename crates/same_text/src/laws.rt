//! What follows from what is found, as functions that do nothing.

ghost use Rattle.same_text.specs.Laws.{ReversedPairsShowOrder, SameTextsWinAlike};

use cascade_laws::{matching_is_decided, understanding_is_decided};
use order_laws::{listed_stands_last, weighing_is_decided};

/// Two sheets for which `same` is printed have the same winners in every legal document, as `same_sheets_win_alike`
/// says.
pub fn same_texts_win_alike()
    ensures { SameTextsWinAlike }
{}

/// The example of two pairs that are found in another order shows that their order counts. For its marked element, in a
/// legal document, the later one of the two rules wins, whichever it is, if a browser understands both and no other rule
/// applies (CSS Cascading 3, section 6).
pub fn reversed_pairs_show_order()
    ensures { ReversedPairsShowOrder }
{
    listed_stands_last();
    weighing_is_decided();
    matching_is_decided();
    understanding_is_decided();
}
