//! What follows from what is found of a move, as functions that do nothing.

ghost use Rattle.why_text.specs.Laws.{BlockedMovesShowOrder, FreeMovesKeep};

use cascade_laws::{matching_is_decided, understanding_is_decided};
use order_laws::{each_sheet_keeps_itself, listed_is_reversed, moving_apart_keeps};
use overlap::apart_selectors_do_not_meet;

/// A move that is found to be free keeps the sheet; by `keeping_keeps_winners` it then changes no winner in any legal
/// document.
pub fn free_moves_keep()
    ensures { FreeMovesKeep }
{
    apart_selectors_do_not_meet();
    each_sheet_keeps_itself();
    listed_is_reversed();
    moving_apart_keeps();
}

/// The example of a move that is found to be blocked shows that the order of the two pairs counts. For its marked
/// element, in a legal document, the later one of the two rules wins, whichever it is, if a browser understands both and no
/// other rule applies (CSS Cascading 3, section 6).
pub fn blocked_moves_show_order()
    ensures { BlockedMovesShowOrder }
{
    listed_is_reversed();
    matching_is_decided();
    understanding_is_decided();
}
