//! What it means that nothing is found in two sheets, as functions that do nothing.

ghost use Rattle.same_laws.specs.Same.{SamePartsKeep, SameSheetsHaveOneScene, SameSheetsWinAlike};

use opened_laws::{bodies_count_by_winners, same_texts_are_opened_alike, scenes_give_meanings};
use order_laws::{
    keeping_is_mutual, keeping_keeps_winners, listed_stands_last, order_is_decided,
    weighing_is_decided,
};
use overlap::apart_selectors_do_not_meet;

/// Two sheets in which nothing is found, where no block of media is opened, keep each other.
pub fn same_parts_keep()
    ensures { SamePartsKeep }
{
    listed_stands_last();
    order_is_decided();
    weighing_is_decided();
    apart_selectors_do_not_meet();
}

/// Two sheets that compare as the same have the same scenes, and in each scene the same winners in every legal document
/// (CSS Cascading 3, section 6). It holds for every target and of all understood declarations that compete.
pub fn same_sheets_win_alike()
    ensures scenes { SameSheetsHaveOneScene }
    ensures winners { SameSheetsWinAlike }
{
    same_texts_are_opened_alike();
    same_parts_keep();
    listed_stands_last();
    order_is_decided();
    weighing_is_decided();
    apart_selectors_do_not_meet();
    keeping_is_mutual();
    keeping_keeps_winners();
    scenes_give_meanings();
    bodies_count_by_winners();
}
