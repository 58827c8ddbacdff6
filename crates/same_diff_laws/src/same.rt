//! What `same` calls the same, `diff` calls the same, as functions that do nothing.

ghost use Rattle.same_diff_laws.specs.Same.{SameSheetsDifferInNothing};

use opened_laws::same_texts_are_opened_alike;
use order_laws::{listed_stands_last, order_is_decided, weighing_is_decided};
use overlap::apart_selectors_do_not_meet;

/// Between two sheets that compare as the same nothing is found where they are laid flat.
///
/// Neither lacks a member of the other, none is changed, and each couple of members that weighs and comes in another order is of two
/// pairs that are answered to be apart. All these answers are held already. So `diff` calls the same whatever `same` does.
pub fn same_sheets_differ_in_nothing()
    ensures { SameSheetsDifferInNothing }
{
    same_texts_are_opened_alike();
    listed_stands_last();
    order_is_decided();
    weighing_is_decided();
    apart_selectors_do_not_meet();
}
