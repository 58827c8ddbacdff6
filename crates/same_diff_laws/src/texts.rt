//! What `same` and `diff` write of the same two sheets, as functions that do nothing.

ghost use Rattle.same_diff_laws.specs.Texts.{SameTextsDifferInNothing};

use opened_laws::same_texts_are_opened_alike;
use order_laws::{listed_stands_last, order_is_decided, weighing_is_decided};
use overlap::apart_selectors_do_not_meet;

/// If `same` prints `same` for two sheets, `diff` prints `same` for them too, whatever its limit, unless its budget is spent for two
/// selectors that `same` found apart.
pub fn same_texts_differ_in_nothing()
    ensures { SameTextsDifferInNothing }
{
    same_texts_are_opened_alike();
    listed_stands_last();
    order_is_decided();
    weighing_is_decided();
    apart_selectors_do_not_meet();
}
