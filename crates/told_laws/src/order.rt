//! What the example of a couple shows, as functions that do nothing.

ghost use Rattle.told_laws.specs.Order.{ToldCouplesShowOrder};

use cascade_laws::{matching_is_decided, understanding_is_decided};
use order_laws::weighing_is_decided;

/// The example of a couple that is told shows that the order of its two pairs counts. For its marked element, in a legal document,
/// the later one of the two wins, whichever it is, if a browser understands both and nothing else applies (CSS Cascading 3,
/// section 6).
pub fn told_couples_show_order()
    ensures { ToldCouplesShowOrder }
{
    matching_is_decided();
    understanding_is_decided();
    weighing_is_decided();
}
