//! How pairs and kept items of a sheet compare.

ghost use Rattle.order_laws.specs.Comparing.{OrderIsDecided, WeighingIsDecided};

use cascade_laws::relating_is_decided;

/// Whether two pairs weigh, or a pair and a kept item, in words and by the test, agree.
pub fn weighing_is_decided()
    ensures { WeighingIsDecided }
{
    relating_is_decided();
}

/// The order of appearance (CSS Cascading 3, section 6) in words and by the test agree: which of two pairs comes last
/// before the other, and whether a pair comes last before a kept item.
pub fn order_is_decided()
    ensures { OrderIsDecided }
{}
