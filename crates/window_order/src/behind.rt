//! Whether a pair is after a window, for callers that look at no other pair.

ghost use Rattle.std.specs.Prelude.{◌≡◌};
ghost use Rattle.window_order.specs.Reversed as reversed;
ghost use Rattle.window_order.specs.Standing as standing;

use crate::pair::PairRef;
use crate::window::Window;

impl<'a> Window<'a> {
    /// Whether a pair is after the window.
    pub fn is_behind(&self, p: &PairRef<'_>) -> bool
        ensures { result ≡ standing.stands (reversed.behind_of self.now) p.now }
    {
        self.stands_behind(p)
    }
}
