//! Where pairs are that no other rule has: their own item tells it, and no item is looked at.

ghost use Rattle.std.specs.Prelude.{◌≡◌, ◌∷◌, [], ◌≤◌, Some, slice_get, true};
ghost use Rattle.css_model.specs.declared.sheet.Item as declared;
ghost use Rattle.css_model.specs.Cascade.Order.{HasPair, Pair};
ghost use Rattle.indexed_sheet.specs.Facts.{HasOwnPairs};
ghost use Rattle.window_order.specs.Places.{IsStanding};

use crate::place::Standing;
use crate::window::Window;

impl<'a> Window<'a> {
    /// Returns `true` only if no other rule is known to have a pair of the item of this number.
    fn has_own_pairs(&self, number: u32) -> bool
        ensures { result ≡ true → HasOwnPairs self.now.items.now number }
    {
        match self.planned {
            Some(indexed) => indexed.facts(number).own_pairs,
            None => false,
        }
    }

    /// Where the pairs of the item of this number of the window are last, since no other item has one of them.
    fn own_standing(&self, number: usize) -> Standing
        requires own { HasOwnPairs self.now.items.now number }
        requires above { self.now.start ≤ number }
        requires below { number ≤ self.now.last }
        ensures { (item : declared.Item) → slice_get self.now.items.now number ≡ Some item → (p : Pair) → HasPair (item ∷ []) p → IsStanding self.now p result }
    {
        if self.middle <= number && number < self.last {
            Standing::Last(Some(number - self.middle))
        } else {
            Standing::Last(None)
        }
    }

    /// Returns where the pairs of the item of this number are last, if no other item is known to have one of them. Else it
    /// was not looked for.
    pub fn standing_of(&self, number: u32) -> Standing
        ensures { (item : declared.Item) → slice_get self.now.items.now number ≡ Some item → (p : Pair) → HasPair (item ∷ []) p → IsStanding self.now p result }
    {
        let at = number as usize;
        if self.start <= at && at <= self.last && self.has_own_pairs(number) {
            self.own_standing(at)
        } else {
            Standing::Unasked
        }
    }
}
