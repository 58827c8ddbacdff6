//! What it means that couples are told, as functions that do nothing.

ghost use Rattle.diff_laws.specs.Told.{SomeOfEachItemIsTold, ToldNothingIsApart};

/// Where no couple of members that come in another order is told, and at least one may be, each is of two pairs whose selectors are
/// answered to be apart.
pub fn told_nothing_is_apart()
    ensures { ToldNothingIsApart }
{}

/// Where fewer couples are told than may be, each one in which something is found is told, or one of the same two items of the
/// first sheet or with the same kept item is.
pub fn some_of_each_item_is_told()
    ensures { SomeOfEachItemIsTold }
{}
