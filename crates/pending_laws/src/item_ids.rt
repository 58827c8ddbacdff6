//! Item ids, which tell items apart.

ghost use Rattle.pending_laws.specs.ItemIds.{ItemIdsTellItems, OldOwnersHaveCome, OwnersStay};

/// A step of items that an edit left has the same owner, at its new number.
pub fn owners_stay()
    ensures { OwnersStay }
{}

/// If the owner of a step after an edit was created before the edit, the step is of items that the edit left.
pub fn old_owners_have_come()
    ensures { OldOwnersHaveCome }
{}

/// If an item after an edit has the item id of an item before it, the edit left that item, and both are one.
pub fn item_ids_tell_items()
    ensures { ItemIdsTellItems }
{}
