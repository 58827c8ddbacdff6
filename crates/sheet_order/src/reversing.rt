//! What is reversed from one sheet to another.

ghost use Rattle.std.specs.Prelude.{◌≡◌, IfOk, map};
ghost use Rattle.std.specs.List.{AllByRecursion};
ghost use Rattle.order_laws.specs.Reversed as order;
ghost use Rattle.sheet_order.specs.Narrow.{CanBePlanned, HasLimits, IsNarrow, IsNarrowOther, IsNarrowPlace};
ghost use Rattle.sheet_order.specs.Others.{other_seen};
ghost use Rattle.sheet_order.specs.Places.{entry_of, other_of, place_of};
ghost use Rattle.sheet_order.specs.Taking.{moved_in};

use crate::comparing::Ordered;
use crate::entries::{Counterpart, Reversal, entries};
use crate::pairs::{Placed, last_pairs};
use crate::places::{Moved, Other, PairPlace, Reversed};
use crate::sorting::ascending;
use crate::taking::moved_pairs;
use css_model::{Item, Sheet};
use order_laws::{listed_is_reversed, listed_stands_last};
use selector_laws::read_selectors_keep_the_limits;
use std::alloc::{AllocError, Global};
use step_laws::parts_are_few;

/// The items of a sheet with its last pairs. `AllocError` where memory runs out.
pub fn ordered<'a>(alloc: Global, items: &'a [Item]) -> Result<Ordered<'a>, AllocError>
    ensures { IfOk result (λ sheet. sheet.items.now ≡ items.now) }
{
    let pairs = last_pairs(alloc, None, items)?;
    Ok(Ordered { items, pairs })
}

/// What is reversed from one list of items to another by moving some pairs, in its order.
#[tactic(auto, using(crate::proofs::Limited::last_limited, crate::proofs::Limited::moved_limited))]
pub(crate) fn reversals<'a>(
    alloc: Global,
    old: &'a [Item],
    new: &[Item],
    moved: &Moved,
) -> Result<Vec<Reversal<'a>>, AllocError>
    requires { AllByRecursion HasLimits old.now }
    ensures { IfOk result (λ found. found.items ≡ order.reversed old.now new.now (moved_in old.now moved.now)) }
{
    listed_stands_last();
    let before = ordered(alloc, old)?;
    let after = ordered(alloc, new)?;
    let pairs = moved_pairs(alloc, old, moved)?;
    let found = entries(alloc, &before, &after, &pairs)?;
    ascending(alloc, found)
}

/// The place of a pair, as numbers of 32 bits.
pub fn narrow_place(p: &Placed<'_>) -> PairPlace
    requires { IsNarrowPlace p.now.place }
    ensures { result ≡ place_of p.now.place }
{
    PairPlace {
        item: p.item as u32,
        sel: p.selector_number as u32,
        decl: p.decl_number as u32,
    }
}

/// The place of what is reversed with a pair, as numbers of 32 bits.
fn narrow_other(other: &Counterpart<'_>) -> Other
    requires { IsNarrowOther (other_seen other.now) }
    ensures { result ≡ other_of (other_seen other.now) }
{
    match other {
        Counterpart::Pair(q) => Other::Pair(narrow_place(q)),
        Counterpart::Kept(number) => Other::Kept(*number as u32),
    }
}

/// An entry by its places.
fn narrow(entry: &Reversal<'_>) -> Reversed
    requires { IsNarrow entry.now }
    ensures { result ≡ entry_of entry.now }
{
    let moved = narrow_place(&entry.moved);
    let other = narrow_other(&entry.other);
    Reversed { moved, other }
}

/// The entries by their places, in their order. `AllocError` where memory runs out.
pub fn narrow_all(alloc: Global, found: &[Reversal<'_>]) -> Result<Vec<Reversed>, AllocError>
    requires { AllByRecursion IsNarrow found.now }
    ensures { IfOk result (λ list. list.items ≡ map entry_of found.now) }
{
    let mut list = Vec::with_capacity(alloc, found.len())?;
    for entry in found {
        list.push(narrow(entry))?;
    }
    Ok(list)
}

/// What is reversed from one sheet to another by moving some of its pairs. It is each moved pair with each other pair
/// and each kept item that weighs with it and has another last order with it in the second sheet. `AllocError` where
/// memory runs out.
///
/// - The entries ascend: by how far the other's item is from the moved pair's, then by the other's place, then by the
///   moved pair's.
/// - A place is that of a pair's last occurrence, of a moved one's in what is moved. Of equal selectors of a rule it is
///   the first, of equal declarations the last.
/// - Whether selectors meet does not count.
/// - Each two pairs of the first sheet are looked at.
#[tactic(auto, using(crate::proofs::Limited::planned_limited, crate::proofs::NarrowEntries::all_narrow))]
pub fn reversed(
    alloc: Global,
    old: &Sheet,
    new: &Sheet,
    moved: &Moved,
) -> Result<Vec<Reversed>, AllocError>
    requires { CanBePlanned old.now.items }
    ensures { IfOk result (λ list. list.items ≡ map entry_of (order.reversed old.now.items new.now.items (moved_in old.now.items moved.now))) }
{
    read_selectors_keep_the_limits();
    parts_are_few();
    listed_is_reversed();
    let found = reversals(alloc, &old.items, &new.items, moved)?;
    narrow_all(alloc, &found)
}
