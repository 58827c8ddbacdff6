//! An index of the order of a sheet.

ghost use Rattle.std.specs.Prelude.{◌≡◌, ◌+◌, ◌<◌, ◌≤◌, ◌^◌, IfOk, Some, length, map, nat_le, nat_lt, slice_get, take, drop};
ghost use Rattle.std.specs.List.{AllByRecursion, flat_map, prefix_len};
ghost use Rattle.std.specs.List.Sorted.{IsNonDecreasingBy};
ghost use Rattle.css_model.specs.declared.sheet.Item as declared;
ghost use Rattle.css_model.specs.declared.sheet.Item.TheVariants as kinds;
ghost use Rattle.css_model.specs.Sheets.RuleParts.{RuleParts};
ghost use Rattle.item_masks.specs.Masks.{item_mask};
ghost use Rattle.order_index.specs.Afterwards.{after, edit_at};
ghost use Rattle.order_index.specs.Listed.{HasAllReversed, IsChange, IsListed, IsMoving};
ghost use Rattle.order_index.specs.Others.{AreAt};
ghost use Rattle.order_index.specs.Told.{IsAt, IsAtSome, IsFar, IsToldOf, reversed_by};
ghost use Rattle.order_index.specs.Walked.{IsMovedBy, first_source, last_source};
ghost use Rattle.order_laws.specs.Edits.{Edit, edited};
ghost use Rattle.order_laws.specs.Places.{last_pairs};
ghost use Rattle.order_laws.specs.Reversed as order;
ghost use Rattle.related_props.specs.Masks as families;
ghost use Rattle.sheet_order.specs.Allowing as allowing;
ghost use Rattle.sheet_order.specs.Narrow.{CanBePlanned};
ghost use Rattle.sheet_order.specs.Places.{entry_of};
ghost use Rattle.sheet_order.specs.Taking as taking;
ghost use Rattle.step_laws.specs.Steps.{HasStep, IsStep};

use crate::entries::entries;
use crate::marked::{Marked, MarkedKept, all_marked, list_kept};
use crate::moving::Moving;
use crate::places::{place_at, places_at};
use crate::step_window::{StepWindow, find_window};
use crate::walking::{with_kept, with_pair};
use css_model::{Item, Sheet};
use item_masks::{ItemMask, item_masks};
use order_laws::{
    keys_tell_apart, listed_ascends, listed_is_reversed, listed_stands_last, order_is_decided,
    weighing_is_decided,
};
use overlap::Pairs;
use plan_laws::{steps_have_windows, windows_tell_kept, windows_tell_pairs};
use selector_laws::read_selectors_keep_the_limits;
use sheet_order::{
    Allowed, Moved, Reversal, Reversed, ascending, last_pairs, moved_of, moved_pairs, narrow_all,
};
use std::alloc::{AllocError, Global};
use std::marker::Model;
use step_laws::{Step, parts_are_few};

/// The pairs from the first one on that is in the item of this number or after it.
fn from_item<'i, 'a>(pairs: &'i [Marked<'a>], item: usize) -> &'i [Marked<'a>]
    requires { IsNonDecreasingBy (λ q. q.place.item) pairs.now }
    ensures { result.now ≡ drop (prefix_len (λ q. nat_lt q.place.item item) pairs.now) pairs.now }
{
    let n = pairs.partition_point(
        |q: &Marked<'_>| -> bool
            ensures { result ≡ nat_lt q.now.place.item item }
        { q.pair.item < item },
    );
    &pairs[n..]
}

/// The first pairs, up to the last one that is in the item of this number or above it.
fn up_to_item<'i, 'a>(pairs: &'i [Marked<'a>], item: usize) -> &'i [Marked<'a>]
    requires { IsNonDecreasingBy (λ q. q.place.item) pairs.now }
    ensures { result.now ≡ take (prefix_len (λ q. nat_le q.place.item item) pairs.now) pairs.now }
{
    let n = pairs.partition_point(
        |q: &Marked<'_>| -> bool
            ensures { result ≡ nat_le q.now.place.item item }
        { q.pair.item <= item },
    );
    &pairs[..n]
}

/// The items that a step moves pairs out of, the upper one first. It is one item twice, if a rule is moved.
fn sources_of(step: &Step) -> (usize, usize)
    ensures { result ≡ (first_source step.now, last_source step.now) }
{
    match moved_of(step) {
        Moved::Rule(item) => (item as usize, item as usize),
        Moved::Common { upper, lower } => (upper as usize, lower as usize),
    }
}

/// An index of a sheet: its pairs, each at its last place, and its kept items, with the masks of what they may weigh
/// with, and those of its items. Contracts see it as the items of the sheet.
#[derive(Drop)]
pub struct Index<'a> {
    sheet: &'a Sheet,
    pairs: Vec<Marked<'a>>,
    kept: Vec<MarkedKept<'a>>,
    masks: Vec<ItemMask>,
    ghost listed: { pairs.items ≡ last_pairs sheet.now.items },
    ghost kept_listed: { kept.items ≡ order.kept_from 0 sheet.now.items },
    ghost masked: { masks.items ≡ map item_mask sheet.now.items },
}

impl<'a> Model for Index<'a> {
    ghost use Rattle.std.specs.Prelude.{List};
    ghost use Rattle.css_model.specs.declared.sheet.Item as declared;

    ghost Value = { List declared.Item };

    ghost view = { λ index. index.sheet.now.items };
}

impl<'a> Index<'a> {
    /// Returns the index of a sheet. `Err(AllocError)` if memory is short.
    pub fn new(alloc: Global, sheet: &'a Sheet) -> Result<Index<'a>, AllocError>
        ensures { IfOk result (λ index. index ≡ sheet.now.items) }
    {
        let items = sheet.items.as_slice();
        let masks = item_masks(alloc, items)?;
        let last = last_pairs(alloc, None, items)?;
        let pairs = all_marked(alloc, &last)?;
        let kept = list_kept(alloc, items)?;
        Ok(Index {
            sheet,
            pairs,
            kept,
            masks,
        })
    }

    /// The pairs that are last in the window of a step.
    #[tactic(auto, using(crate::proofs::Rising::pairs_rise))]
    fn around(&self, change: &StepWindow<'_>) -> &[Marked<'a>]
        requires change { IsChange change.now.window change.now.step }
        requires items { change.now.window.items.now ≡ self.now }
        requires planned { CanBePlanned self.now }
        ensures listed { AllByRecursion (IsListed self.now) result.now }
        ensures all { HasAllReversed self.now change.now.step result.now }
    {
        listed_stands_last();
        read_selectors_keep_the_limits();
        weighing_is_decided();
        order_is_decided();
        steps_have_windows();
        windows_tell_pairs();
        let rest = from_item(&self.pairs, change.window.start);
        up_to_item(rest, change.window.last)
    }

    /// The pairs that a step moves, each at its last place in what it is moved out of.
    fn moved(&self, alloc: Global, step: &Step) -> Result<Vec<Marked<'a>>, AllocError>
        ensures { IfOk result (λ list. list.items ≡ order.moved_pairs self.now (taking.moved_in self.now (taking.moved_of step.now))) }
    {
        let sheet = self.sheet;
        let list = moved_pairs(alloc, &sheet.items, &moved_of(step))?;
        all_marked(alloc, &list)
    }

    /// What a step reverses with these pairs, pair by pair.
    fn found(
        &self,
        alloc: Global,
        step: &Step,
        moved: &[Marked<'a>],
    ) -> Result<Vec<Reversal<'a>>, AllocError>
        requires is_step { HasStep self.now step.now }
        requires planned { CanBePlanned self.now }
        requires moving { AllByRecursion (IsMoving self.now step.now) moved.now }
        ensures { IfOk result (λ found. found.items ≡ flat_map (order.reversed_with self.now (after self.now step.now)) moved.now) }
    {
        let sheet = self.sheet;
        let change = find_window(sheet, &self.masks, step);
        entries(alloc, &change, moved, self.around(&change), &self.kept)
    }

    /// What a step reverses, in its order.
    fn reversals(&self, alloc: Global, step: &Step) -> Result<Vec<Reversal<'a>>, AllocError>
        requires is_step { HasStep self.now step.now }
        requires planned { CanBePlanned self.now }
        ensures { IfOk result (λ found. found.items ≡ order.reversed self.now (after self.now step.now) (edit_at self.now step.now).moved) }
    {
        listed_stands_last();
        read_selectors_keep_the_limits();
        let moved = self.moved(alloc, step)?;
        let found = self.found(alloc, step, &moved)?;
        ascending(alloc, found)
    }

    /// What a step of the sheet reverses, as `reversed` of `sheet_order` finds it for the sheet after the step. It
    /// looks only at the pairs that are last in the items from the step's first to its last one; for a cut, from the
    /// first item of the sheet on. `AllocError` where memory runs out.
    pub fn reversed(&self, alloc: Global, step: &Step) -> Result<Vec<Reversed>, AllocError>
        requires is_step { HasStep self.now step.now }
        requires planned { CanBePlanned self.now }
        ensures { IfOk result (λ list. (e : Edit) → IsStep self.now step.now e → list.items ≡ map entry_of (order.reversed self.now (edited e self.now) e.moved)) }
    {
        parts_are_few();
        listed_is_reversed();
        let found = self.reversals(alloc, step)?;
        narrow_all(alloc, &found)
    }

    /// The pairs that are last in the rule of this number.
    #[tactic(auto, using(crate::proofs::Rising::pairs_rise))]
    fn pairs_at(&self, number: usize) -> &[Marked<'a>]
        requires rule { (r : RuleParts) × (slice_get self.now number ≡ Some (kinds.Rule r)) }
        ensures { AreAt self.now number result.now }
    {
        let rest = from_item(&self.pairs, number);
        up_to_item(rest, number)
    }

    /// Whether the moved pairs that are so far from the rule of this number may pass its pairs that are last there.
    #[tactic(auto, using(sheet_order::proofs::ForCallers::stays_itself))]
    fn at_rule(
        &self,
        pairs: &mut Pairs,
        change: &StepWindow<'_>,
        moving: &mut Moving<'a>,
        far: usize,
        number: usize,
    ) -> Result<Allowed, AllocError>
        requires change { IsChange change.now.window change.now.step }
        requires items { change.now.window.items.now ≡ self.now }
        requires planned { CanBePlanned change.now.window.items.now }
        requires moved { IsMovedBy change.now.window change.now.step moving.old }
        requires rule { (r : RuleParts) × (slice_get change.now.window.items.now number ≡ Some (kinds.Rule r)) }
        ensures stays { allowing.Stays pairs.old pairs.new }
        ensures told { IfOk result (λ allowed. IsToldOf pairs.new.answers (reversed_by change.now.window.items.now change.now.step) (IsAt number far) allowed) }
        ensures moved { IsMovedBy change.now.window change.now.step moving.new }
    {
        listed_is_reversed();
        listed_stands_last();
        weighing_is_decided();
        order_is_decided();
        let others = self.pairs_at(number);
        for q in others {
            let allowed = with_pair(pairs, change, moving, far, q)?;
            if let Allowed::Blocked(cause) = allowed {
                return Ok(Allowed::Blocked(cause));
            }
        }
        Ok(Allowed::Free)
    }

    /// The item of this number.
    fn item_at(&self, number: usize) -> &'a Item
        requires { number < length self.now }
        ensures { slice_get self.now number ≡ Some result.now }
    {
        let sheet = self.sheet;
        &sheet.items[number]
    }

    /// The bits of the families of the item of this number.
    #[tactic(auto, using(crate::proofs::Masked::mask_at))]
    fn mask_at(&self, number: usize) -> u64
        requires { number < length self.now }
        ensures { (item : declared.Item) → slice_get self.now number ≡ Some item → result ≡ families.item_mask item }
    {
        self.masks[number].families
    }

    /// Whether the moved pairs that are so far from the item of this number, in the window of a step, may pass it. It is
    /// passed over where its mask has no bit of theirs.
    #[tactic(auto, using(sheet_order::proofs::ForCallers::stays_itself))]
    fn at_item(
        &self,
        pairs: &mut Pairs,
        change: &StepWindow<'_>,
        moving: &mut Moving<'a>,
        far: usize,
        number: usize,
    ) -> Result<Allowed, AllocError>
        requires change { IsChange change.now.window change.now.step }
        requires items { change.now.window.items.now ≡ self.now }
        requires planned { CanBePlanned change.now.window.items.now }
        requires moved { IsMovedBy change.now.window change.now.step moving.old }
        requires there { number < length self.now }
        requires above { change.now.window.start ≤ number }
        requires below { number ≤ change.now.window.last }
        ensures stays { allowing.Stays pairs.old pairs.new }
        ensures told { IfOk result (λ allowed. IsToldOf pairs.new.answers (reversed_by change.now.window.items.now change.now.step) (IsAt number far) allowed) }
        ensures moved { IsMovedBy change.now.window change.now.step moving.new }
    {
        listed_is_reversed();
        listed_stands_last();
        let item = self.item_at(number);
        let mask = self.mask_at(number);
        if moving.mask & mask == 0 {
            return Ok(Allowed::Free);
        }
        match item {
            Item::Rule(_) => self.at_rule(pairs, change, moving, far, number),
            Item::KeptRule(_) | Item::KeptBlock(_) => {
                let kept = MarkedKept { number, item, mask };
                Ok(with_kept(change, moving, far, &kept))
            }
        }
    }

    /// Whether the moved pairs that are so far from the item of this number may pass it. What is not in the window of
    /// the step is passed.
    #[tactic(auto, using(sheet_order::proofs::ForCallers::stays_itself))]
    fn at_number(
        &self,
        pairs: &mut Pairs,
        change: &StepWindow<'_>,
        moving: &mut Moving<'a>,
        far: usize,
        number: usize,
    ) -> Result<Allowed, AllocError>
        requires change { IsChange change.now.window change.now.step }
        requires items { change.now.window.items.now ≡ self.now }
        requires planned { CanBePlanned change.now.window.items.now }
        requires moved { IsMovedBy change.now.window change.now.step moving.old }
        ensures stays { allowing.Stays pairs.old pairs.new }
        ensures told { IfOk result (λ allowed. IsToldOf pairs.new.answers (reversed_by change.now.window.items.now change.now.step) (IsAt number far) allowed) }
        ensures moved { IsMovedBy change.now.window change.now.step moving.new }
    {
        listed_is_reversed();
        listed_stands_last();
        weighing_is_decided();
        order_is_decided();
        steps_have_windows();
        windows_tell_pairs();
        windows_tell_kept();
        if number < change.window.start {
            return Ok(Allowed::Free);
        }
        if change.window.last < number {
            return Ok(Allowed::Free);
        }
        self.at_item(pairs, change, moving, far, number)
    }

    /// Whether the moved pairs that are so far from a place may pass its item, if there is one.
    #[tactic(auto, using(sheet_order::proofs::ForCallers::stays_itself))]
    fn at_place(
        &self,
        pairs: &mut Pairs,
        change: &StepWindow<'_>,
        moving: &mut Moving<'a>,
        far: usize,
        place: Option<usize>,
    ) -> Result<Allowed, AllocError>
        requires change { IsChange change.now.window change.now.step }
        requires items { change.now.window.items.now ≡ self.now }
        requires planned { CanBePlanned change.now.window.items.now }
        requires moved { IsMovedBy change.now.window change.now.step moving.old }
        ensures stays { allowing.Stays pairs.old pairs.new }
        ensures told { IfOk result (λ allowed. IsToldOf pairs.new.answers (reversed_by change.now.window.items.now change.now.step) (IsAtSome place far) allowed) }
        ensures moved { IsMovedBy change.now.window change.now.step moving.new }
    {
        match place {
            Some(number) => self.at_number(pairs, change, moving, far, number),
            None => Ok(Allowed::Free),
        }
    }

    /// Whether the moved pairs may pass all that is so far from them. They are moved out of the items of these numbers.
    #[tactic(auto, using(sheet_order::proofs::ForCallers::stays_itself))]
    fn at_distance(
        &self,
        pairs: &mut Pairs,
        change: &StepWindow<'_>,
        moving: &mut Moving<'a>,
        far: usize,
        upper: usize,
        lower: usize,
    ) -> Result<Allowed, AllocError>
        requires change { IsChange change.now.window change.now.step }
        requires items { change.now.window.items.now ≡ self.now }
        requires planned { CanBePlanned change.now.window.items.now }
        requires moved { IsMovedBy change.now.window change.now.step moving.old }
        requires upper { upper ≡ first_source change.now.step }
        requires lower { lower ≡ last_source change.now.step }
        requires order { upper ≤ lower }
        requires fits { lower + far < 2 ^ 64 }
        requires twice { far + far < 2 ^ 64 }
        ensures stays { allowing.Stays pairs.old pairs.new }
        ensures told { IfOk result (λ allowed. IsToldOf pairs.new.answers (reversed_by change.now.window.items.now change.now.step) (IsFar far) allowed) }
        ensures moved { IsMovedBy change.now.window change.now.step moving.new }
    {
        listed_is_reversed();
        listed_stands_last();
        let places = places_at(far, upper, lower);
        for turn in 0..4 {
            let place = place_at(places, turn);
            let allowed = self.at_place(pairs, change, moving, far, place)?;
            if let Allowed::Blocked(cause) = allowed {
                return Ok(Allowed::Blocked(cause));
            }
        }
        Ok(Allowed::Free)
    }

    /// Whether the moved pairs may pass all that the step reverses with them, from the nearest on.
    #[tactic(auto, using(sheet_order::proofs::ForCallers::stays_itself))]
    fn outward(
        &self,
        pairs: &mut Pairs,
        change: &StepWindow<'_>,
        moving: &mut Moving<'a>,
        upper: usize,
        lower: usize,
    ) -> Result<Allowed, AllocError>
        requires change { IsChange change.now.window change.now.step }
        requires items { change.now.window.items.now ≡ self.now }
        requires planned { CanBePlanned change.now.window.items.now }
        requires moved { IsMovedBy change.now.window change.now.step moving.old }
        requires upper { upper ≡ first_source change.now.step }
        requires lower { lower ≡ last_source change.now.step }
        ensures stays { allowing.Stays pairs.old pairs.new }
        ensures told { IfOk result (λ allowed. allowing.IsAllowed pairs.new.answers (reversed_by change.now.window.items.now change.now.step) allowed) }
    {
        listed_is_reversed();
        listed_stands_last();
        listed_ascends();
        keys_tell_apart();
        weighing_is_decided();
        order_is_decided();
        steps_have_windows();
        windows_tell_pairs();
        windows_tell_kept();
        let count = change.window.last - change.window.start + 1;
        for far in 0..count {
            let allowed = self.at_distance(pairs, change, moving, far, upper, lower)?;
            if let Allowed::Blocked(cause) = allowed {
                return Ok(Allowed::Blocked(cause));
            }
        }
        Ok(Allowed::Free)
    }

    /// Whether a step of the sheet may be taken, by what is answered for pairs of selectors. It asks for the answers
    /// that it has to know, from the nearest entry on, up to the first that blocks; the moved pair's selector comes
    /// first. All answers that were held stay. `AllocError` where memory runs out; they stay then too. It looks only at
    /// the items up to the first that blocks.
    #[tactic(auto, using(sheet_order::proofs::ForCallers::stays_itself))]
    pub fn permitted(
        &self,
        alloc: Global,
        pairs: &mut Pairs,
        step: &Step,
    ) -> Result<Allowed, AllocError>
        requires is_step { HasStep self.now step.now }
        requires planned { CanBePlanned self.now }
        ensures allowed { IfOk result (λ allowed. (e : Edit) → IsStep self.now step.now e →
            allowing.IsAllowed pairs.new.answers (order.reversed self.now (edited e self.now) e.moved) allowed) }
        ensures stays { allowing.Stays pairs.old pairs.new }
    {
        listed_stands_last();
        read_selectors_keep_the_limits();
        let list = self.moved(alloc, step)?;
        let mut moving = Moving::new(alloc, list)?;
        let sheet = self.sheet;
        let change = find_window(sheet, &self.masks, step);
        let (upper, lower) = sources_of(step);
        self.outward(pairs, &change, &mut moving, upper, lower)
    }
}
