//! The pairs that a step moves, with what is known of where they are.

ghost use Rattle.std.specs.Prelude.{◌≡◌, IfOk, Some, slice_get};
ghost use Rattle.std.specs.List.{All};
ghost use Rattle.order_index.specs.Walked.{AreKnown, with_masks};
ghost use Rattle.order_laws.specs.Places.{PlacedPair};
ghost use Rattle.related_props.specs.Masks as families;
ghost use Rattle.window_order.specs.Places as places;
ghost use Rattle.window_order.specs.declared.window.Window as windows;

use crate::marked::Marked;
use std::alloc::{AllocError, Global};
use window_order::{KnownPair, unknown_pair};

/// The pairs that a step moves, each at its last place in what it is moved out of. What is known of where a pair is in
/// the step's window has the pair's number. The mask has the bits of the families of all.
#[derive(Drop)]
pub(crate) struct Moving<'a> {
    pub(crate) pairs: Vec<Marked<'a>>,
    pub(crate) known: Vec<KnownPair>,
    pub(crate) mask: u64,
}

/// Nothing known of so many pairs.
fn unknown_pairs(alloc: Global, count: usize) -> Result<Vec<KnownPair>, AllocError>
    ensures { IfOk result (λ list. All (λ k. k ≡ places.unknown) list.items) }
{
    let mut list = Vec::with_capacity(alloc, count)?;
    for _ in 0..count {
        list.push(unknown_pair())?;
    }
    Ok(list)
}

/// The bits of the families of a pair.
fn families_of(p: &Marked<'_>) -> u64
    ensures { result ≡ families.decl_mask p.now.pair.decl }
{
    p.mask.families
}

/// The bits of the families of some pairs.
#[tactic(auto, using(crate::proofs::MovedMasks::masks_next))]
fn mask_of_all(pairs: &[Marked<'_>]) -> u64
    ensures { result ≡ with_masks 0 pairs.now }
{
    let mut mask: u64 = 0;
    for p in pairs {
        mask |= families_of(p);
    }
    mask
}

impl<'a> Moving<'a> {
    /// These pairs. Nothing is known of them.
    #[tactic(auto, using(crate::proofs::Knowing::none_known))]
    pub(crate) fn new(alloc: Global, pairs: Vec<Marked<'a>>) -> Result<Moving<'a>, AllocError>
        ensures pairs { IfOk result (λ m. m.pairs.items ≡ pairs.entry.items) }
        ensures known { IfOk result (λ m. (w : windows.Window) → AreKnown w m.pairs.items m.known.items) }
        ensures mask { IfOk result (λ m. m.mask ≡ with_masks 0 m.pairs.items) }
    {
        let known = unknown_pairs(alloc, pairs.len())?;
        let mask = mask_of_all(&pairs);
        Ok(Moving { pairs, known, mask })
    }

    /// What is known of the pair of this number.
    pub(crate) fn known_of(&self, number: usize) -> KnownPair
        ensures { (w : windows.Window) (p : PlacedPair) → AreKnown w self.now.pairs.items self.now.known.items → slice_get self.now.pairs.items number ≡ Some p → places.IsKnownPair w p.pair result }
    {
        match self.known.get(number) {
            Some(known) => *known,
            None => unknown_pair(),
        }
    }

    /// Notes what is known of the pair of this number.
    #[tactic(auto, using(crate::proofs::Knowing::one_noted))]
    pub(crate) fn note(&mut self, number: usize, known: KnownPair)
        ensures pairs { self.new.pairs.items ≡ self.old.pairs.items }
        ensures known { (w : windows.Window) (p : PlacedPair) → AreKnown w self.old.pairs.items self.old.known.items → slice_get self.old.pairs.items number ≡ Some p → places.IsKnownPair w p.pair known → AreKnown w self.new.pairs.items self.new.known.items }
        ensures mask { self.new.mask ≡ self.old.mask }
    {
        if number < self.known.len() {
            self.known[number] = known;
        }
    }
}
