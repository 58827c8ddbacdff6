//! The pairs of a list, each found at once.

ghost use Rattle.std.specs.Prelude.{◌≡◌, [], IfOk};
ghost use Rattle.std.specs.List.{find};
ghost use Rattle.std.specs.Option.{option_copied};
ghost use Rattle.order_laws.specs.Members.{same_pair};
ghost use Rattle.order_laws.specs.Places as order;
ghost use Rattle.sheet_order.specs.Keys.{inserted};

use crate::keys::PairKey;
use crate::pairs::Placed;
use indexmap::IndexSet;
use std::alloc::{AllocError, Global};
use std::marker::Model;

/// A list of pairs, in which each is found at once. It is seen as the list.
#[derive(Drop)]
pub struct PairIndex<'a> {
    pairs: &'a [Placed<'a>],
    /// Each pair at its first place in the list.
    firsts: IndexSet<PairKey<'a>>,
    ghost indexed: { firsts.keys ≡ inserted [] pairs.now },
}

impl<'a> Model for PairIndex<'a> {
    ghost use Rattle.std.specs.Prelude.{List};
    ghost use Rattle.order_laws.specs.Places.{PlacedPair};

    ghost Value = { List PlacedPair };

    ghost view = { λ index. index.pairs.now };
}

/// Each pair of a list at its first place in it.
#[tactic(auto, using(crate::proofs::Inserting::inserted_append))]
fn firsts_of<'a>(alloc: Global, pairs: &[Placed<'a>]) -> Result<IndexSet<PairKey<'a>>, AllocError>
    ensures { IfOk result (λ firsts. firsts.keys ≡ inserted [] pairs.now) }
{
    let mut firsts = IndexSet::new(alloc);
    for pair in pairs {
        firsts.insert(PairKey {
            placed: pair.copy(),
        })?;
    }
    Ok(firsts)
}

impl<'a> PairIndex<'a> {
    /// The index of these pairs. `AllocError` where memory runs out.
    pub fn new(alloc: Global, pairs: &'a [Placed<'a>]) -> Result<PairIndex<'a>, AllocError>
        ensures { IfOk result (λ index. index ≡ pairs.now) }
    {
        let firsts = firsts_of(alloc, pairs)?;
        Ok(PairIndex { pairs, firsts })
    }

    /// The first of the pairs that is the same as this one, whatever its place.
    pub fn find(&self, p: &Placed<'a>) -> Option<&Placed<'a>>
        ensures { option_copied result ≡ find (λ q. same_pair q.pair p.now.pair) self.now }
    {
        let key = PairKey { placed: p.copy() };
        match self.firsts.get(&key) {
            Some(found) => Some(&found.placed),
            None => None,
        }
    }

    /// Whether a pair is among these.
    #[tactic(auto, using(crate::proofs::Finding::has_first))]
    pub fn has(&self, p: &Placed<'a>) -> bool
        ensures { result ≡ order.has_pair self.now p.now.pair }
    {
        let key = PairKey { placed: p.copy() };
        self.firsts.contains(&key)
    }
}
