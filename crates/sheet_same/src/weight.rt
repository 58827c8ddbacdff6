//! What of members shows at once that they do not weigh with one another.

ghost use Rattle.std.specs.Prelude.{◌≡◌};
ghost use Rattle.sheet_same.specs.Judging.{IsAskable, IsAskablePair};
ghost use Rattle.sheet_same.specs.Members.{Paired};
ghost use Rattle.sheet_same.specs.Weight as spec;

use crate::members::{Kind, Member};
use css_model::{Specificity, specificity};
use related_props::{decl_mask, item_mask};
use sheet_order::Placed;

/// What a pair applies with, but for its place.
#[derive(Clone, Copy, PartialEq, Eq)]
pub(crate) struct Rank {
    pub(crate) important: bool,
    pub(crate) specificity: Specificity,
}

/// What of a member shows at once that it does not weigh with another one: the mask of what it declares and, of a pair,
/// its rank.
#[derive(Clone, Copy)]
pub(crate) struct Weight {
    pub(crate) mask: u64,
    pub(crate) rank: Option<Rank>,
}

/// The weight of a pair.
fn weight_of_pair(pair: &Placed<'_>) -> Weight
    requires { IsAskablePair pair.now }
    ensures { result ≡ spec.weight_of (Paired pair.now) }
{
    let rank = Rank {
        important: pair.decl.important,
        specificity: specificity(pair.selector),
    };
    Weight {
        mask: decl_mask(pair.decl),
        rank: Some(rank),
    }
}

/// The weight of a member.
pub(crate) fn weight_of(member: &Member<'_>) -> Weight
    requires { IsAskable member.now }
    ensures { result ≡ spec.weight_of member.now }
{
    match &member.kind {
        Kind::Pair(pair) => weight_of_pair(pair),
        Kind::Kept(_, item) => Weight {
            mask: item_mask(*item),
            rank: None,
        },
    }
}

/// Whether members of these ranks may weigh.
fn ranks_agree(first: Option<Rank>, second: Option<Rank>) -> bool
    ensures { result ≡ spec.ranks_agree first second }
{
    match (first, second) {
        (Some(rank), Some(other)) => rank == other,
        (None, None) => false,
        _ => true,
    }
}

/// Whether members of these weights may weigh.
pub(crate) fn may_weigh(first: &Weight, second: &Weight) -> bool
    ensures { result ≡ spec.may_weigh first.now second.now }
{
    first.mask & second.mask != 0 && ranks_agree(first.rank, second.rank)
}
