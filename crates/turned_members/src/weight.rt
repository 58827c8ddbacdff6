//! What of common members shows at once that they do not weigh.

ghost use Rattle.std.specs.Prelude.{◌≡◌};
ghost use Rattle.sheet_members.specs.Ready.{IsReady};
ghost use Rattle.turned_members.specs.Weight as spec;

use css_model::{Specificity, specificity};
use related_props::{decl_mask, item_mask};
use sheet_members::{Occurrence, Part};

/// What a pair applies with, but for its place.
#[derive(Clone, Copy, PartialEq, Eq)]
pub(crate) struct Rank {
    pub(crate) important: bool,
    pub(crate) specificity: Specificity,
}

/// What of a member shows at once that it does not weigh with another one: the mask of what it declares and, of a pair,
/// its rank.
#[derive(Clone, Copy)]
pub(crate) struct Weight {
    pub(crate) mask: u64,
    pub(crate) rank: Option<Rank>,
}

/// The weight of an occurrence.
pub(crate) fn weight_of(o: &Occurrence<'_>) -> Weight
    requires { IsReady o.now }
    ensures { result ≡ spec.weight_of o.now.part }
{
    match o.part {
        Part::Pair(s, d) => Weight {
            mask: decl_mask(&d.decl),
            rank: Some(Rank {
                important: d.decl.important,
                specificity: specificity(&s.selector),
            }),
        },
        Part::Kept(item) => Weight {
            mask: item_mask(item),
            rank: None,
        },
    }
}

/// Whether members of these weights may weigh.
pub(crate) fn may_weigh(first: &Weight, second: &Weight) -> bool
    ensures { result ≡ spec.may_weigh first.now second.now }
{
    match (first.rank, second.rank) {
        (None, None) => true,
        (Some(rank), Some(other)) => first.mask & second.mask != 0 && rank == other,
        _ => first.mask & second.mask != 0,
    }
}
