//! The first pair of a sheet that another one lacks.

ghost use Rattle.std.specs.Prelude.{◌≡◌};
ghost use Rattle.std.specs.List.{AllByRecursion};
ghost use Rattle.sheet_same.specs.Judging.{IsAskable};
ghost use Rattle.sheet_same.specs.Lacking as spec;

use crate::members::{Kind, Member};
use sheet_order::{PairIndex, PairPlace, narrow_place};

/// The place of a member, if it is a pair that is not among these.
fn lacking(pairs: &PairIndex<'_>, member: &Member<'_>) -> Option<PairPlace>
    requires { IsAskable member.now }
    ensures { result ≡ spec.lacking pairs.now member.now }
{
    match &member.kind {
        Kind::Pair(pair) => if pairs.has(pair) {
            None
        } else {
            Some(narrow_place(pair))
        },
        Kind::Kept(_, _) => None,
    }
}

/// The place of the first member that is a pair and is not among these.
pub(crate) fn first_lacking(pairs: &PairIndex<'_>, members: &[Member<'_>]) -> Option<PairPlace>
    requires { AllByRecursion IsAskable members.now }
    ensures { result ≡ spec.first_lacking pairs.now members.now }
{
    for member in members {
        if let Some(place) = lacking(pairs, member) {
            return Some(place);
        }
    }
    None
}
