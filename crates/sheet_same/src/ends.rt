//! After which member no later one is before another one in one of two sheets alone.

ghost use Rattle.std.specs.Prelude.{◌≡◌, ◌≤◌, IfOk, drop, false, length, not};
ghost use Rattle.std.specs.List.{AllByRecursion};
ghost use Rattle.sheet_same.specs.Ends as spec;
ghost use Rattle.sheet_same.specs.Standing.{spots_differ};

use crate::standing::{Spot, Standing, is_later};
use std::alloc::{AllocError, Global};

/// The least places of some members, in their sheet and in the other one.
#[derive(Clone, Copy)]
pub(crate) struct Least {
    pub(crate) here: Spot,
    pub(crate) there: Spot,
}

/// The earlier of two places.
fn earlier_of(x: Spot, y: Spot) -> Spot
    ensures { result ≡ spec.earlier_of x y }
{
    if is_later(x, y) { y } else { x }
}

/// The least places of a member and of those after it, if there are some.
fn with_least(member: &Standing<'_>, behind: Option<Least>) -> Least
    ensures { result ≡ spec.with_least member.now behind }
{
    match behind {
        None => Least {
            here: member.here,
            there: member.there,
        },
        Some(least) => Least {
            here: earlier_of(member.here, least.here),
            there: earlier_of(member.there, least.there),
        },
    }
}

/// For each member the least places from it on.
pub(crate) fn leasts(alloc: Global, members: &[Standing<'_>]) -> Result<Vec<Least>, AllocError>
    ensures exact { IfOk result (λ found. found.items ≡ spec.leasts members.now) }
    ensures long { IfOk result (λ found. length found.items ≡ length members.now) }
{
    let mut found = Vec::with_capacity(alloc, members.len())?;
    let mut behind = None;
    let mut left = members.len();
    'left: while left > 0 {
        left -= 1;
        let least = with_least(&members[left], behind);
        found.push(least)?;
        behind = Some(least);
    }
    found.reverse();
    Ok(found)
}

/// Whether both least places are later than those of a member.
fn is_past(least: &Least, member: &Standing<'_>) -> bool
    ensures { result ≡ spec.is_past least.now member.now }
{
    is_later(least.here, member.here) && is_later(least.there, member.there)
}

/// How many of some members come before those that are after a member in both sheets. `leasts` are their least places.
pub(crate) fn end_of(leasts: &[Least], member: &Standing<'_>, later: &[Standing<'_>]) -> usize
    requires { leasts.now ≡ spec.leasts later.now }
    ensures within { result ≤ length later.now }
    ensures behind { AllByRecursion (λ x. spots_differ member.now x ≡ false) (drop result later.now) }
{
    leasts.partition_point(
        |least|
            ensures { result ≡ not (spec.is_past least.now member.entry.now) }
        { !is_past(least, member) },
    )
}
