//! What is found in couples whose order differs, by what is answered.

ghost use Rattle.std.specs.Prelude.{◌≡◌, ◌<◌, ◌^◌, [], ◌∷◌, IfOk};
ghost use Rattle.std.specs.List.{AllByRecursion};
ghost use Rattle.css_model.specs.Sheets.KeptItems as kept;
ghost use Rattle.overlap.specs.Remembered.{IsHeld};
ghost use Rattle.sheet_order.specs.Allowing.{Stays};
ghost use Rattle.sheet_order.specs.Narrow.{IsNarrowPlace};
ghost use Rattle.sheet_same.specs.declared.compared.Compared.TheVariants as found;
ghost use Rattle.sheet_same.specs.Ends as ends;
ghost use Rattle.sheet_same.specs.Judging as spec;
ghost use Rattle.sheet_same.specs.Members as members;
ghost use Rattle.sheet_same.specs.Seen.{member_seen};
ghost use Rattle.sheet_same.specs.Standing as standing;

use crate::compared::Compared;
use crate::ends::{Least, end_of, leasts};
use crate::members::{Kind, Member};
use crate::standing::{Standing, are_turned};
use css_model::Item;
use overlap::{Answer, Pairs};
use sheet_order::{PairPlace, Placed, kept_before, narrow_place};
use std::alloc::{AllocError, Global};

/// What an answer for the selectors of two pairs at these places says of the sheets.
fn found_by(
    first: PairPlace,
    second: PairPlace,
    answer: &Answer,
) -> Result<Option<Compared>, AllocError>
    ensures { IfOk result (λ x. spec.found_by first second answer.now ≡ x) }
{
    match answer {
        Answer::Apart => Ok(None),
        Answer::Meet(example) => Ok(Some(Compared::Reversed {
            first,
            second,
            example: example.copy()?,
        })),
        Answer::Outside(reason, _) => Ok(Some(Compared::Unsure(*reason))),
        Answer::Spent(_) => Ok(Some(Compared::Unsure(0))),
    }
}

/// What is found by the answer that is held for two pairs.
#[tactic(auto, using(sheet_order::proofs::ForCallers::not_unknown))]
fn known_found(
    pairs: &Pairs,
    p: &Placed<'_>,
    q: &Placed<'_>,
) -> Result<Option<Compared>, AllocError>
    requires held { IsHeld pairs.now.answers p.now.pair.selector q.now.pair.selector }
    requires first { IsNarrowPlace p.now.place }
    requires second { IsNarrowPlace q.now.place }
    ensures { IfOk result (λ found. spec.JudgesPair pairs.now.answers p.now q.now found) }
{
    let first = narrow_place(p);
    let second = narrow_place(q);
    match pairs.known(p.selector, q.selector) {
        Some(answer) => found_by(first, second, answer),
        None => unreachable!(),
    }
}

/// What is found by the answer for two pairs. The answer is asked for.
#[tactic(auto, using(sheet_order::proofs::ForCallers::asked_stays))]
fn asked_found(
    pairs: &mut Pairs,
    p: &Placed<'_>,
    q: &Placed<'_>,
) -> Result<Option<Compared>, AllocError>
    requires first { spec.IsAskablePair p.now }
    requires second { spec.IsAskablePair q.now }
    ensures stays { Stays pairs.old pairs.new }
    ensures judges { IfOk result (λ found. spec.JudgesPair pairs.new.answers p.now q.now found) }
{
    pairs.settle(p.selector, q.selector)?;
    known_found(pairs, p, q)
}

/// The kept item of this number among all items, by its number among the kept ones.
#[tactic(auto, using(crate::proofs::KeptNumbers::small_number))]
fn kept_found(items: &[Item], number: usize) -> Compared
    requires { number < 2 ^ 32 }
    ensures { result ≡ found.KeptItem (kept.kept_before number items.now) }
{
    Compared::KeptItem(kept_before(number, items) as u32)
}

/// What is found in a pair and a later member.
#[tactic(auto, using(sheet_order::proofs::ForCallers::stays_itself))]
fn pair_found(
    pairs: &mut Pairs,
    items: &[Item],
    p: &Placed<'_>,
    later: &Kind<'_>,
) -> Result<Option<Compared>, AllocError>
    requires first { spec.IsAskablePair p.now }
    requires second { spec.IsAskable (member_seen later.now) }
    ensures stays { Stays pairs.old pairs.new }
    ensures judges { IfOk result (λ found. spec.JudgesMembers pairs.new.answers items.now (members.Paired p.now) (member_seen later.now) found) }
{
    match later {
        Kind::Pair(q) => asked_found(pairs, p, q),
        Kind::Kept(number, _) => Ok(Some(kept_found(items, *number))),
    }
}

/// What is found in two members.
#[tactic(auto, using(sheet_order::proofs::ForCallers::stays_itself))]
fn couple_found(
    pairs: &mut Pairs,
    items: &[Item],
    earlier: &Member<'_>,
    later: &Member<'_>,
) -> Result<Option<Compared>, AllocError>
    requires first { spec.IsAskable earlier.now }
    requires second { spec.IsAskable later.now }
    ensures stays { Stays pairs.old pairs.new }
    ensures judges { IfOk result (λ found. spec.JudgesMembers pairs.new.answers items.now earlier.now later.now found) }
{
    match &earlier.kind {
        Kind::Pair(p) => pair_found(pairs, items, p, &later.kind),
        Kind::Kept(number, _) => Ok(Some(kept_found(items, *number))),
    }
}

/// What is found in a member and a later one, if they are turned.
#[tactic(auto, using(sheet_order::proofs::ForCallers::stays_itself, crate::proofs::Judged::one_turned, crate::proofs::Judged::one_unturned))]
fn found_in(
    pairs: &mut Pairs,
    items: &[Item],
    m: &Standing<'_>,
    x: &Standing<'_>,
) -> Result<Option<Compared>, AllocError>
    requires first { spec.IsAskable m.now.member }
    requires second { spec.IsAskable x.now.member }
    ensures stays { Stays pairs.old pairs.new }
    ensures judged { IfOk result (λ found. spec.IsJudged pairs.new.answers items.now (standing.couples_with m.now (x.now ∷ [])) found) }
{
    if are_turned(m, x) {
        couple_found(pairs, items, &m.member, &x.member)
    } else {
        Ok(None)
    }
}

/// What is found in the couples of a member and later ones.
#[tactic(auto, using(sheet_order::proofs::ForCallers::stays_itself))]
fn found_behind(
    pairs: &mut Pairs,
    items: &[Item],
    m: &Standing<'_>,
    later: &[Standing<'_>],
) -> Result<Option<Compared>, AllocError>
    requires first { spec.IsAskable m.now.member }
    requires all { AllByRecursion (λ x. spec.IsAskable x.member) later.now }
    ensures stays { Stays pairs.old pairs.new }
    ensures judged { IfOk result (λ found. spec.IsJudged pairs.new.answers items.now (standing.couples_with m.now later.now) found) }
{
    for x in later {
        if let Some(found) = found_in(pairs, items, m, x)? {
            return Ok(Some(found));
        }
    }
    Ok(None)
}

/// What is found in the couples of a member and later ones with these least places.
#[tactic(auto, using(crate::proofs::Lists::all_take))]
fn found_with(
    pairs: &mut Pairs,
    items: &[Item],
    m: &Standing<'_>,
    later: &[Standing<'_>],
    leasts: &[Least],
) -> Result<Option<Compared>, AllocError>
    requires first { spec.IsAskable m.now.member }
    requires all { AllByRecursion (λ x. spec.IsAskable x.member) later.now }
    requires leasts { leasts.now ≡ ends.leasts later.now }
    ensures stays { Stays pairs.old pairs.new }
    ensures judged { IfOk result (λ found. spec.IsJudged pairs.new.answers items.now (standing.couples_with m.now later.now) found) }
{
    let end = end_of(leasts, m, later);
    found_behind(pairs, items, m, &later[..end])
}

/// What is found in the couples of members of a sheet that are turned, by the earlier one and then by the later one.
#[tactic(auto, using(sheet_order::proofs::ForCallers::stays_itself, crate::proofs::Lists::all_drop))]
pub(crate) fn judged(
    alloc: Global,
    pairs: &mut Pairs,
    items: &[Item],
    members: &[Standing<'_>],
) -> Result<Option<Compared>, AllocError>
    requires { AllByRecursion (λ x. spec.IsAskable x.member) members.now }
    ensures stays { Stays pairs.old pairs.new }
    ensures judged { IfOk result (λ found. spec.IsJudged pairs.new.answers items.now (standing.couples_of members.now) found) }
{
    let leasts = leasts(alloc, members)?;
    let mut behind = 0;
    for m in members {
        behind += 1;
        let (later, ends) = (&members[behind..], &leasts[behind..]);
        if let Some(found) = found_with(pairs, items, m, later, ends)? {
            return Ok(Some(found));
        }
    }
    Ok(None)
}
