//! The pairs and the kept items of a sheet, in one order.

ghost use Rattle.std.specs.Prelude.{◌≡◌, ◌++◌, [], ◌∷◌, IfOk, OnOk, map};
ghost use Rattle.order_laws.specs.Reversed.{kept_from};
ghost use Rattle.sheet_same.specs.Members as spec;
ghost use Rattle.sheet_same.specs.Seen.{member_seen};

use css_model::Item;
use sheet_order::{Ordered, Placed, is_kept};
use std::alloc::{AllocError, Global};
use std::marker::Model;

/// A pair at its last place, or a kept item with its number among all items.
#[derive(Drop)]
pub(crate) enum Kind<'a> {
    Pair(Placed<'a>),
    Kept(usize, &'a Item),
}

/// A pair or a kept item of a sheet.
#[derive(Drop)]
pub(crate) struct Member<'a> {
    pub(crate) kind: Kind<'a>,
}

impl<'a> Model for Member<'a> {
    ghost use Rattle.sheet_same.specs.Members as spec;
    ghost use Rattle.sheet_same.specs.Seen.{member_seen};

    ghost Value = { spec.Member };

    ghost view = { λ m. member_seen m.kind };
}

impl<'a> Kind<'a> {
    /// The same kind, of the same member.
    fn copy(&self) -> Kind<'a>
        ensures { member_seen result ≡ member_seen self.now }
    {
        match self {
            Kind::Pair(pair) => Kind::Pair(pair.copy()),
            Kind::Kept(number, item) => Kind::Kept(*number, *item),
        }
    }
}

impl<'a> Member<'a> {
    /// The same member.
    pub(crate) fn copy(&self) -> Member<'a>
        ensures { result ≡ self.now }
    {
        let kind = self.kind.copy();
        Member { kind }
    }
}

/// The numbers by which members ascend.
fn member_key(member: &Member<'_>) -> [usize; 3]
    ensures { result ≡ spec.member_key member.now }
{
    match &member.kind {
        Kind::Pair(pair) => [pair.item, pair.decl_number, pair.selector_number],
        Kind::Kept(number, _) => [*number, 0, 0],
    }
}

/// The members in their order.
fn in_order(members: Vec<Member<'_>>) -> Result<Vec<Member<'_>>, AllocError>
    ensures { IfOk result (λ sorted. sorted.items ≡ spec.in_order members.entry.items) }
{
    let mut sorted = members;
    sorted.sort_by_key(
        |member|
            ensures { result ≡ spec.member_key member.now }
        { member_key(member) },
    )?;
    Ok(sorted)
}

/// Puts pairs after the members.
#[tactic(auto, using(crate::proofs::Lists::map_append))]
fn push_pairs<'a>(found: &mut Vec<Member<'a>>, pairs: &[Placed<'a>]) -> Result<(), AllocError>
    ensures { OnOk result (found.new.items ≡ found.old.items ++ map spec.Paired pairs.now) }
{
    for pair in pairs {
        found.push(Member {
            kind: Kind::Pair(pair.copy()),
        })?;
    }
    Ok(())
}

/// Puts the kept ones of some items after the members.
#[tactic(auto, using(crate::proofs::Lists::map_append, crate::proofs::Lists::kept_from_cons))]
fn push_kept<'a>(found: &mut Vec<Member<'a>>, items: &'a [Item]) -> Result<(), AllocError>
    ensures { OnOk result (found.new.items ≡ found.old.items ++ map spec.kept_member (kept_from 0 items.now)) }
{
    let mut number = 0;
    let mut rest = items;
    'rest: while let Some((first, behind)) = rest.split_first() {
        push_if_kept(found, number, first)?;
        number += 1;
        rest = behind;
    }
    Ok(())
}

/// Puts an item after the members, if it is kept.
fn push_if_kept<'a>(
    found: &mut Vec<Member<'a>>,
    number: usize,
    item: &'a Item,
) -> Result<(), AllocError>
    ensures { OnOk result (found.new.items ≡ found.old.items ++ map spec.kept_member (kept_from number (item.now ∷ []))) }
{
    if is_kept(item) {
        found.push(Member {
            kind: Kind::Kept(number, item),
        })?;
    }
    Ok(())
}

/// The pairs of a sheet, each at its last place, and its kept items, in their order.
pub(crate) fn members<'a>(alloc: Global, sheet: &Ordered<'a>) -> Result<Vec<Member<'a>>, AllocError>
    ensures { IfOk result (λ found. found.items ≡ spec.members sheet.now.items.now) }
{
    let mut found = Vec::with_capacity(alloc, sheet.pairs.len())?;
    push_pairs(&mut found, &sheet.pairs)?;
    push_kept(&mut found, sheet.items)?;
    in_order(found)
}
