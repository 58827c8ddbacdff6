//! What the entries before another one set, and where.

ghost use Rattle.std.specs.Prelude.{◌≡◌, ◌++◌, ◌∷◌, [], ◌||◌, List, OnOk};
ghost use Rattle.std.specs.List.{list_any};
ghost use Rattle.std.specs.Option.{option_copied};
ghost use Rattle.inspect_laws.specs.Entries as entries;
ghost use Rattle.inspect_laws.specs.Words as words;
ghost use Rattle.inspect_text.specs.Claims as spec;

use crate::entry::Entry;
use css_model::Text;
use std::alloc::AllocError;
use std::collections::HashSet;
use std::hash::{Hash, Hasher};
use std::marker::Model;

/// The property `all`.
pub(crate) const ALL: &[char] = &['a', 'l', 'l'];

/// Whether two heads are both none, or the same text.
fn same_head(head: Option<&[u8]>, other: Option<&[u8]>) -> bool
    ensures { result ≡ words.same_head (option_copied head.entry) (option_copied other.entry) }
{
    match (head, other) {
        (None, None) => true,
        (Some(head), Some(other)) => head == other,
        _ => false,
    }
}

/// A property, set in the blocks with one head, or in none.
#[derive(Drop)]
pub(crate) struct Claim<'a> {
    name: &'a [char],
    head: Option<&'a [u8]>,
}

impl<'a> Model for Claim<'a> {
    ghost use Rattle.std.specs.Option.{option_copied};
    ghost use Rattle.inspect_text.specs.Claims.{ClaimParts};

    ghost Value = { ClaimParts };

    ghost view = { λ c. record { name = c.name.now; head = option_copied c.head } };
}

impl<'a> PartialEq for Claim<'a> {
    ghost use Rattle.std.specs.Cmp.{decided, partial_equiv_from_equiv};
    ghost use Rattle.inspect_text.specs.Claims.{same_claim};
    ghost use Rattle.inspect_text.specs.SameClaims.{claim_decides};

    ghost eq = { same_claim };

    ghost laws = { partial_equiv_from_equiv (decided same_claim claim_decides) };

    fn eq(&self, other: &Claim<'a>) -> bool {
        self.name == other.name && same_head(self.head, other.head)
    }
}

impl<'a> Eq for Claim<'a> {
    ghost use Rattle.std.specs.Cmp.{decided};
    ghost use Rattle.inspect_text.specs.Claims.{same_claim};
    ghost use Rattle.inspect_text.specs.SameClaims.{claim_decides};

    ghost laws = { decided same_claim claim_decides };
}

impl<'a> Hash for Claim<'a> {
    ghost use Rattle.std.specs.Hash.{same_Alike};
    ghost use Rattle.inspect_text.specs.Claims.{claim_fed};
    ghost use Rattle.inspect_text.specs.SameClaims.{claim_decides};

    ghost hash_input = { claim_fed };

    ghost respects_eq = { (same_Alike claim_fed claim_decides).fed };

    fn hash<H: Hasher>(&self, state: &mut H) {
        self.name.hash(state);
        match self.head {
            None => {}
            Some(head) => head.hash(state),
        }
    }
}

/// What some entries set, and where.
pub(crate) type Claims<'a> = HashSet<Claim<'a>>;

/// Puts an entry to those whose claims these are.
#[tactic(auto, using(crate::proofs::Beating::claims_with))]
pub(crate) fn put_claim<'a>(claims: &mut Claims<'a>, e: &Entry<'a>) -> Result<(), AllocError>
    ensures { OnOk result ((before : List entries.Entry) → spec.AreClaims before claims.old.keys
        → spec.AreClaims (before ++ e.now ∷ []) claims.new.keys) }
{
    claims.insert(Claim {
        name: e.decl.name.codes(),
        head: e.head,
    })?;
    Ok(())
}

/// Whether a property is set in the blocks with a head, or in none.
fn is_set<'a>(claims: &Claims<'a>, name: &'a [char], head: Option<&'a [u8]>) -> bool
    ensures { result ≡ list_any (spec.same_claim (record { name = name.now; head = option_copied head.entry })) claims.now.keys }
{
    claims.contains(&Claim { name, head })
}

fn either(one: bool, other: bool) -> bool
    ensures { result ≡ (one || other) }
{
    one || other
}

/// Whether one of the entries whose claims these are sets a property in the blocks with a head, or in no block.
fn is_set_with<'a>(claims: &Claims<'a>, name: &'a [char], head: Option<&'a [u8]>) -> bool
    ensures { (before : List entries.Entry) → spec.AreClaims before claims.now.keys
        → result ≡ spec.is_set_with before name.now (option_copied head.entry) }
{
    let outside = is_set(claims, name, None);
    let inside = is_set(claims, name, head);
    either(outside, inside)
}

/// Whether one of the entries whose claims these are sets a property or `all` in the blocks with a head, or in no block.
fn is_overridden<'a>(claims: &Claims<'a>, name: &'a Text, head: Option<&'a [u8]>) -> bool
    ensures { (before : List entries.Entry) → spec.AreClaims before claims.now.keys
        → result ≡ spec.is_overridden before name.now (option_copied head.entry) }
{
    let same = is_set_with(claims, name.codes(), head);
    let all = is_set_with(claims, ALL, head);
    either(same, all)
}

/// Whether one of the entries whose claims these are sets what an entry sets wherever that one applies.
pub(crate) fn is_beaten<'a>(claims: &Claims<'a>, e: &Entry<'a>) -> bool
    ensures { (before : List entries.Entry) → spec.AreClaims before claims.now.keys → result ≡ spec.is_beaten before e.now }
{
    is_overridden(claims, &e.decl.name, e.head)
}
