//! Which parts of a rule are known to be in it once.

ghost use Rattle.std.specs.Prelude.{◌≡◌, ◌<◌, ◌∷◌, ℕ, IfOk, IfSome, IsTrue, OnOk, length, true};
ghost use Rattle.std.specs.BTreeSet.{contains};
ghost use Rattle.std.specs.List.{Contains};
ghost use Rattle.std.specs.List.Sorted.{IsNonDecreasingBy};
ghost use Rattle.std.specs.Ordering.{nat_cmp};
ghost use Rattle.next_step.specs.Once.{StandOnce};
ghost use Rattle.next_step.specs.Repeated as spec;
ghost use Rattle.rule_tables.specs.Losing.{HasDeclOnce, HasSelectorOnce};

use css_model::{Rule, SelItem};
use rule_parts::has_selector;
use rule_tables::{decl_digest, decl_digests, selector_digest, selector_digests};
use std::alloc::{AllocError, Global};
use std::collections::BTreeSet;
use step_queue::are_decls_different;

/// Parts that are fewer than this get no digests.
const FEW: usize = 16;

/// Digests of the parts of a rule that may be in it more than once, or `None` if nothing is known.
#[derive(Drop)]
pub(crate) struct Repeated {
    digests: Option<BTreeSet<u32>>,
}

/// Puts the first of some numbers, which ascend, into a set if the next one is the same. `Err(AllocError)` if memory is short.
fn put_if_twice(found: &mut BTreeSet<u32>, first: u32, behind: &[u32]) -> Result<(), AllocError>
    requires { IsNonDecreasingBy (λ n. n) (first ∷ behind.now) }
    ensures keeps { OnOk result ((n : ℕ) → IsTrue (contains nat_cmp found.old n) → IsTrue (contains nat_cmp found.new n)) }
    ensures twice { OnOk result (Contains behind.now first → IsTrue (contains nat_cmp found.new first)) }
{
    let Some((next, _rest)) = behind.split_first() else {
        return Ok(());
    };
    if *next != first {
        return Ok(());
    }
    found.insert(first)?;
    Ok(())
}

/// Puts the numbers that are among these more than once into a set. The numbers ascend. `Err(AllocError)` if memory is short.
fn put_twice(found: &mut BTreeSet<u32>, numbers: &[u32]) -> Result<(), AllocError>
    requires { IsNonDecreasingBy (λ n. n) numbers.now }
    ensures { OnOk result (spec.HasTwice numbers.now found.new) }
{
    let mut rest = numbers;
    'rest: while let Some((first, behind)) = rest.split_first() {
        put_if_twice(found, *first, behind)?;
        rest = behind;
    }
    Ok(())
}

/// The numbers that are among these more than once. `Err(AllocError)` if memory is short.
fn twice(alloc: Global, mut numbers: Vec<u32>) -> Result<BTreeSet<u32>, AllocError>
    ensures { IfOk result (spec.HasTwice numbers.items) }
{
    numbers.sort_unstable();
    let mut found = BTreeSet::new(alloc);
    put_twice(&mut found, &numbers)?;
    Ok(found)
}

impl Repeated {
    /// No part is in the rule more than once if `different` holds; else nothing is known.
    fn of_few(alloc: Global, different: bool) -> Repeated
        ensures { IfSome result.digests (λ set. different ≡ true) }
    {
        if different {
            Repeated {
                digests: Some(BTreeSet::new(alloc)),
            }
        } else {
            Repeated { digests: None }
        }
    }

    /// Whether it is known that each part is in the rule once.
    pub(crate) fn are_none(&self) -> bool
        ensures { result ≡ true → (digest : ℕ) → spec.Lacks self.now digest }
    {
        match &self.digests {
            Some(digests) => digests.is_empty(),
            None => false,
        }
    }

    /// Whether it is known that a part with this digest is in the rule once.
    fn lacks(&self, digest: u32) -> bool
        ensures { result ≡ true → spec.Lacks self.now digest }
    {
        match &self.digests {
            Some(digests) => !digests.contains(&digest),
            None => false,
        }
    }

    /// Whether it is known that the selector of this number is in the rule once.
    pub(crate) fn is_selector_once(&self, rule: &Rule, number: u32) -> bool
        requires repeated { spec.RepeatsSelectors self.now rule.now }
        requires there { number < length rule.now.selectors }
        ensures { result ≡ true → HasSelectorOnce rule.now number }
    {
        if self.are_none() {
            return true;
        }
        self.lacks(selector_digest(&rule.selectors[number as usize].selector))
    }

    /// Whether it is known that the declaration of this number is in the rule once.
    pub(crate) fn is_decl_once(&self, rule: &Rule, number: u32) -> bool
        requires repeated { spec.RepeatsDecls self.now rule.now }
        requires there { number < length rule.now.decls }
        ensures { result ≡ true → HasDeclOnce rule.now number }
    {
        if self.are_none() {
            return true;
        }
        self.lacks(decl_digest(&rule.decls[number as usize].decl))
    }
}

/// Whether each of the selectors comes once. It compares each with each.
fn are_selectors_different(selectors: &[SelItem]) -> bool
    ensures { result ≡ true → StandOnce (λ x. x.selector) selectors.now }
{
    let mut rest = selectors;
    'rest: while let Some((first, behind)) = rest.split_first() {
        if has_selector(behind, &first.selector) {
            return false;
        }
        rest = behind;
    }
    true
}

/// The selectors of a rule that may be in it more than once.
/// If they are few, each is compared with each. `Err(AllocError)` if memory is short.
pub(crate) fn repeated_selectors(alloc: Global, rule: &Rule) -> Result<Repeated, AllocError>
    ensures { IfOk result (λ repeated. spec.RepeatsSelectors repeated rule.now) }
{
    if rule.selectors.len() < FEW {
        return Ok(Repeated::of_few(alloc, are_selectors_different(&rule.selectors)));
    }
    let digests = selector_digests(alloc, &rule.selectors)?;
    let set = twice(alloc, digests)?;
    Ok(Repeated { digests: Some(set) })
}

/// The declarations of a rule that may be in it more than once.
/// If they are few, each is compared with each. `Err(AllocError)` if memory is short.
pub(crate) fn repeated_decls(alloc: Global, rule: &Rule) -> Result<Repeated, AllocError>
    ensures { IfOk result (λ repeated. spec.RepeatsDecls repeated rule.now) }
{
    if rule.decls.len() < FEW {
        return Ok(Repeated::of_few(alloc, are_decls_different(&rule.decls)));
    }
    let digests = decl_digests(alloc, &rule.decls)?;
    let set = twice(alloc, digests)?;
    Ok(Repeated { digests: Some(set) })
}
