//! Facts about rules.

ghost use Rattle.std.specs.Prelude.{◌≡◌, ◌≢◌, ℕ, ◌<◌, ◌≤◌, IfOk, OnErr, OnOk, length};
ghost use Rattle.indexed_sheet.specs.Facts as known;

use std::alloc::AllocError;

/// Facts about a rule. A field that is `false` says nothing.
#[derive(Clone, Copy, Debug, PartialEq, Eq)]
pub struct Facts {
    /// No part of it can be cut.
    pub no_cut: bool,
    /// No other rule has one of its selectors.
    pub own_selectors: bool,
    /// No other rule has one of its declarations.
    pub own_decls: bool,
    /// No other rule has one of its selectors together with one of its declarations, and each of its parts is in it once.
    pub own_pairs: bool,
}

/// Returns facts that say nothing.
pub(crate) fn nothing() -> Facts
    ensures { result ≡ known.nothing }
{
    Facts {
        no_cut: false,
        own_selectors: false,
        own_decls: false,
        own_pairs: false,
    }
}

/// Returns the facts that both have.
pub(crate) fn by_both(one: Facts, other: Facts) -> Facts
    ensures { result ≡ known.by_both one other }
{
    Facts {
        no_cut: one.no_cut && other.no_cut,
        own_selectors: one.own_selectors && other.own_selectors,
        own_decls: one.own_decls && other.own_decls,
        own_pairs: one.own_pairs && other.own_pairs,
    }
}

/// Returns the facts that either has.
pub(crate) fn by_either(one: Facts, other: Facts) -> Facts
    ensures { result ≡ known.by_either one other }
{
    Facts {
        no_cut: one.no_cut || other.no_cut,
        own_selectors: one.own_selectors || other.own_selectors,
        own_decls: one.own_decls || other.own_decls,
        own_pairs: one.own_pairs || other.own_pairs,
    }
}

/// Returns the facts about the rule of an item id, or facts that say nothing if the list has none.
pub(crate) fn facts_under(facts: &[Facts], item_id: u32) -> Facts
    ensures { result ≡ known.facts_under facts.now item_id }
{
    let item_id = item_id as usize;
    if item_id < facts.len() {
        facts[item_id]
    } else {
        nothing()
    }
}

/// Makes the list at least as long as `count`. The new entries say nothing.
fn lengthen(facts: &mut Vec<Facts>, count: usize) -> Result<(), AllocError>
    ensures same { (b : ℕ) → known.facts_under facts.new.items b ≡ known.facts_under facts.old.items b }
    ensures long { OnOk result (count ≤ length facts.new.items) }
    ensures few { (n : ℕ) → length facts.old.items ≤ n → count ≤ n → length facts.new.items ≤ n }
{
    while facts.len() < count {
        facts.push(nothing())?;
    }
    Ok(())
}

/// Sets the facts about the rule of an item id. All other facts stay.
/// After `Err(AllocError)` the facts of this item id stay too.
pub(crate) fn learn(facts: &mut Vec<Facts>, item_id: u32, own: Facts) -> Result<(), AllocError>
    ensures own { OnOk result (known.facts_under facts.new.items item_id ≡ own) }
    ensures own_stays { OnErr result (known.facts_under facts.new.items item_id ≡ known.facts_under facts.old.items item_id) }
    ensures others { (b : ℕ) → b ≢ item_id → known.facts_under facts.new.items b ≡ known.facts_under facts.old.items b }
    ensures few { (n : ℕ) → length facts.old.items ≤ n → item_id < n → length facts.new.items ≤ n }
{
    let item_id = item_id as usize;
    lengthen(facts, item_id + 1)?;
    facts[item_id] = own;
    Ok(())
}

/// Returns facts that say only that a rule has pairs of its own.
pub(crate) fn of_own_pairs() -> Facts
    ensures { result ≡ known.of_own_pairs }
{
    Facts {
        no_cut: false,
        own_selectors: false,
        own_decls: false,
        own_pairs: true,
    }
}

/// Sets the facts about the rules of these item ids. All other facts stay.
pub(crate) fn learn_each(
    mut facts: Vec<Facts>,
    from: u32,
    to: u32,
    own: Facts,
) -> Result<Vec<Facts>, AllocError>
    requires { from ≤ to }
    ensures { IfOk result (λ new. known.AreLearntOfEach facts.items new.items from to own) }
{
    for item_id in from..to {
        learn(&mut facts, item_id, own)?;
    }
    Ok(facts)
}

/// Returns the facts after `made`, if there is one, is set for the rule of this item id.
pub(crate) fn learn_made(
    mut facts: Vec<Facts>,
    item_id: u32,
    made: Option<Facts>,
) -> Result<Vec<Facts>, AllocError>
    ensures { IfOk result (λ new. known.AreLearnt facts.items new.items item_id made) }
{
    if let Some(own) = made {
        learn(&mut facts, item_id, own)?;
    }
    Ok(facts)
}

/// Returns the facts after a step that made the rules of these item ids: `made`, if there is one, is set for the first of them.
/// If there is none and `own_pairs` says so, it is set for each that it has pairs of its own.
pub(crate) fn learn_of_step(
    facts: Vec<Facts>,
    from: u32,
    to: u32,
    made: Option<Facts>,
    own_pairs: bool,
) -> Result<Vec<Facts>, AllocError>
    requires { from ≤ to }
    ensures { IfOk result (λ new. known.AreLearntOf facts.items new.items from to made own_pairs) }
{
    match made {
        None if own_pairs => learn_each(facts, from, to, of_own_pairs()),
        _ => learn_made(facts, from, made),
    }
}
