//! How much each rule of an indexed sheet weighs at most.

ghost use Rattle.std.specs.Prelude.{◌≡◌, ◌≢◌, ◌≤◌, ◌&&◌, [], ℕ, OnErr, OnOk, length, max, true};
ghost use Rattle.step_queue.specs.RuleWeights as spec;

use crate::heaviest::Heaviest;
use std::alloc::{AllocError, Global};
use std::marker::Model;

/// What a rule weighs at most, and what else is known of its parts.
/// Its selectors weigh as much as their printed texts are long, each with the sign after it. So do its declarations.
#[derive(Clone, Copy, Debug)]
pub struct RuleWeight {
    /// The selectors, in bytes.
    pub selectors: u32,
    /// The declarations, in bytes.
    pub decls: u32,
    /// The selectors weigh no less than this, in bytes.
    pub least: u32,
    /// It has no fewer declarations than this.
    pub count: u32,
    /// The rule is known to have each of its declarations once.
    pub once: bool,
    /// Each of its declarations is known to be printed as long as its name, its value and its importance tell.
    pub plain: bool,
}

/// What each rule weighs at most, under its item id, and the greatest of these weights.
#[derive(Debug, Drop)]
pub struct RuleWeights {
    each: Vec<RuleWeight>,
    heaviest: Heaviest,
    once: bool,
    plain: bool,
}

impl Model for RuleWeights {
    ghost use Rattle.step_queue.specs.RuleWeights.{WeightParts};

    ghost Value = { WeightParts };

    ghost view = { λ w. record { each = w.each.items; heaviest = w.heaviest; once = w.once; plain = w.plain } };
}

/// Returns the weight of a rule of which nothing is known: 2^32 - 1 bytes for each part.
pub(crate) fn unknown() -> RuleWeight
    ensures { result ≡ spec.unknown }
{
    RuleWeight {
        selectors: u32::MAX,
        decls: u32::MAX,
        least: 0,
        count: 0,
        once: false,
        plain: false,
    }
}

/// Returns the weight under an item id, or `unknown()` if there is none.
fn weight_under(each: &[RuleWeight], item_id: u32) -> RuleWeight
    ensures { result ≡ spec.weight_under each.now item_id }
{
    let item_id = item_id as usize;
    if item_id < each.len() {
        each[item_id]
    } else {
        unknown()
    }
}

/// Makes the list at least as long as this. The weight under each item id stays the same.
fn lengthen(each: &mut Vec<RuleWeight>, count: usize) -> Result<(), AllocError>
    ensures same { (b : ℕ) → spec.weight_under each.new.items b ≡ spec.weight_under each.old.items b }
    ensures long { OnOk result (count ≤ length each.new.items) }
{
    while each.len() < count {
        each.push(unknown())?;
    }
    Ok(())
}

/// Puts a weight under an item id. The weights under the others stay, and after `Err(AllocError)` all do.
fn put_under(each: &mut Vec<RuleWeight>, item_id: u32, weight: RuleWeight) -> Result<(), AllocError>
    ensures own { OnOk result (spec.weight_under each.new.items item_id ≡ weight) }
    ensures others { OnOk result ((b : ℕ) → b ≢ item_id → spec.weight_under each.new.items b ≡ spec.weight_under each.old.items b) }
    ensures none { OnErr result ((b : ℕ) → spec.weight_under each.new.items b ≡ spec.weight_under each.old.items b) }
{
    let item_id = item_id as usize;
    lengthen(each, item_id + 1)?;
    each[item_id] = weight;
    Ok(())
}

impl RuleWeights {
    /// Returns weights with no rule in them. It takes no memory.
    pub fn new(alloc: Global) -> RuleWeights
        ensures each { result.each ≡ [] }
        ensures heaviest { result.heaviest ≡ record { selectors = 0; decls = 0 } }
        ensures once { result.once ≡ true }
        ensures plain { result.plain ≡ true }
    {
        RuleWeights {
            each: Vec::new(alloc),
            heaviest: Heaviest {
                selectors: 0,
                decls: 0,
            },
            once: true,
            plain: true,
        }
    }

    /// Returns the greatest weights that were put, in bytes, of selectors and of declarations each.
    pub fn heaviest(&self) -> Heaviest
        ensures { result ≡ self.now.heaviest }
    {
        self.heaviest
    }

    /// Whether `once` was true of all weights that were put.
    pub fn once(&self) -> bool
        ensures { result ≡ self.now.once }
    {
        self.once
    }

    /// Whether `plain` was true of all weights that were put.
    pub fn plain(&self) -> bool
        ensures { result ≡ self.now.plain }
    {
        self.plain
    }

    /// Returns the weight under an item id. If none is known, it is 2^32 - 1 bytes for each part, and `once` is false.
    pub fn under(&self, item_id: u32) -> RuleWeight
        ensures { result ≡ spec.weight_under self.now.each item_id }
    {
        weight_under(&self.each, item_id)
    }

    /// Puts a weight, in bytes, under an item id. The weights under other item ids stay.
    /// After `Err(AllocError)` all weights stay, and what holds of all of them.
    pub fn put(&mut self, item_id: u32, weight: RuleWeight) -> Result<(), AllocError>
        ensures own { OnOk result (spec.weight_under self.new.each item_id ≡ weight) }
        ensures others { OnOk result ((b : ℕ) → b ≢ item_id → spec.weight_under self.new.each b ≡ spec.weight_under self.old.each b) }
        ensures once { OnOk result (self.new.once ≡ self.old.once && weight.once) }
        ensures plain { OnOk result (self.new.plain ≡ self.old.plain && weight.plain) }
        ensures heaviest { OnOk result (self.new.heaviest ≡ record { selectors = max self.old.heaviest.selectors weight.selectors; decls = max self.old.heaviest.decls weight.decls }) }
        ensures none { OnErr result (spec.TellsTheSame self.old self.new) }
    {
        put_under(&mut self.each, item_id, weight)?;
        self.heaviest = self
            .heaviest
            .with(u64::from(weight.selectors), u64::from(weight.decls));
        self.once = self.once && weight.once;
        self.plain = self.plain && weight.plain;
        Ok(())
    }
}
