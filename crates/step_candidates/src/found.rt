//! Steps that were found, in the order of steps.

ghost use Rattle.std.specs.Prelude.{◌≡◌, ◌∷◌, [], IfOk, OnOk, map};
ghost use Rattle.std.specs.List.{AllPairs};
ghost use Rattle.rule_tables.specs.Entries.{Puts};
ghost use Rattle.step_candidates.specs.Ranking as ranking;
ghost use Rattle.step_laws.specs.Steps.{StandsBefore};

use std::alloc::{AllocError, Global};
use std::collections::BTreeSet;
use std::marker::Model;
use step_kinds::{Kind, kind_of, step_of};
use step_laws::Step;

/// A step by its kind and its two numbers. The order is that of steps.
#[derive(Clone, Copy, Debug, PartialEq, Eq, PartialOrd, Ord)]
struct Ranked {
    kind: Kind,
    first: u32,
    second: u32,
}

/// Returns a step by its kind and its two numbers.
fn rank_of(step: &Step) -> Ranked
    ensures { ranking.ranked_step result ≡ step.now }
{
    let (kind, first, second) = kind_of(step);
    Ranked {
        kind,
        first,
        second,
    }
}

/// Returns the steps of these kinds and numbers, in the same order.
fn steps_of(alloc: Global, list: &[Ranked]) -> Result<Vec<Step>, AllocError>
    ensures { IfOk result (λ steps. steps.items ≡ map ranking.ranked_step list.now) }
{
    let mut steps = Vec::with_capacity(alloc, list.len())?;
    let mut rest = list;
    'rest: while let Some((first, behind)) = rest.split_first() {
        steps.push(step_of(first.kind, first.first, first.second))?;
        rest = behind;
    }
    Ok(steps)
}

/// Returns what a set has, in the order of steps.
fn list_ranked(alloc: Global, set: BTreeSet<Ranked>) -> Result<Vec<Ranked>, AllocError>
    ensures same { IfOk result (λ list. list.items ≡ set.keys) }
    ensures ascends { IfOk result (λ list. AllPairs StandsBefore (map ranking.ranked_step list.items)) }
{
    set.into_iter().collect(alloc)
}

/// Steps that were found. Contracts see them as a list.
#[derive(Drop)]
pub(crate) struct Found {
    steps: BTreeSet<Ranked>,
}

impl Model for Found {
    ghost use Rattle.std.specs.Prelude.{List, map};
    ghost use Rattle.step_candidates.specs.Ranking as ranking;
    ghost use Rattle.step_laws.specs.declared.step.Step as declared;

    ghost Value = { List declared.Step };

    ghost view = { λ f. map ranking.ranked_step f.steps.keys };
}

impl Found {
    /// Returns a set with no steps.
    pub(crate) fn new(alloc: Global) -> Found
        ensures { result ≡ [] }
    {
        Found {
            steps: BTreeSet::new(alloc),
        }
    }

    /// Adds a step, if the set does not have it.
    pub(crate) fn put(&mut self, step: &Step) -> Result<(), AllocError>
        ensures { OnOk result (Puts self.old (step.now ∷ []) self.new) }
    {
        self.steps.insert(rank_of(step))?;
        Ok(())
    }

    /// Returns the steps that were found, in the order of steps.
    pub(crate) fn list(self, alloc: Global) -> Result<Vec<Step>, AllocError>
        ensures same { IfOk result (λ list. list.items ≡ self) }
        ensures ascends { IfOk result (λ list. AllPairs StandsBefore list.items) }
    {
        let list = list_ranked(alloc, self.steps)?;
        steps_of(alloc, &list)
    }
}
