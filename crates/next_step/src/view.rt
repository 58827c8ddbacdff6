//! What the planner looks at while it looks for the next steps, and what it knows of a rule, of two rules and of a step.
//! One definition in `specs/Viewed.antt` says of each of these records what holds. A function that takes one cites it.
//! `false` in a record says nothing.

use css_model::Rule;
use indexed_sheet::IndexedSheet;
use rule_tables::Tables;
use saved_bytes::KnownLengths;
use std::alloc::Global;
use step_laws::Step;
use step_queue::{Barriers, Candidate, RuleWeights};

/// What the planner looks at while it looks for the next steps.
#[derive(Clone, Copy)]
pub struct View<'a> {
    /// Where memory comes from.
    pub alloc: Global,
    /// The sheet, with a mark for each item.
    pub indexed: &'a IndexedSheet,
    /// Tables of its rules, by the order keys of their items.
    pub tables: &'a Tables,
    /// The source, with the lengths of its parts.
    pub source: &'a KnownLengths<'a>,
    /// What the rules weigh at most.
    pub weights: &'a RuleWeights,
    /// What joins do not go past.
    pub barriers: &'a Barriers,
    /// The candidate after which it looks: the steps are in its scope, and their priorities come later.
    pub after: &'a Candidate,
}

/// The rule whose steps are looked for, and what is known of it.
#[derive(Clone, Copy)]
pub(crate) struct Focus<'a> {
    /// The number of its item.
    pub number: u32,
    /// The rule.
    pub rule: &'a Rule,
    /// The order key of its item.
    pub order_key: u64,
    /// No other rule has one of its selectors.
    pub own_selectors: bool,
    /// Each of its declarations is in it once.
    pub once: bool,
}

/// Two rules that may have steps with each other, and what is known of them.
#[derive(Clone, Copy, Debug)]
pub(crate) struct Partners {
    /// The number of the upper one.
    pub upper: u32,
    /// The number of the lower one.
    pub lower: u32,
    /// They have no selector in common.
    pub apart: bool,
    /// Each declaration of the lower one is in it once.
    pub lower_once: bool,
}

/// A step that is tried, and what is known of it.
#[derive(Clone, Copy, Debug)]
pub(crate) struct Attempt {
    /// The step.
    pub step: Step,
    /// The part that it cuts is in its rule once.
    pub part_once: bool,
    /// If it is a step of two items, their rules have no selector in common.
    pub apart: bool,
    /// It goes past a barrier.
    pub past: bool,
}
