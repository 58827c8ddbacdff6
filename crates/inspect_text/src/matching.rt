//! The selectors of a rule that match.

ghost use Rattle.std.specs.Prelude.{◌≡◌, ◌≤◌, ◌++◌, length, IfOk, OnOk};
ghost use Rattle.std.specs.List.{AllByRecursion, enumerate_from};
ghost use Rattle.cascade_eval.specs.Entries.{IsSmall};
ghost use Rattle.css_model.specs.Documents.Matching.{matches};
ghost use Rattle.css_model.specs.Documents.RunDocuments.{KeepsRules, expand, target_of};
ghost use Rattle.css_model.specs.Sheets.Limits.{max_bytes};
ghost use Rattle.css_model.specs.Sheets.Sound.{IsSoundSelector};
ghost use Rattle.inspect_laws.specs.Entries as spec;

use cascade_eval::matches_in;
use css_model::{Example, SelItem, Specificity, specificity};
use css_print::print_selector;
use std::alloc::{AllocError, Global};
use std::marker::Model;

/// A selector of a rule that matches.
#[derive(Drop)]
pub(crate) struct Matching {
    /// Its number in the rule, from 0.
    pub(crate) number: usize,
    /// Its specificity.
    pub(crate) weight: Specificity,
    /// Its printed text.
    pub(crate) text: Vec<u8>,
}

impl Model for Matching {
    ghost use Rattle.inspect_laws.specs.Entries as spec;

    ghost Value = { spec.Matching };

    ghost view = { λ m. record { number = m.number; specificity = m.weight; text = m.text.items } };
}

/// Puts the selector of this number after those that match, if it matches.
fn push_matching(
    found: &mut Vec<Matching>,
    alloc: Global,
    x: &Example,
    source: &[u8],
    number: usize,
    s: &SelItem,
) -> Result<(), AllocError>
    requires rules { KeepsRules x.now }
    requires small { IsSmall s.now.selector }
    requires short { length source.now ≤ max_bytes }
    requires sound { IsSoundSelector source.now s.now }
    ensures { OnOk result (found.new.items
        ≡ found.old.items ++ spec.matching_of (matches (expand x.now) (target_of x.now)) source.now (number, s.now)) }
{
    if matches_in(alloc, x, &s.selector)? {
        let text = print_selector(alloc, s, source)?;
        found.push(Matching {
            number,
            weight: specificity(&s.selector),
            text,
        })?;
    }
    Ok(())
}

/// The selectors of a rule that match the marked element of an example, in their order.
pub(crate) fn matching_in(
    alloc: Global,
    x: &Example,
    source: &[u8],
    selectors: &[SelItem],
) -> Result<Vec<Matching>, AllocError>
    requires rules { KeepsRules x.now }
    requires small { AllByRecursion (λ s. IsSmall s.selector) selectors.now }
    requires short { length source.now ≤ max_bytes }
    requires sound { AllByRecursion (IsSoundSelector source.now) selectors.now }
    ensures { IfOk result (λ found. found.items
        ≡ spec.matching_in (matches (expand x.now) (target_of x.now)) source.now (enumerate_from 0 selectors.now)) }
{
    let mut found = Vec::new(alloc);
    let mut number = 0;
    let mut rest = selectors;
    'selectors: while let [s, others @ ..] = rest {
        push_matching(&mut found, alloc, x, source, number, s)?;
        number += 1;
        rest = others;
    }
    Ok(found)
}
