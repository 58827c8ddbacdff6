//! What the parts of rules weigh: the lengths of their texts, each with the sign after it.

ghost use Rattle.std.specs.Prelude.{◌≡◌, ◌+◌, ◌≤◌, ◌||◌, ◌&&◌, not, ℕ, List, length};
ghost use Rattle.std.specs.List.{AllByRecursion, filter};
ghost use Rattle.css_model.specs.Sheets.Limits.{max_bytes};
ghost use Rattle.css_model.specs.Sheets.Printed.{printed_selector, printed_declaration};
ghost use Rattle.css_model.specs.Sheets.Sound.{IsSoundSelector, IsSoundDeclaration, IsSoundRule};
ghost use Rattle.rule_parts.specs.LastCommon as spec;
ghost use Rattle.order_laws.specs.Members as members;
ghost use Rattle.step_laws.specs.RuleParting as parting;
ghost use Rattle.step_laws.specs.Sizes as sizes;

use crate::members::{has_decl, has_selector};
use css_model::{DeclItem, Rule, SelItem};

/// The lengths of the printed texts of a source's selectors and declarations, in bytes. None of them takes memory.
pub trait Lengths {
    /// The source.
    ghost source: { Self → List ℕ };

    /// The length of a selector's printed text.
    fn selector(&self, item: &SelItem) -> u64
        requires sound { IsSoundSelector (source self.now) item.now }
        requires short { length (printed_selector (source self.now) item.now) ≤ max_bytes }
        ensures { result ≡ length (printed_selector (source self.now) item.now) };

    /// The length of a declaration's printed text.
    fn decl(&self, item: &DeclItem) -> u64
        requires sound { IsSoundDeclaration (source self.now) item.now }
        requires short { length (printed_declaration (source self.now) item.now) ≤ max_bytes }
        ensures { result ≡ length (printed_declaration (source self.now) item.now) };
}

/// The weight of selectors, in bytes: the lengths of their texts, each with the sign after it.
pub fn selectors_weight<L: Lengths>(lengths: &L, items: &[SelItem]) -> u64
    requires sound { AllByRecursion (IsSoundSelector (L.source lengths.now)) items.now }
    requires small { sizes.weight (printed_selector (L.source lengths.now)) items.now ≤ max_bytes }
    ensures exact { result ≡ sizes.weight (printed_selector (L.source lengths.now)) items.now }
    ensures small { result ≤ max_bytes }
{
    let mut total: u64 = 0;
    let mut rest = items;
    'rest: while let Some((first, behind)) = rest.split_first() {
        total += lengths.selector(first) + 1;
        rest = behind;
    }
    total
}

/// The weight of declarations, in bytes: the lengths of their texts, each with the sign after it.
pub fn decls_weight<L: Lengths>(lengths: &L, items: &[DeclItem]) -> u64
    requires sound { AllByRecursion (IsSoundDeclaration (L.source lengths.now)) items.now }
    requires small { sizes.weight (printed_declaration (L.source lengths.now)) items.now ≤ max_bytes }
    ensures exact { result ≡ sizes.weight (printed_declaration (L.source lengths.now)) items.now }
    ensures small { result ≤ max_bytes }
{
    let mut total: u64 = 0;
    let mut rest = items;
    'rest: while let Some((first, behind)) = rest.split_first() {
        total += lengths.decl(first) + 1;
        rest = behind;
    }
    total
}

/// The weight of those of the selectors that are not among the others, in bytes.
pub fn new_selectors_weight<L: Lengths>(lengths: &L, items: &[SelItem], others: &[SelItem]) -> u64
    requires sound { AllByRecursion (IsSoundSelector (L.source lengths.now)) items.now }
    requires small { sizes.weight (printed_selector (L.source lengths.now)) items.now ≤ max_bytes }
    ensures exact { result ≡ sizes.weight (printed_selector (L.source lengths.now)) (filter (λ s. not (members.has_selector others.now s.selector)) items.now) }
    ensures small { result ≤ max_bytes }
{
    let mut total: u64 = 0;
    let mut rest = items;
    'rest: while let Some((first, behind)) = rest.split_first() {
        if !has_selector(others, &first.selector) {
            total += lengths.selector(first) + 1;
        }
        rest = behind;
    }
    total
}

/// The weight of those of the selectors that are among the others, in bytes.
pub fn selectors_among_weight<L: Lengths>(lengths: &L, items: &[SelItem], others: &[SelItem]) -> u64
    requires sound { AllByRecursion (IsSoundSelector (L.source lengths.now)) items.now }
    requires small { sizes.weight (printed_selector (L.source lengths.now)) items.now ≤ max_bytes }
    ensures exact { result ≡ sizes.weight (printed_selector (L.source lengths.now)) (filter (λ s. members.has_selector others.now s.selector) items.now) }
    ensures small { result ≤ max_bytes }
{
    let mut total: u64 = 0;
    let mut rest = items;
    'rest: while let Some((first, behind)) = rest.split_first() {
        if has_selector(others, &first.selector) {
            total += lengths.selector(first) + 1;
        }
        rest = behind;
    }
    total
}

/// The weight of those of the declarations that are among the others, in bytes.
pub fn decls_among_weight<L: Lengths>(lengths: &L, items: &[DeclItem], others: &[DeclItem]) -> u64
    requires sound { AllByRecursion (IsSoundDeclaration (L.source lengths.now)) items.now }
    requires small { sizes.weight (printed_declaration (L.source lengths.now)) items.now ≤ max_bytes }
    ensures exact { result ≡ sizes.weight (printed_declaration (L.source lengths.now)) (filter (λ d. members.has_decl others.now d.decl) items.now) }
    ensures small { result ≤ max_bytes }
{
    let mut total: u64 = 0;
    let mut rest = items;
    'rest: while let Some((first, behind)) = rest.split_first() {
        if has_decl(others, &first.decl) {
            total += lengths.decl(first) + 1;
        }
        rest = behind;
    }
    total
}

/// Whether a declaration is among the others, and not among those after it.
fn is_last_common(decl: &DeclItem, others: &[DeclItem], behind: &[DeclItem]) -> bool
    ensures { result ≡ (members.has_decl others.now decl.now.decl && not (members.has_decl behind.now decl.now.decl)) }
{
    has_decl(others, &decl.decl) && !has_decl(behind, &decl.decl)
}

/// The weight of the declarations that are among the others, each once, where it comes last.
fn last_common_weight<L: Lengths>(lengths: &L, items: &[DeclItem], others: &[DeclItem]) -> u64
    requires sound { AllByRecursion (IsSoundDeclaration (L.source lengths.now)) items.now }
    requires small { sizes.weight (printed_declaration (L.source lengths.now)) items.now ≤ max_bytes }
    ensures exact { result ≡ sizes.weight (printed_declaration (L.source lengths.now)) (spec.last_common others.now items.now) }
    ensures small { result ≤ max_bytes }
{
    let mut total: u64 = 0;
    let mut rest = items;
    'rest: while let Some((first, behind)) = rest.split_first() {
        if is_last_common(first, others, behind) {
            total += lengths.decl(first) + 1;
        }
        rest = behind;
    }
    total
}

/// The weight of those of the declarations that are among the others, each once, where it comes last, in bytes.
pub fn common_decls_weight<L: Lengths>(lengths: &L, items: &[DeclItem], others: &[DeclItem]) -> u64
    requires sound { AllByRecursion (IsSoundDeclaration (L.source lengths.now)) items.now }
    requires small { sizes.weight (printed_declaration (L.source lengths.now)) items.now ≤ max_bytes }
    ensures exact { result ≡ sizes.weight (printed_declaration (L.source lengths.now)) (parting.each_last (filter (λ d. members.has_decl others.now d.decl) items.now)) }
    ensures small { result ≤ max_bytes }
{
    last_common_weight(lengths, items, others)
}
