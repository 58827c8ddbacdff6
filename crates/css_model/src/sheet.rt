//! Style sheets, their items, and pieces of their source.

ghost use Rattle.std.specs.Prelude.{◌≡◌, List, ℕ, IfOk, IsTrue, ◌↔◌};

use crate::bytes::Bytes;
use crate::selector::Selector;
use crate::text::Text;
use std::alloc::AllocError;
use std::marker::Model;

/// A range of a sheet's source, in bytes from 0.
#[derive(Clone, Copy, Debug, PartialEq, Eq, Hash)]
pub struct Piece {
    /// Where it begins.
    pub start: u32,
    /// Where it ends: the place of the first byte after it.
    pub end: u32,
}

/// A declaration (CSS Syntax 3, section 5.4.6).
#[derive(Debug, PartialEq, Eq, Drop)]
pub struct Decl {
    /// The property, decoded and in lower case; a custom property is only decoded.
    pub name: Text,
    /// The printed text of the value, without its importance.
    pub value: Bytes,
    /// Whether it is `!important`.
    pub important: bool,
}

impl Decl {
    /// An equal declaration, in the memory of the allocators of this one's texts. `AllocError` where memory runs out.
    pub fn copy(&self) -> Result<Decl, AllocError>
        ensures { IfOk result (λ d. d ≡ self.now) }
    {
        Ok(Decl {
            name: self.name.copy()?,
            value: self.value.copy()?,
            important: self.important,
        })
    }
}

/// A selector of a rule, and where it is in the source.
#[derive(Debug, PartialEq, Eq, Drop)]
pub struct SelItem {
    /// The selector.
    pub selector: Selector,
    /// Its text in the source.
    pub piece: Piece,
}

impl SelItem {
    /// An equal item, in the memory of the allocators of this one's selector. `AllocError` where memory runs out.
    pub fn copy(&self) -> Result<SelItem, AllocError>
        ensures { IfOk result (λ s. s ≡ self.now) }
    {
        Ok(SelItem {
            selector: self.selector.copy()?,
            piece: self.piece,
        })
    }
}

/// A declaration of a rule, and where it is in the source.
#[derive(Debug, PartialEq, Eq, Drop)]
pub struct DeclItem {
    /// The declaration.
    pub decl: Decl,
    /// Its property in the source.
    pub name: Piece,
    /// Its value in the source.
    pub value: Piece,
}

impl DeclItem {
    /// An equal item, in the memory of the allocators of this one's declaration. `AllocError` where memory runs out.
    pub fn copy(&self) -> Result<DeclItem, AllocError>
        ensures { IfOk result (λ d. d ≡ self.now) }
    {
        Ok(DeclItem {
            decl: self.decl.copy()?,
            name: self.name,
            value: self.value,
        })
    }
}

/// A style rule: each of its declarations applies to what one of its selectors matches
/// (CSS Syntax 3, section 9.1).
#[derive(Debug, Drop)]
pub struct Rule {
    /// The selectors, in the order of the source.
    pub selectors: Vec<SelItem>,
    /// The declarations, in the order of the source.
    pub decls: Vec<DeclItem>,
}

impl Model for Rule {
    ghost use Rattle.css_model.specs.Sheets.RuleParts.{RuleParts};

    ghost Value = { RuleParts };

    ghost view = { λ r. record { selectors = r.selectors.items; decls = r.decls.items } };
}

impl PartialEq for Rule {
    ghost use Rattle.std.specs.Cmp.{and_per, on_per};
    ghost use Rattle.std.specs.Cmp.Lexicographic.{pointwise, lists_per};
    ghost use Rattle.std.specs.Ordering.{on, eq_of_both};
    ghost use Rattle.css_model.specs.contracts.sheet.SelItemPartialEq.TheImpl.Laws.{laws-law as selectors_law};
    ghost use Rattle.css_model.specs.contracts.sheet.DeclItemPartialEq.TheImpl.Laws.{laws-law as decls_law};

    ghost eq = { eq_of_both (on (λ r. r.selectors) (pointwise ⟦<SelItem as PartialEq>⟧.eq))
        (on (λ r. r.decls) (pointwise ⟦<DeclItem as PartialEq>⟧.eq)) };

    ghost laws = { and_per (on_per (λ r. r.selectors) (lists_per selectors_law))
        (on_per (λ r. r.decls) (lists_per decls_law)) };

    fn eq(&self, other: &Rule) -> bool
        ensures eq { result ≡ ⟦<Rule as PartialEq>⟧.eq self.now other.now }
        ensures exact { IsTrue result ↔ (self.now ≡ other.now) }
    {
        self.selectors == other.selectors && self.decls == other.decls
    }
}

impl Eq for Rule {
    ghost use Rattle.std.specs.Cmp.{and_equiv, on_equiv};
    ghost use Rattle.std.specs.Cmp.Lexicographic.{lists_equiv};
    ghost use Rattle.css_model.specs.contracts.sheet.SelItemEq.TheImpl.Laws.{laws-law as selectors_law};
    ghost use Rattle.css_model.specs.contracts.sheet.DeclItemEq.TheImpl.Laws.{laws-law as decls_law};

    ghost laws = { and_equiv (on_equiv (λ r. r.selectors) (lists_equiv selectors_law))
        (on_equiv (λ r. r.decls) (lists_equiv decls_law)) };
}

impl Rule {
    /// An equal rule, in the memory of the allocators of this one's lists. `AllocError` where memory runs out.
    pub fn copy(&self) -> Result<Rule, AllocError>
        ensures { IfOk result (λ r. r ≡ self.now) }
    {
        let selectors = copy_selectors(&self.selectors)?;
        let decls = copy_decl_items(&self.decls)?;
        Ok(Rule { selectors, decls })
    }
}

fn copy_selectors(selectors: &Vec<SelItem>) -> Result<Vec<SelItem>, AllocError>
    ensures { IfOk result (λ copies. copies.items ≡ selectors.now.items) }
{
    let mut copies = Vec::with_capacity(*selectors.allocator(), selectors.len())?;
    for selector in selectors {
        copies.push(selector.copy()?)?;
    }
    Ok(copies)
}

fn copy_decl_items(decls: &Vec<DeclItem>) -> Result<Vec<DeclItem>, AllocError>
    ensures { IfOk result (λ copies. copies.items ≡ decls.now.items) }
{
    let mut copies = Vec::with_capacity(*decls.allocator(), decls.len())?;
    for decl in decls {
        copies.push(decl.copy()?)?;
    }
    Ok(copies)
}

/// A rule with a selector outside the profile. It is printed as it is, up to white space and comments, and is never
/// merged.
#[derive(Debug, Drop)]
pub struct KeptRule {
    /// Its text in the source.
    pub piece: Piece,
    /// Its declarations, in the order of the source.
    pub decls: Vec<Decl>,
    /// Why the rule is kept: the number of the reason for its first selector outside the profile, from 1 to 10.
    pub reason: u32,
}

impl Model for KeptRule {
    ghost use Rattle.css_model.specs.Sheets.KeptRuleParts.{KeptRuleParts};

    ghost Value = { KeptRuleParts };

    ghost view = { λ k. record { piece = k.piece; decls = k.decls.items; reason = k.reason } };
}

impl PartialEq for KeptRule {
    ghost use Rattle.std.specs.Prelude.{nat_eq};
    ghost use Rattle.std.specs.Cmp.{and_per, on_per, partial_equiv_from_equiv, nat_eq_equiv};
    ghost use Rattle.std.specs.Cmp.Lexicographic.{pointwise, lists_per};
    ghost use Rattle.std.specs.Ordering.{on, eq_of_both};
    ghost use Rattle.css_model.specs.contracts.sheet.PiecePartialEq.TheImpl.Laws.{laws-law as piece_law};
    ghost use Rattle.css_model.specs.contracts.sheet.DeclPartialEq.TheImpl.Laws.{laws-law as decls_law};

    ghost eq = { eq_of_both (on (λ k. k.piece) ⟦<Piece as PartialEq>⟧.eq)
        (eq_of_both (on (λ k. k.decls) (pointwise ⟦<Decl as PartialEq>⟧.eq))
        (on (λ k. k.reason) nat_eq)) };

    ghost laws = { and_per (on_per (λ k. k.piece) piece_law)
        (and_per (on_per (λ k. k.decls) (lists_per decls_law))
        (on_per (λ k. k.reason) (partial_equiv_from_equiv nat_eq_equiv))) };

    fn eq(&self, other: &KeptRule) -> bool
        ensures eq { result ≡ ⟦<KeptRule as PartialEq>⟧.eq self.now other.now }
        ensures exact { IsTrue result ↔ (self.now ≡ other.now) }
    {
        self.piece == other.piece && (self.decls == other.decls && self.reason == other.reason)
    }
}

impl Eq for KeptRule {
    ghost use Rattle.std.specs.Cmp.{and_equiv, on_equiv, nat_eq_equiv};
    ghost use Rattle.std.specs.Cmp.Lexicographic.{lists_equiv};
    ghost use Rattle.css_model.specs.contracts.sheet.PieceEq.TheImpl.Laws.{laws-law as piece_law};
    ghost use Rattle.css_model.specs.contracts.sheet.DeclEq.TheImpl.Laws.{laws-law as decls_law};

    ghost laws = { and_equiv (on_equiv (λ k. k.piece) piece_law)
        (and_equiv (on_equiv (λ k. k.decls) (lists_equiv decls_law))
        (on_equiv (λ k. k.reason) nat_eq_equiv)) };
}

impl KeptRule {
    /// An equal rule, in the memory of the allocators of this one's lists. `AllocError` where memory runs out.
    pub fn copy(&self) -> Result<KeptRule, AllocError>
        ensures { IfOk result (λ k. k ≡ self.now) }
    {
        let decls = copy_decls(&self.decls)?;
        Ok(KeptRule {
            piece: self.piece,
            decls,
            reason: self.reason,
        })
    }
}

fn copy_decls(decls: &Vec<Decl>) -> Result<Vec<Decl>, AllocError>
    ensures { IfOk result (λ copies. copies.items ≡ decls.now.items) }
{
    let mut copies = Vec::with_capacity(*decls.allocator(), decls.len())?;
    for decl in decls {
        copies.push(decl.copy()?)?;
    }
    Ok(copies)
}

/// A part of a sheet: a style rule, a kept rule or a kept block.
#[derive(Debug, PartialEq, Eq, Drop)]
pub enum Item {
    /// A style rule.
    Rule(Rule),
    /// A rule that applies its own declarations, to elements that nobody here knows.
    KeptRule(KeptRule),
    /// An at-rule, a rule with a nested entry, or what comes before an `@import`, by its text in the source. It may
    /// apply anything.
    KeptBlock(Piece),
}

impl Item {
    /// An equal item, in the memory of the allocators of this one's lists. `AllocError` where memory runs out.
    pub fn copy(&self) -> Result<Item, AllocError>
        ensures { IfOk result (λ i. i ≡ self.now) }
    {
        match self {
            Item::Rule(rule) => Ok(Item::Rule(rule.copy()?)),
            Item::KeptRule(rule) => Ok(Item::KeptRule(rule.copy()?)),
            Item::KeptBlock(piece) => Ok(Item::KeptBlock(*piece)),
        }
    }
}

/// A style sheet.
#[derive(Debug, Drop)]
pub struct Sheet {
    /// Its items, in the order of the source.
    pub items: Vec<Item>,
}

impl Model for Sheet {
    ghost use Rattle.css_model.specs.Sheets.SheetParts.{SheetParts};

    ghost Value = { SheetParts };

    ghost view = { λ s. record { items = s.items.items } };
}

impl PartialEq for Sheet {
    ghost use Rattle.std.specs.Cmp.{on_per};
    ghost use Rattle.std.specs.Cmp.Lexicographic.{pointwise, lists_per};
    ghost use Rattle.std.specs.Ordering.{on};
    ghost use Rattle.css_model.specs.contracts.sheet.ItemPartialEq.TheImpl.Laws.{laws-law as items_law};

    ghost eq = { on (λ s. s.items) (pointwise ⟦<Item as PartialEq>⟧.eq) };

    ghost laws = { on_per (λ s. s.items) (lists_per items_law) };

    fn eq(&self, other: &Sheet) -> bool
        ensures eq { result ≡ ⟦<Sheet as PartialEq>⟧.eq self.now other.now }
        ensures exact { IsTrue result ↔ (self.now ≡ other.now) }
    {
        self.items == other.items
    }
}

impl Eq for Sheet {
    ghost use Rattle.std.specs.Cmp.{on_equiv};
    ghost use Rattle.std.specs.Cmp.Lexicographic.{lists_equiv};
    ghost use Rattle.css_model.specs.contracts.sheet.ItemEq.TheImpl.Laws.{laws-law as items_law};

    ghost laws = { on_equiv (λ s. s.items) (lists_equiv items_law) };
}

impl Sheet {
    /// An equal sheet, in the memory of the allocators of this one's lists. `AllocError` where memory runs out.
    pub fn copy(&self) -> Result<Sheet, AllocError>
        ensures { IfOk result (λ s. s ≡ self.now) }
    {
        let items = copy_items(&self.items)?;
        Ok(Sheet { items })
    }
}

fn copy_items(items: &Vec<Item>) -> Result<Vec<Item>, AllocError>
    ensures { IfOk result (λ copies. copies.items ≡ items.now.items) }
{
    let mut copies = Vec::with_capacity(*items.allocator(), items.len())?;
    for item in items {
        copies.push(item.copy()?)?;
    }
    Ok(copies)
}
