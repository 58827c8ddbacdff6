//! Selectors, declarations and pairs as keys of tables. There they are the same wherever they are in a sheet.

use crate::pairs::Placed;
use css_model::{Decl, Selector};
use std::hash::{Hash, Hasher};
use std::marker::Model;

/// A selector of a rule with its number.
#[derive(Drop)]
pub(crate) struct SelectorKey<'a> {
    pub(crate) number: usize,
    pub(crate) selector: &'a Selector,
}

impl<'a> Model for SelectorKey<'a> {
    ghost use Rattle.std.specs.Prelude.{ℕ};
    ghost use Rattle.css_model.specs.Documents.SelectorParts.{SelectorParts};

    ghost Value = { ℕ × SelectorParts };

    ghost view = { λ s. (s.number, s.selector.now) };
}

impl<'a> PartialEq for SelectorKey<'a> {
    ghost use Rattle.std.specs.Cmp.{partial_equiv_from_equiv, on_equiv};
    ghost use Rattle.css_model.proofs.ForCallers.{selector_decides};
    ghost use Rattle.order_laws.specs.Members.{same_selector};
    ghost use Rattle.sheet_order.specs.Sameness.{turned_laws};

    ghost eq = { λ s t. same_selector t.1 s.1 };

    ghost laws = { partial_equiv_from_equiv (on_equiv (λ s. s.1) (turned_laws same_selector selector_decides)) };

    fn eq(&self, other: &SelectorKey<'a>) -> bool {
        *other.selector == *self.selector
    }
}

impl<'a> Eq for SelectorKey<'a> {
    ghost use Rattle.std.specs.Cmp.{on_equiv};
    ghost use Rattle.css_model.proofs.ForCallers.{selector_decides};
    ghost use Rattle.order_laws.specs.Members.{same_selector};
    ghost use Rattle.sheet_order.specs.Sameness.{turned_laws};

    ghost laws = { on_equiv (λ s. s.1) (turned_laws same_selector selector_decides) };
}

impl<'a> Hash for SelectorKey<'a> {
    ghost use Rattle.std.specs.Hash.{on_Alike, same_Alike};
    ghost use Rattle.css_model.proofs.ForCallers.{selector_decides};
    ghost use Rattle.order_laws.specs.Members.{same_selector};
    ghost use Rattle.sheet_order.specs.Sameness.{turned_decides};

    ghost hash_input = { λ s. ⟦<Selector as Hash>⟧.hash_input s.1 };

    ghost respects_eq = { (on_Alike (λ s. s.1) (same_Alike ⟦<Selector as Hash>⟧.hash_input (turned_decides same_selector selector_decides))).fed };

    fn hash<H: Hasher>(&self, state: &mut H) {
        self.selector.hash(state);
    }
}

/// A declaration of a rule with its number.
#[derive(Drop)]
pub(crate) struct DeclKey<'a> {
    pub(crate) number: usize,
    pub(crate) decl: &'a Decl,
}

impl<'a> Model for DeclKey<'a> {
    ghost use Rattle.std.specs.Prelude.{ℕ};
    ghost use Rattle.css_model.specs.declared.sheet.Decl as declared;

    ghost Value = { ℕ × declared.Decl };

    ghost view = { λ d. (d.number, d.decl.now) };
}

impl<'a> PartialEq for DeclKey<'a> {
    ghost use Rattle.std.specs.Cmp.{partial_equiv_from_equiv, on_equiv};
    ghost use Rattle.css_model.proofs.ForCallers.{decl_decides};
    ghost use Rattle.order_laws.specs.Members.{same_decl};
    ghost use Rattle.sheet_order.specs.Sameness.{turned_laws};

    ghost eq = { λ d e. same_decl e.1 d.1 };

    ghost laws = { partial_equiv_from_equiv (on_equiv (λ d. d.1) (turned_laws same_decl decl_decides)) };

    fn eq(&self, other: &DeclKey<'a>) -> bool {
        *other.decl == *self.decl
    }
}

impl<'a> Eq for DeclKey<'a> {
    ghost use Rattle.std.specs.Cmp.{on_equiv};
    ghost use Rattle.css_model.proofs.ForCallers.{decl_decides};
    ghost use Rattle.order_laws.specs.Members.{same_decl};
    ghost use Rattle.sheet_order.specs.Sameness.{turned_laws};

    ghost laws = { on_equiv (λ d. d.1) (turned_laws same_decl decl_decides) };
}

impl<'a> Hash for DeclKey<'a> {
    ghost use Rattle.std.specs.Hash.{on_Alike, same_Alike};
    ghost use Rattle.css_model.proofs.ForCallers.{decl_decides};
    ghost use Rattle.order_laws.specs.Members.{same_decl};
    ghost use Rattle.sheet_order.specs.Sameness.{turned_decides};
    ghost use Rattle.sheet_order.specs.Keys.{decl_fed};

    ghost hash_input = { λ d. decl_fed d.1 };

    ghost respects_eq = { (on_Alike (λ d. d.1) (same_Alike decl_fed (turned_decides same_decl decl_decides))).fed };

    fn hash<H: Hasher>(&self, state: &mut H) {
        self.decl.name.hash(state);
        self.decl.value.bytes().hash(state);
    }
}

/// A pair at one of its places.
#[derive(Drop)]
pub(crate) struct PairKey<'a> {
    pub(crate) placed: Placed<'a>,
}

impl<'a> Model for PairKey<'a> {
    ghost use Rattle.order_laws.specs.Places.{PlacedPair};

    ghost Value = { PlacedPair };

    ghost view = { λ p. p.placed };
}

impl<'a> PartialEq for PairKey<'a> {
    ghost use Rattle.std.specs.Cmp.{partial_equiv_from_equiv, on_equiv};
    ghost use Rattle.order_laws.specs.Members.{same_pair};
    ghost use Rattle.sheet_order.specs.Sameness.{turned_laws, pair_decides};

    ghost eq = { λ p q. same_pair q.pair p.pair };

    ghost laws = { partial_equiv_from_equiv (on_equiv (λ p. p.pair) (turned_laws same_pair pair_decides)) };

    fn eq(&self, other: &PairKey<'a>) -> bool {
        other.placed.is_same(&self.placed)
    }
}

impl<'a> Eq for PairKey<'a> {
    ghost use Rattle.std.specs.Cmp.{on_equiv};
    ghost use Rattle.order_laws.specs.Members.{same_pair};
    ghost use Rattle.sheet_order.specs.Sameness.{turned_laws, pair_decides};

    ghost laws = { on_equiv (λ p. p.pair) (turned_laws same_pair pair_decides) };
}

impl<'a> Hash for PairKey<'a> {
    ghost use Rattle.std.specs.Hash.{on_Alike, same_Alike};
    ghost use Rattle.order_laws.specs.Members.{same_pair};
    ghost use Rattle.sheet_order.specs.Sameness.{turned_decides, pair_decides};
    ghost use Rattle.sheet_order.specs.Keys.{pair_fed};

    ghost hash_input = { λ p. pair_fed p.pair };

    ghost respects_eq = { (on_Alike (λ p. p.pair) (same_Alike pair_fed (turned_decides same_pair pair_decides))).fed };

    fn hash<H: Hasher>(&self, state: &mut H) {
        self.placed.selector.hash(state);
        self.placed.decl.name.hash(state);
        self.placed.decl.value.bytes().hash(state);
    }
}
