//! Selectors as keys of sets and maps.

use css_model::Selector;
use std::hash::{Hash, Hasher};
use std::marker::Model;

/// A selector as a key of a set or of a map, without a copy of it. Contracts see it as the selector.
#[derive(Drop)]
pub struct SelectorKey<'a> {
    /// The selector.
    pub selector: &'a Selector,
}

impl<'a> Model for SelectorKey<'a> {
    ghost use Rattle.css_model.specs.Documents.SelectorParts.{SelectorParts};

    ghost Value = { SelectorParts };

    ghost view = { λ s. s.selector.now };
}

impl<'a> PartialEq for SelectorKey<'a> {
    ghost use Rattle.std.specs.Cmp.{decided, partial_equiv_from_equiv};
    ghost use Rattle.css_model.proofs.ForCallers.{selector_decides};
    ghost use Rattle.order_laws.specs.Members.{same_selector};

    ghost eq = { same_selector };

    ghost laws = { partial_equiv_from_equiv (decided same_selector selector_decides) };

    fn eq(&self, other: &SelectorKey<'a>) -> bool {
        *self.selector == *other.selector
    }
}

impl<'a> Eq for SelectorKey<'a> {
    ghost use Rattle.std.specs.Cmp.{decided};
    ghost use Rattle.css_model.proofs.ForCallers.{selector_decides};
    ghost use Rattle.order_laws.specs.Members.{same_selector};

    ghost laws = { decided same_selector selector_decides };
}

impl<'a> Hash for SelectorKey<'a> {
    ghost use Rattle.std.specs.Hash.{same_Alike};
    ghost use Rattle.css_model.proofs.ForCallers.{selector_decides};

    ghost hash_input = { ⟦<Selector as Hash>⟧.hash_input };

    ghost respects_eq = { (same_Alike ⟦<Selector as Hash>⟧.hash_input selector_decides).fed };

    fn hash<H: Hasher>(&self, state: &mut H) {
        self.selector.hash(state);
    }
}
