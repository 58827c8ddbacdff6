//! A pair, by references to its parts, with its mask.

ghost use Rattle.std.specs.Prelude.{◌≡◌};
ghost use Rattle.item_masks.specs.Masks as masks;

use css_model::{Decl, Selector};
use item_masks::{ItemMask, pair_mask};
use std::marker::Model;

/// References to a selector and a declaration, with the mask of both. The mask is made once.
#[derive(Drop)]
pub struct PairRef<'a> {
    /// The selector.
    pub selector: &'a Selector,
    /// The declaration.
    pub decl: &'a Decl,
    /// The mask.
    pub mask: ItemMask,
    ghost masked: { mask ≡ masks.pair_mask (record { selector = selector.now; decl = decl.now }) },
}

impl<'a> Model for PairRef<'a> {
    ghost use Rattle.css_model.specs.Cascade.Order.{Pair};

    ghost Value = { Pair };

    ghost view = { λ p. record { selector = p.selector.now; decl = p.decl.now } };
}

/// The pair of a selector and a declaration.
pub fn pair_of<'a>(selector: &'a Selector, decl: &'a Decl) -> PairRef<'a>
    ensures { result ≡ record { selector = selector.now; decl = decl.now } }
{
    PairRef {
        selector,
        decl,
        mask: pair_mask(selector, decl),
    }
}
