//! The mask of an item or of a pair.

ghost use Rattle.std.specs.Prelude.{◌≡◌};
ghost use Rattle.item_masks.specs.Masks as masks;

/// The bits of an item, or of a pair.
#[derive(Clone, Copy, Debug)]
pub struct ItemMask {
    /// The bits of the families of declarations.
    pub families: u64,
    /// The bits of selectors.
    pub selectors: u64,
}

impl ItemMask {
    /// Whether two masks have bits of both kinds in common.
    pub fn meets(self, other: ItemMask) -> bool
        ensures { result ≡ masks.meets self other }
    {
        self.families & other.families != 0 && self.selectors & other.selectors != 0
    }
}
