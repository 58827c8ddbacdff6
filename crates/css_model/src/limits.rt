//! The limits of a style sheet and of a selector that are read.

ghost use Rattle.std.specs.Prelude.{◌≡◌, ◌≤◌, ◌<◌, ◌+◌};
ghost use Rattle.css_model.specs.Sheets.Limits.{LimitsAreDefined};
ghost use Rattle.css_model.specs.Sheets.Sheet.{pairs_of};

use crate::sheet::Item;

/// The greatest length of a style sheet that is read, in bytes.
pub const MAX_BYTES: u32 = 1_048_576;

/// How many brackets may be open at once.
pub const MAX_DEPTH: u32 = 256;

/// How many items a style sheet may have.
pub const MAX_ITEMS: u32 = 16_384;

/// How many pairs of a selector and a declaration the style rules of a sheet may have together.
pub const MAX_PAIRS: u32 = 262_144;

/// How many compounds a selector may have.
pub const MAX_COMPOUNDS: usize = 12;

/// How many simple selectors a compound may have.
pub const MAX_SIMPLES: usize = 32;

/// How many of a selector's positions may have a step of 2 or more in size.
pub const MAX_STEPPED: usize = 4;

/// The limits of this crate are those of the definition of what is read.
pub fn limits_are_defined()
    ensures { LimitsAreDefined }
{}

/// Adds the pairs of a selector and a declaration that an item has to so many.
///
/// The sum is exact where it is [`MAX_PAIRS`] at most. Where it is more, the result is more than [`MAX_PAIRS`].
pub fn with_pairs_of(pairs: u64, item: &Item) -> u64
    ensures few { pairs + pairs_of item.now ≤ MAX_PAIRS → result ≡ pairs + pairs_of item.now }
    ensures many { MAX_PAIRS < pairs + pairs_of item.now → MAX_PAIRS < result }
{
    match item {
        Item::Rule(rule) => {
            let more = (rule.selectors.len() as u64).saturating_mul(rule.decls.len() as u64);
            pairs.saturating_add(more)
        }
        _ => pairs,
    }
}
