//! Two texts compared as selectors.

ghost use Rattle.std.specs.Prelude.{◌≡◌, IfOk, Ok};
ghost use Rattle.css_model.specs.Selectors.Profile.{IsInProfile};
ghost use Rattle.compare_text.specs.ComparedTexts.{selector_or_reason, AsksFor, IsCompared, IsTextOfAnswer};
ghost use Rattle.overlap.specs.Remembered.{Asks};

use crate::answered::{print_held, print_outside};
use crate::reading::read;
use css_model::Selector;
use overlap::Pairs;
use sel_parse::SelError;
use std::alloc::{AllocError, Global};

/// The lines of the answer for two selectors. The answer is asked for.
fn print_asked(
    alloc: Global,
    pairs: &mut Pairs,
    x: &Selector,
    y: &Selector,
) -> Result<Vec<u8>, AllocError>
    requires first { IsInProfile x.now }
    requires second { IsInProfile y.now }
    ensures asks { Asks pairs.old pairs.new x.now y.now }
    ensures text { IfOk result (λ text. IsTextOfAnswer x.now y.now pairs.new text.items) }
{
    pairs.settle(x, y)?;
    print_held(alloc, pairs, x, y)
}

/// The answer for two texts that are compared as selectors, as lines of bytes (Selectors 3). Each line ends with a line
/// feed. The texts are any bytes.
///
/// | text | when |
/// |---|---|
/// | `disjoint` | no legal document has a target that both match |
/// | `overlap` and a document | it is legal, and both match its marked element |
/// | `outside R` | they are not compared; R is the number of the reason |
/// | `spent` | the budget of the pairs was spent first |
///
/// The reason is that of the left text where it is no selector of the profile, else that of the right one, else that of
/// the pair. The answer is asked of `pairs`, which holds it afterwards. All that was held there stays. `AllocError`
/// where memory runs out; it stays then too.
#[tactic(auto, using(crate::proofs::Asked::asks_nothing))]
pub fn compare_texts(
    alloc: Global,
    pairs: &mut Pairs,
    left: &[u8],
    right: &[u8],
) -> Result<Vec<u8>, AllocError>
    ensures asks { AsksFor (selector_or_reason left.now) (selector_or_reason right.now) pairs.old pairs.new }
    ensures text { IfOk result (λ text.
        IsCompared (selector_or_reason left.now) (selector_or_reason right.now) pairs.new text.items) }
{
    let x = match read(alloc, left) {
        Ok(x) => x,
        Err(SelError::Outside(reason)) => return print_outside(alloc, reason),
        Err(SelError::NoMemory) => return Err(AllocError),
    };
    let y = match read(alloc, right) {
        Ok(y) => y,
        Err(SelError::Outside(reason)) => return print_outside(alloc, reason),
        Err(SelError::NoMemory) => return Err(AllocError),
    };
    print_asked(alloc, pairs, &x, &y)
}
