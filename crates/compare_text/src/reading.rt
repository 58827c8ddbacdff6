//! A selector from a text of any length.

ghost use Rattle.std.specs.Prelude.{◌≡◌, ◌≤◌, length, IfOk};
ghost use Rattle.css_model.specs.Selectors.Profile.{IsInProfile};
ghost use Rattle.css_model.specs.Sheets.Limits.{max_bytes};
ghost use Rattle.compare_text.specs.ComparedTexts.{selector_or_reason};
ghost use Rattle.compare_text.specs.Reading.{Reads};
ghost use Rattle.sel_parse.specs.Answers.{Answers};
ghost use Rattle.css_model.specs.Selectors.Reading.{selector_of};

use css_model::{MAX_BYTES, Reason, Selector};
use sel_parse::{SelError, parse_selector};
use std::alloc::Global;

/// The selector of a short text, or the number of the reason against it.
#[tactic(auto, using(crate::proofs::Texts::short_read, crate::proofs::Texts::in_profile))]
fn read_short(alloc: Global, text: &[u8]) -> Result<Selector, SelError>
    requires { length text.now ≤ max_bytes }
    ensures reads { Reads result (selector_or_reason text.now) }
    ensures in_profile { IfOk result (λ selector. IsInProfile selector) }
{
    parse_selector(alloc, text)
}

/// The selector of a text, or the number of the reason against it. A text of more than 1,048,576 bytes is
/// none, for the reason of a token that is not allowed.
#[tactic(auto, using(crate::proofs::Texts::long_read))]
pub(crate) fn read(alloc: Global, text: &[u8]) -> Result<Selector, SelError>
    ensures reads { Reads result (selector_or_reason text.now) }
    ensures in_profile { IfOk result (λ selector. IsInProfile selector) }
{
    if text.len() > MAX_BYTES as usize {
        return Err(SelError::Outside(Reason::NotAllowed.number()));
    }
    read_short(alloc, text)
}
