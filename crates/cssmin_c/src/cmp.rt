//! The call that compares two selectors.

ghost use Rattle.std.specs.Prelude.{◌≡◌, ◌≢◌, true, IfOk};
ghost use Rattle.cssmin_c.specs.Calls.{Gives, LacksRoom};
ghost use Rattle.cssmin_c.specs.declared.statuses.TheConstants.{DONE, NO_ROOM, REFUSED};
ghost use Rattle.cssmin_c.specs.Statuses.{is_status};
ghost use Rattle.cssmin_c.specs.Texts.{IsComparison};

use crate::giving::give;
use crate::statuses::NO_MEMORY;
use crate::told::Told;
use compare_text::compare_texts;
use overlap::Pairs;
use std::alloc::{AllocError, Global};

/// The text of the answer for two selectors.
#[tactic(auto, using(crate::proofs::Made::comparison))]
fn comparison(alloc: Global, left: &[u8], right: &[u8], budget: u32) -> Result<Vec<u8>, AllocError>
    ensures { IfOk result (λ text. IsComparison budget left.now right.now text.items) }
{
    let mut pairs = Pairs::new(alloc, budget);
    compare_texts(alloc, &mut pairs, left, right)
}

/// Compares the selectors of two texts of any bytes, and puts the text of the answer into `out`: whether some element of
/// a legal document is matched by both (Selectors 3), with such a document, or why a text is not compared. The budget is
/// that of `cssmin_min`.
///
/// `DONE` where the text is in `out`. `NO_ROOM` where it is longer than `out`. `NO_MEMORY` where memory is short.
#[unsafe(no_mangle)]
pub extern "C" fn cssmin_cmp(
    alloc: Global,
    left: &[u8],
    right: &[u8],
    budget: u32,
    out: &mut [u8],
    told: &mut Told,
) -> u32
    ensures status { is_status result ≡ true }
    ensures never_refused { result ≢ REFUSED }
    ensures done { result ≡ DONE → Gives (IsComparison budget left.now right.now) out.old out.new told.old told.new }
    ensures no_room { result ≡ NO_ROOM → LacksRoom (IsComparison budget left.now right.now) out.old told.old told.new }
    ensures no_memory { result ≡ NO_MEMORY → told.new ≡ told.old }
    ensures untouched { result ≢ DONE → out.new ≡ out.old }
{
    match comparison(alloc, left, right, budget) {
        Ok(text) => give(text.as_slice(), out, told),
        Err(AllocError) => NO_MEMORY,
    }
}
