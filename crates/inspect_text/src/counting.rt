//! How many items of a sheet and of its opened bodies are kept.

ghost use Rattle.std.specs.Prelude.{◌≡◌, ◌≤◌, ◌*◌, Ok, length};
ghost use Rattle.std.specs.List.{AllByRecursion, count_by, sum_by};
ghost use Rattle.css_model.specs.Sheets.KeptItems.{is_kept};
ghost use Rattle.css_model.specs.Sheets.Limits.{max_items};
ghost use Rattle.css_model.specs.Sheets.Sheet.{sheet_of};
ghost use Rattle.media_groups.specs.Opened.{opened_of};
ghost use Rattle.inspect_text.specs.InspectTexts as spec;

use css_model::Sheet;
use media_groups::{Media, opened_blocks_are_sheets};
use style_text::kept_count;

/// How many items of the bodies of opened blocks are kept.
fn kept_in_bodies(media: &[Media]) -> usize
    requires few { length media.now ≤ max_items }
    requires bodies { AllByRecursion (λ m. length m.sheet.items ≤ max_items) media.now }
    ensures sum { result ≡ sum_by (λ m. count_by is_kept m.sheet.items) media.now }
    ensures small { result ≤ max_items * length media.now }
{
    let mut count = 0;
    for block in media {
        count += kept_count(&block.sheet.items);
    }
    count
}

/// How many items of a sheet and of its opened bodies are kept; opened blocks do not count. The sheet was read from this
/// source, and these are its opened blocks.
#[tactic(auto, using(crate::proofs::Limits::few_blocks, crate::proofs::Limits::few_in_bodies))]
pub(crate) fn kept_in_all(source: &[u8], sheet: &Sheet, media: &[Media]) -> usize
    requires read { sheet_of source.now ≡ Ok sheet.now.items }
    requires blocks { media.now ≡ opened_of sheet.now.items source.now }
    ensures { result ≡ spec.kept_count source.now sheet.now.items }
{
    // A law, which does nothing.
    opened_blocks_are_sheets();
    let kept = kept_count(&sheet.items);
    let inside = kept_in_bodies(media);
    kept - media.len() + inside
}
