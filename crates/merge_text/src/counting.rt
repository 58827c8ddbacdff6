//! How many items sheets have.

ghost use Rattle.std.specs.Prelude.{◌≡◌, ◌≤◌, length, map};
ghost use Rattle.merge_text.specs.Counts.{most_items};
ghost use Rattle.opened_merge_laws.specs.Told.{items_in};

use css_model::Sheet;
use media_groups::Media;

/// How many items a sheet has.
pub(crate) fn count(sheet: &Sheet) -> u32
    requires { length sheet.now.items ≤ most_items }
    ensures { result ≡ length sheet.now.items }
{
    let items = sheet.items.as_slice();
    items.len() as u32
}

/// How many items sheets have together.
pub(crate) fn count_sheets(sheets: &[Sheet]) -> u32
    requires { items_in sheets.now ≤ most_items }
    ensures { result ≡ items_in sheets.now }
{
    let mut n = 0;
    let mut rest = sheets;
    'sheets: while let [sheet, others @ ..] = rest {
        n += count(sheet);
        rest = others;
    }
    n
}

/// How many items the bodies of opened blocks have together.
pub(crate) fn count_bodies(media: &[Media]) -> u32
    requires { items_in (map (λ m. m.sheet) media.now) ≤ most_items }
    ensures { result ≡ items_in (map (λ m. m.sheet) media.now) }
{
    let mut n = 0;
    let mut rest = media;
    'media: while let [m, others @ ..] = rest {
        n += count(&m.sheet);
        rest = others;
    }
    n
}
