//! Texts, selectors and sheets for the tests, read from their words.

ghost use Rattle.std.specs.Prelude.{◌≡◌, Ok};
ghost use Rattle.css_model.specs.Sheets.Sheet.{sheet_of};
ghost use Rattle.css_model.specs.Sheets.Sound.{IsSound};

use css_model::{Selector, Sheet, Text};
use sel_parse::parse_selector;
use sheet_laws::read_is_sound;
use sheet_read::read_sheet;
use std::alloc::{AllocError, Global};
use std::process::Abort;

pub(crate) fn text(alloc: Global, word: &str) -> Result<Text, AllocError> {
    Ok(Text::new(word.chars().collect(alloc)?))
}

pub(crate) fn selector(rt: &impl Abort, alloc: Global, text: &str) -> Selector {
    assert!(rt; text.len() <= 1_048_576);
    parse_selector(alloc, text.as_bytes()).expect(rt, "a selector")
}

/// The sheet of a source that has no fault.
fn read(rt: &impl Abort, alloc: Global, source: &[u8]) -> Sheet
    ensures { sheet_of source.now ≡ Ok result.items }
{
    read_sheet(alloc, source).expect(rt, "a sheet")
}

pub(crate) fn sheet(rt: &impl Abort, alloc: Global, source: &[u8]) -> Sheet
    ensures read { sheet_of source.now ≡ Ok result.items }
    ensures sound { IsSound source.now result.items }
{
    read_is_sound();
    read(rt, alloc, source)
}
