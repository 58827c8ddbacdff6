//! Selectors, documents and examples that are read.

ghost use Rattle.std.specs.Prelude.{◌≤◌, IfOk, length};
ghost use Rattle.css_model.specs.Selectors.Profile.{IsInProfile};
ghost use Rattle.css_model.specs.Sheets.Limits.{max_bytes};

use css_model::{Example, Selector};
use doc_text::read_doc;
use sel_parse::{SelError, parse_selector};
use std::alloc::Global;
use std::process::Abort;

/// The selector of a text, if it is one.
fn read(alloc: Global, text: &[u8]) -> Result<Selector, SelError>
    requires { length text.now ≤ max_bytes }
    ensures { IfOk result IsInProfile }
{
    parse_selector(alloc, text)
}

/// The selector of a text.
pub(crate) fn selector(rt: &impl Abort, alloc: Global, text: &str) -> Selector
    ensures { IsInProfile result }
{
    assert!(rt; text.len() <= 1_000, "a long row");
    read(alloc, text.as_bytes()).expect(rt, "a selector")
}

/// The example of a text.
pub(crate) fn example(rt: &impl Abort, alloc: Global, text: &[u8]) -> Example {
    read_doc(alloc, text).expect(rt, "an example")
}

/// These lines after the first line of an example.
pub(crate) fn with_head(rt: &impl Abort, alloc: Global, lines: &str) -> Vec<u8> {
    let mut text = Vec::from_slice(alloc, b"child 0 pseudo none\n").expect(rt, "memory");
    text.extend_from_slice(lines.as_bytes())
        .expect(rt, "memory");
    text
}
