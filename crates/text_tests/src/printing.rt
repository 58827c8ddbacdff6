//! Printed texts of sheets and of their parts, and the lengths of these.

ghost use Rattle.std.specs.Prelude.{◌≤◌, length};
ghost use Rattle.css_model.specs.Sheets.Limits.{max_bytes};
ghost use Rattle.css_model.specs.Sheets.Sound.{IsSoundSelector, IsSoundDeclaration};

use crate::reading::sheet;
use css_model::{DeclItem, Item, SelItem};
use css_print::{decl_len, print_decl, print_len, print_selector, print_sheet, selector_len};
use std::alloc::Global;
use std::process::Abort;
use std::test::Fail;

#[test]
fn prints_sheets(rt: HostRuntime) -> Result<(), Fail> {
    for (source, want) in [
        (&b"/**/"[..], &b""[..]),
        // White space and comments between the parts of rules.
        (
            b"a,./**/b{top : 0;left:1px! important} a,./**/b{top : 0;left:1px! important}",
            b"a,.b{top:0;left:1px!important}a,.b{top:0;left:1px!important}",
        ),
        // Each kind of space between two tokens of a kept item: nothing, comments, and white space; after a token that
        // ends in an open escape; and after a backslash that begins no escape.
        (
            b"@m  a /* */ b/* */(c)\\31/**/ d \\\n {e}\n",
            b"@m a b/**/(c)\\31  d \\\n{e}",
        ),
        // A byte order mark, and an item that begins with one more.
        (b"\xEF\xBB\xBF\xEF\xBB\xBF{a{}}", b" \xEF\xBB\xBF{a{}}"),
    ] {
        assert!(rt; source.len() <= 1_048_576);
        let sheet = sheet(&rt, rt.alloc(), source);
        let text = print_sheet(rt.alloc(), &sheet, source)?;
        assert_eq!(rt; text.as_slice(), want);
        assert_eq!(rt; print_len(&sheet, source), want.len() as u64);
    }
    Ok(())
}

fn prints_selector(
    rt: &impl Abort,
    alloc: Global,
    item: &SelItem,
    source: &[u8],
    want: &str,
) -> Result<(), Fail>
    requires length { length source.now ≤ max_bytes }
    requires sound { IsSoundSelector source.now item.now }
{
    let text = print_selector(alloc, item, source)?;
    assert_eq!(rt; text.as_slice(), want.as_bytes());
    assert_eq!(rt; selector_len(item, source), want.len() as u64);
    Ok(())
}

fn prints_declaration(
    rt: &impl Abort,
    alloc: Global,
    item: &DeclItem,
    source: &[u8],
    want: &str,
) -> Result<(), Fail>
    requires { IsSoundDeclaration source.now item.now }
{
    let text = print_decl(alloc, item, source)?;
    assert_eq!(rt; text.as_slice(), want.as_bytes());
    assert_eq!(rt; decl_len(item, source), want.len() as u64);
    Ok(())
}

#[test]
fn prints_parts(rt: HostRuntime) -> Result<(), Fail> {
    let alloc = rt.alloc();
    let source = b"a,./**/b,b /**/a:nth-child( 2n + 1 ){top : 0;left:1px! important}";
    let sheet = sheet(&rt, alloc, source);
    let [Item::Rule(rule)] = sheet.items.as_slice() else {
        panic!(rt; "another sheet");
    };
    let [kind, class, inside] = rule.selectors.as_slice() else {
        panic!(rt; "other selectors");
    };
    prints_selector(&rt, alloc, kind, source, "a")?;
    prints_selector(&rt, alloc, class, source, ".b")?;
    prints_selector(&rt, alloc, inside, source, "b a:nth-child(odd)")?;
    let [top, left] = rule.decls.as_slice() else {
        panic!(rt; "other declarations");
    };
    prints_declaration(&rt, alloc, top, source, "top:0")?;
    prints_declaration(&rt, alloc, left, source, "left:1px!important")?;
    Ok(())
}
