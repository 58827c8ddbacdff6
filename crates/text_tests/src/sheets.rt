//! Small sheets of every kind, with what each is read as.
//!
//! An item is written by its kind:
//!
//! - A rule: the places of its selectors, and of each declaration the places of its name and of its value, the property
//!   and the value.
//! - A kept rule: its place, the reason and the declarations.
//! - A kept block: its place.
//!
//! `!` is written for importance. A fault is written as it is displayed.

use css_model::{Decl, Item};
use sheet_read::{SheetError, read_sheet};
use std::alloc::{AllocError, Global};
use std::test::Fail;

/// What a sheet is read as, as a text.
fn told(alloc: Global, source: &[u8]) -> Result<String, AllocError> {
    let mut text = String::new(alloc);
    match read_sheet(alloc, source) {
        Ok(sheet) => {
            for item in &sheet.items {
                if !text.is_empty() {
                    text.push_str(" / ")?;
                }
                tell_item(&mut text, item)?;
            }
        }
        Err(SheetError::Fault(fault)) => write!(text, "{fault}")?,
        Err(SheetError::NoMemory) => text.push_str("no memory")?,
    }
    Ok(text)
}

fn tell_item(text: &mut String, item: &Item) -> Result<(), AllocError> {
    match item {
        Item::Rule(rule) => {
            text.push_str("rule")?;
            for selector in &rule.selectors {
                write!(text, " {}-{}", selector.piece.start, selector.piece.end)?;
            }
            text.push_str(" {")?;
            for item in &rule.decls {
                write!(text, "{}-{} ", item.name.start, item.name.end)?;
                write!(text, "{}-{} ", item.value.start, item.value.end)?;
                tell_decl(text, &item.decl)?;
            }
            text.push_str("}")
        }
        Item::KeptRule(kept) => {
            write!(
                text,
                "kept {}-{} {} {{",
                kept.piece.start, kept.piece.end, kept.reason
            )?;
            for decl in &kept.decls {
                tell_decl(text, decl)?;
            }
            text.push_str("}")
        }
        Item::KeptBlock(piece) => write!(text, "block {}-{}", piece.start, piece.end),
    }
}

fn tell_decl(text: &mut String, decl: &Decl) -> Result<(), AllocError> {
    for c in decl.name.codes() {
        text.push(*c)?;
    }
    text.push_str(":")?;
    text.push_str(std::str::from_utf8(decl.value.bytes()).unwrap_or("?"))?;
    text.push_str(if decl.important { " !;" } else { ";" })
}

/// Rules of selectors that are read.
const RULES: [(&str, &str); 20] = [
    ("", ""),
    (" \n\t", ""),
    ("/**/", ""),
    ("a{top:0}", "rule 0-1 {2-5 6-7 top:0;}"),
    (" a { top : 0 ; } ", "rule 1-2 {5-8 11-12 top:0;}"),
    (".a{top:0}", "rule 0-2 {3-6 7-8 top:0;}"),
    ("#a{top:0}", "rule 0-2 {3-6 7-8 top:0;}"),
    ("A{TOP:0}", "rule 0-1 {2-5 6-7 top:0;}"),
    ("a,.b,#c{top:0}", "rule 0-1 2-4 5-7 {8-11 12-13 top:0;}"),
    ("a , b{top:0;}", "rule 0-1 4-5 {6-9 10-11 top:0;}"),
    ("a,/**/b{top:0}", "rule 0-1 6-7 {8-11 12-13 top:0;}"),
    ("./**/a{top:0}", "rule 0-6 {7-10 11-12 top:0;}"),
    ("a\r\n{top:0}", "rule 0-1 {4-7 8-9 top:0;}"),
    ("é{top:0}", "rule 0-2 {3-6 7-8 top:0;}"),
    ("\u{FEFF}a{top:0}", "rule 3-4 {5-8 9-10 top:0;}"),
    (
        "a{top:0;top:1px}",
        "rule 0-1 {2-5 6-7 top:0;8-11 12-15 top:1px;}",
    ),
    (
        "a{top:0}/**/b{left:0}",
        "rule 0-1 {2-5 6-7 top:0;} / rule 12-13 {14-18 19-20 left:0;}",
    ),
    ("a{}", ""),
    ("a{}b{top:0}", "rule 3-4 {5-8 9-10 top:0;}"),
    ("a{;}", ""),
];

/// Rules of selectors of more than one part.
const SELECTORS: [(&str, &str); 10] = [
    ("*{top:0}", "rule 0-1 {2-5 6-7 top:0;}"),
    ("a b{top:0}", "rule 0-3 {4-7 8-9 top:0;}"),
    ("a:hover{top:0}", "rule 0-7 {8-11 12-13 top:0;}"),
    (
        " a > b , c::before {top:0}",
        "rule 1-6 9-18 {20-23 24-25 top:0;}",
    ),
    ("a/**/ b{top:0}", "rule 0-7 {8-11 12-13 top:0;}"),
    ("[id=\"b,{c\"]{top:0}", "rule 0-11 {12-15 16-17 top:0;}"),
    (
        ":not( [a|=b] ),:nth-child( 2n + 1 ){top:0}",
        "rule 0-14 15-35 {36-39 40-41 top:0;}",
    ),
    (
        "a a a a a a a a a a a a{top:0}",
        "rule 0-23 {24-27 28-29 top:0;}",
    ),
    (
        "a:nth-child(2n):nth-child(3n):nth-child(4n):nth-child(5n){top:0}",
        "rule 0-57 {58-61 62-63 top:0;}",
    ),
    ("a b{}", ""),
];

/// Rules with a selector outside the profile, and the reason against the first such one.
const KEPT_RULES: [(&str, &str); 20] = [
    ("a:is(b,c){top:0}", "kept 0-16 1 {top:0;}"),
    ("a::marker{top:0}", "kept 0-16 2 {top:0;}"),
    ("a|b{top:0}", "kept 0-10 3 {top:0;}"),
    ("[a=b i]{top:0}", "kept 0-14 4 {top:0;}"),
    ("[id^=a]{top:0}", "kept 0-14 5 {top:0;}"),
    ("a a a a a a a a a a a a a{top:0}", "kept 0-32 6 {top:0;}"),
    (":nth-child(33n){top:0}", "kept 0-22 8 {top:0;}"),
    (
        "a:nth-child(2n):nth-child(3n):nth-child(4n):nth-child(5n) b:nth-child(6n){top:0}",
        "kept 0-80 9 {top:0;}",
    ),
    (". a{top:0}", "kept 0-10 10 {top:0;}"),
    ("--a{top:0}", "kept 0-10 10 {top:0;}"),
    ("{top:0}", "kept 0-7 10 {top:0;}"),
    ("a,{top:0}", "kept 0-9 10 {top:0;}"),
    ("a,/**/,b:is(c){top:0}", "kept 0-21 10 {top:0;}"),
    ("a[{}]{top:0}", "kept 0-12 10 {top:0;}"),
    ("a:is(b){}", "kept 0-9 1 {}"),
    (
        "a,b:is(c){top:0;left:0!important}",
        "kept 0-33 1 {top:0;left:0 !;}",
    ),
    ("a:is(b),c|d{top:0}", "kept 0-18 1 {top:0;}"),
    ("a b,c|d,a:is(b){top:0}", "kept 0-22 3 {top:0;}"),
    ("a,c|d:is(b){top:0}", "kept 0-18 3 {top:0;}"),
    (
        " a:is(b){top:0} c{top:0}",
        "kept 1-15 1 {top:0;} / rule 16-17 {18-21 22-23 top:0;}",
    ),
];

/// Where items begin and end.
const ITEMS: [(&str, &str); 24] = [
    ("a", ""),
    ("a{top:0}b", "rule 0-1 {2-5 6-7 top:0;}"),
    ("a;b{top:0}", "kept 0-10 10 {top:0;}"),
    (";a{top:0}", "kept 0-9 10 {top:0;}"),
    ("}", ""),
    ("a}b{top:0}", "kept 0-10 10 {top:0;}"),
    (")a{top:0}", "kept 0-9 10 {top:0;}"),
    (
        "a{top:0}}b{left:0}",
        "rule 0-1 {2-5 6-7 top:0;} / kept 8-18 10 {left:0;}",
    ),
    ("@media print{a{top:0}}", "block 0-22"),
    ("@charset \"x\";", "block 0-13"),
    ("@a", "block 0-2"),
    ("@a b c ", "block 0-6"),
    ("@a }", "block 0-4"),
    (
        "@a;@b{}c{top:0}",
        "block 0-3 / block 3-7 / rule 7-8 {9-12 13-14 top:0;}",
    ),
    ("@b{};@c", "block 0-4"),
    ("@a(;){}", "block 0-7"),
    ("@a[{}];", "block 0-7"),
    ("a{top:0} @a", "rule 0-1 {2-5 6-7 top:0;} / block 9-11"),
    (
        "a{top:0}<!--b{left:0}-->c{left:1px}",
        "rule 0-1 {2-5 6-7 top:0;} / rule 12-13 {14-18 19-20 left:0;} / rule 24-25 {26-30 31-34 left:1px;}",
    ),
    ("<!-- a{top:0}", "rule 5-6 {7-10 11-12 top:0;}"),
    ("-->", ""),
    ("a <!-- b{top:0}", "kept 0-15 10 {top:0;}"),
    ("a{<!--top:0}", ""),
    ("@a<!--;", "block 0-7"),
];

/// What `@import` does to what comes before it.
const IMPORTS: [(&str, &str); 11] = [
    (
        "@import \"x\";a{top:0}",
        "block 0-12 / rule 12-13 {14-17 18-19 top:0;}",
    ),
    (
        "a{top:0}@import \"x\";a{top:0}",
        "block 0-8 / block 8-20 / rule 20-21 {22-25 26-27 top:0;}",
    ),
    (
        "@import \"x\";a{top:0}@import \"y\";b{left:0}",
        "block 0-12 / block 12-20 / block 20-32 / rule 32-33 {34-38 39-40 left:0;}",
    ),
    ("a{}@import \"x\";", "block 0-3 / block 3-15"),
    ("a{top:0}@IMPORT \"x\";", "block 0-8 / block 8-20"),
    ("a{top:0}@\\69mport \"x\";", "block 0-8 / block 8-22"),
    (
        "a{top:0}@imports \"x\";",
        "rule 0-1 {2-5 6-7 top:0;} / block 8-21",
    ),
    ("a{top:0}@import", "block 0-8 / block 8-15"),
    ("a@import \"x\";b{top:0}", "kept 0-21 10 {top:0;}"),
    (
        "a{top:0}@media print{@import \"x\";}",
        "rule 0-1 {2-5 6-7 top:0;} / block 8-34",
    ),
    (
        "b@import{} a{top:0}",
        "kept 0-10 10 {} / rule 11-12 {13-16 17-18 top:0;}",
    ),
];

/// Entries of a block.
const ENTRIES: [(&str, &str); 16] = [
    ("a{top 0}", ""),
    ("a{0:top}", ""),
    (
        "a{top:0;;left:0}",
        "rule 0-1 {2-5 6-7 top:0;9-13 14-15 left:0;}",
    ),
    ("a{*top:0;left:0}", "rule 0-1 {9-13 14-15 left:0;}"),
    ("a{_top:0}", "rule 0-1 {2-6 7-8 _top:0;}"),
    ("a{t\\6fp:0}", "rule 0-1 {2-7 8-9 top:0;}"),
    (
        "a{top:0;&:hover{left:0}}a{left:1px}",
        "block 0-24 / rule 24-25 {26-30 31-34 left:1px;}",
    ),
    ("a{b{top:0}}", "block 0-11"),
    ("a{top:{}}", "block 0-9"),
    ("a{@media print{top:0}}", "block 0-22"),
    ("a{@namespace x;top:0}", "block 0-21"),
    ("a b{c{top:0}}", "block 0-13"),
    ("a{--x:{b:c}}", "rule 0-1 {2-5 6-11 --x:{b:c};}"),
    (
        "a{--x:{b:c;d:e};top:0}",
        "rule 0-1 {2-5 6-15 --x:{b:c;d:e};16-19 20-21 top:0;}",
    ),
    ("a{--X:y}", "rule 0-1 {2-5 6-7 --X:y;}"),
    ("a{top:({})}", "rule 0-1 {2-5 6-10 top:({});}"),
];

/// Values, and their importance.
const VALUES: [(&str, &str); 26] = [
    ("a{top:}", "rule 0-1 {2-5 6-6 top:;}"),
    ("a{top: }", "rule 0-1 {2-5 6-6 top:;}"),
    ("a{--x:}", "rule 0-1 {2-5 6-6 --x:;}"),
    ("a{--x: }", "rule 0-1 {2-5 6-7 --x: ;}"),
    ("a{--x:/**/}", "rule 0-1 {2-5 6-6 --x:;}"),
    ("a{--x: y }", "rule 0-1 {2-5 7-8 --x:y;}"),
    ("a{top:0!important}", "rule 0-1 {2-5 6-7 top:0 !;}"),
    ("a{top:0 ! IMPORTANT }", "rule 0-1 {2-5 6-7 top:0 !;}"),
    ("a{top:0!/**/important;}", "rule 0-1 {2-5 6-7 top:0 !;}"),
    ("a{top:0!imp\\6frtant}", "rule 0-1 {2-5 6-7 top:0 !;}"),
    (
        "a{top:0!important!important}",
        "rule 0-1 {2-5 6-17 top:0!important !;}",
    ),
    ("a{top:!important}", "rule 0-1 {2-5 6-6 top: !;}"),
    ("a{--x: !important}", "rule 0-1 {2-5 6-7 --x:  !;}"),
    ("a{top:0!}", "rule 0-1 {2-5 6-8 top:0!;}"),
    ("a{top:0 important}", "rule 0-1 {2-5 6-17 top:0 important;}"),
    (
        "a{top:0!important 1}",
        "rule 0-1 {2-5 6-19 top:0!important 1;}",
    ),
    (
        "a{top:(!important)}",
        "rule 0-1 {2-5 6-18 top:(!important);}",
    ),
    ("a{top:b:c}", "rule 0-1 {2-5 6-9 top:b:c;}"),
    ("a{top:b \n/* x */ c}", "rule 0-1 {2-5 6-18 top:b c;}"),
    ("a{top:b/* x */c}", "rule 0-1 {2-5 6-15 top:b/**/c;}"),
    (
        "a{top:(;);left:0}",
        "rule 0-1 {2-5 6-9 top:(;);10-14 15-16 left:0;}",
    ),
    ("a{top:[;]}", "rule 0-1 {2-5 6-9 top:[;];}"),
    ("a{top:f( b,c )}", "rule 0-1 {2-5 6-14 top:f( b,c );}"),
    ("a{top:url( x )}", "rule 0-1 {2-5 6-14 top:url( x );}"),
    ("a{top:(]})}", "rule 0-1 {2-5 6-10 top:(]});}"),
    ("a{top:\"}\"}", "rule 0-1 {2-5 6-9 top:\"}\";}"),
];

/// Faults of tokens, of brackets and of `@namespace`.
const FAULTS: [(&str, &str); 20] = [
    ("a{b:\"x", "EndInside at 4"),
    ("a{b:\"x\ny\"}", "BadString at 4"),
    ("a{b:url(x y)}", "BadUrl at 4"),
    ("/*", "EndInside at 0"),
    ("a{/*", "EndInside at 2"),
    ("a{top:0}\\", "EndInside at 8"),
    ("a{", "EndInside at 1"),
    ("(", "EndInside at 0"),
    ("@a f(", "EndInside at 3"),
    ("a{top:f(b", "EndInside at 1"),
    ("a{top:(}", "EndInside at 1"),
    ("@media x{a", "EndInside at 8"),
    ("()[", "EndInside at 2"),
    ("a{}(b[)", "EndInside at 3"),
    ("@namespace \"u\";", "Namespace at 0"),
    ("a{top:0}@NameSpace x;", "Namespace at 8"),
    (
        "@import \"x\";@namespace x;@namespace y;",
        "Namespace at 12",
    ),
    ("a{top:0} @n\\61mespace", "Namespace at 9"),
    ("@namespace x;a{", "EndInside at 14"),
    ("@namespace x;\"", "EndInside at 13"),
];

/// Sources that are not UTF-8.
const NOT_UTF8: [(&[u8], &str); 3] = [
    (b"\xFF", "NotUtf8 at 0"),
    (b"a{b:\"\xC3", "NotUtf8 at 5"),
    (b"a\xED\xA0\x80\"", "NotUtf8 at 1"),
];

#[test]
fn reads_sheets(rt: HostRuntime) -> Result<(), Fail> {
    for rows in [
        &RULES[..],
        &SELECTORS,
        &KEPT_RULES,
        &ITEMS,
        &IMPORTS,
        &ENTRIES,
        &VALUES,
        &FAULTS,
    ] {
        for (source, want) in rows {
            let said = told(rt.alloc(), source.as_bytes())?;
            assert_eq!(rt; said.as_str(), *want, "of {source}");
        }
    }
    for (source, want) in NOT_UTF8 {
        let said = told(rt.alloc(), source)?;
        assert_eq!(rt; said.as_str(), want, "of {source:?}");
    }
    Ok(())
}
