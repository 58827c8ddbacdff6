//! What selector texts are read as.

use crate::reading::selector;
use css_model::Selector;
use sel_parse::{SelError, parse_selector};
use std::alloc::{AllocError, Global};
use std::process::Abort;
use std::test::Fail;

/// The selector of a text, or why it is none.
fn read(rt: &impl Abort, alloc: Global, text: &[u8]) -> Result<Selector, SelError> {
    assert!(rt; text.len() <= 1_048_576);
    parse_selector(alloc, text)
}

#[test]
fn refuses_texts_outside_the_profile(rt: HostRuntime) {
    for (text, reason) in [
        ("a:is(b)", 1),
        (":not", 1),
        (":not(:foo)", 1),
        ("::foo", 2),
        ("::before(", 2),
        ("x|y", 3),
        ("[a|/**/=b]", 3),
        (":nth-child(2n+|)", 3),
        ("[a=b i]", 4),
        ("[id~=5]", 5),
        ("li:nth-child(33n)", 8),
        ("[a~/**/=b]", 10),
        (":not(:not(a))", 10),
        (":nth-child(2 n)", 10),
        ("--x", 10),
        ("a\\", 10),
        ("a >", 10),
        ("a::before b", 10),
        (". a", 10),
        ("", 10),
    ] {
        let read = read(&rt, rt.alloc(), text.as_bytes());
        assert!(rt; read == Err(SelError::Outside(reason)), "at {text}");
    }
}

#[test]
fn reads_texts_of_the_profile(rt: HostRuntime) {
    for text in [
        " a /**/ ",
        "\u{FEFF}b",
        "\\--x",
        ":NOT( * )",
        "[ id = 'x' ]",
        "[ID]",
        "a:before",
        "::FIRST-line",
        "a/**/ /**/b",
        ":/**/hover",
        ":nth-last-child( /**/ ODD )",
    ] {
        assert!(rt; read(&rt, rt.alloc(), text.as_bytes()).is_ok(), "at {text}");
    }
}

/// A text as many times as this, one after another.
fn repeated(alloc: Global, piece: &str, times: usize) -> Result<String, AllocError> {
    let mut text = String::new(alloc);
    for _ in 0..times {
        text.push_str(piece)?;
    }
    Ok(text)
}

#[test]
fn reads_up_to_each_limit(rt: HostRuntime) -> Result<(), Fail> {
    let alloc = rt.alloc();
    for (piece, most, reason) in [(" *", 12, 6), (".a", 32, 7), (":nth-child(2n)", 4, 9)] {
        let within = repeated(alloc, piece, most)?;
        let beyond = repeated(alloc, piece, most + 1)?;
        assert!(rt; read(&rt, alloc, within.as_bytes()).is_ok(), "at {piece}");
        let refused = read(&rt, alloc, beyond.as_bytes());
        assert!(rt; refused == Err(SelError::Outside(reason)), "at {piece}");
    }
    Ok(())
}

/// The parts of a selector come from right to left, and its names are in lower case.
#[test]
fn reads_each_part(rt: HostRuntime) -> Result<(), Fail> {
    let selector = selector(&rt, rt.alloc(), "A[B|=c]>:not(:hover)+#d::after");
    let parts = format!(in rt.alloc(); "{selector:?}")?;
    assert_eq!(rt;
        parts.as_str(),
        "Selector { chain: [\
         Compound { simples: [Simple { negated: false, test: Id(Text { codes: ['d'] }) }] }, \
         Compound { simples: [Simple { negated: true, test: State(Hover) }] }, \
         Compound { simples: [Simple { negated: false, test: Kind(Text { codes: ['a'] }) }, \
         Simple { negated: false, test: Attr(AttrTest { \
         name: Text { codes: ['b'] }, op: Dash, value: Text { codes: ['c'] } }) }] }], \
         links: [Next, Child], pseudo: Some(After), digest: 2312787875 }"
    );
    Ok(())
}
