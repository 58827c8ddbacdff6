//! Copies of values, and what makes them differ.

use crate::reading::{selector, sheet, text};
use css_model::{Example, Family};
use doc_text::read_doc;
use std::alloc::Global;
use std::hash::{DefaultHasher, Hash, Hasher};
use std::process::Abort;
use std::test::Fail;

/// A sheet's copy is made of copies of all that it holds.
#[test]
fn copies_sheets(rt: HostRuntime) -> Result<(), Fail> {
    let alloc = rt.alloc();
    let original = sheet(
        &rt,
        alloc,
        b"main>a.x::before{color:red}a:is(b){color:red}@x;",
    );
    assert!(rt; original.copy()? == original);
    for source in [
        "main>a.x::before{color:red}a:is(b){color:red}@xx;",
        "main>a.x::before{color:red}a:is(b){color:red}a{color:red}",
    ] {
        let other = sheet(&rt, alloc, source.as_bytes());
        assert!(rt; other != original, "at {source}");
    }
    Ok(())
}

fn example(rt: &impl Abort, alloc: Global, lines: &str) -> Example {
    read_doc(alloc, lines.as_bytes()).expect(rt, "an example")
}

/// The others differ in a count, in the marked line, and in a flag.
#[test]
fn copies_examples(rt: HostRuntime) -> Result<(), Fail> {
    let alloc = rt.alloc();
    let original = example(
        &rt,
        alloc,
        "child 0 pseudo none\n0 1 * x\n1 1 - a +text class=gr%C3%B6%C3%9Fe\n",
    );
    assert!(rt; original.copy()? == original);
    for lines in [
        "child 0 pseudo none\n0 1 * x\n1 2 - a +text class=gr%C3%B6%C3%9Fe\n",
        "child 0 pseudo none\n0 1 - x\n1 1 * a +text class=gr%C3%B6%C3%9Fe\n",
        "child 0 pseudo none\n0 1 * x\n1 1 - a +text :hover class=gr%C3%B6%C3%9Fe\n",
    ] {
        let other = example(&rt, alloc, lines);
        assert!(rt; other != original, "at {lines}");
    }
    Ok(())
}

#[test]
fn copies_families(rt: HostRuntime) -> Result<(), Fail> {
    let alloc = rt.alloc();
    let custom = Family::Custom(text(alloc, "--gap")?);
    let named = Family::Named(text(alloc, "--gap")?);
    assert!(rt; custom.copy()? == custom);
    assert!(rt; named.copy()? == named);
    assert!(rt; Family::All.copy()? == Family::All);
    assert!(rt; named != custom);
    Ok(())
}

fn hash_of<T: Hash>(value: &T) -> u64 {
    let mut hasher = DefaultHasher::new();
    value.hash(&mut hasher);
    hasher.finish()
}

#[test]
fn tells_selectors_apart(rt: HostRuntime) {
    let alloc = rt.alloc();
    let original = selector(&rt, alloc, "main>a.x::before");
    for (text, same) in [
        ("main>a.x::before", true),
        ("main a.x::before", false),
        ("main>a.x::after", false),
        ("main>a.x", false),
    ] {
        let other = selector(&rt, alloc, text);
        assert_eq!(rt; other == original, same, "at {text}");
        assert_eq!(rt; hash_of(&other) == hash_of(&original), same, "at {text}");
    }
}

#[test]
fn tells_texts_apart(rt: HostRuntime) -> Result<(), Fail> {
    let original = text(rt.alloc(), "a")?;
    for (word, same) in [("a", true), ("", false), ("A", false), ("aa", false)] {
        let other = text(rt.alloc(), word)?;
        assert_eq!(rt; other == original, same, "at {word}");
        assert_eq!(rt; hash_of(&other) == hash_of(&original), same, "at {word}");
    }
    Ok(())
}
