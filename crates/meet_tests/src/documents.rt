//! Texts of documents that are read and printed.

use crate::reading::{example, with_head};
use doc_text::{DocError, print_doc, read_doc};
use std::alloc::Global;
use std::process::Abort;

/// A text is read, and the example that it is read as is printed as that text.
fn reads_back(rt: &impl Abort, alloc: Global, text: &str) {
    let example = example(rt, alloc, text.as_bytes());
    let printed = print_doc(alloc, &example).expect(rt, "memory");
    assert!(rt; printed.as_slice() == text.as_bytes(), "at {text}");
}

#[test]
fn texts_are_read_back(rt: HostRuntime) {
    let alloc = rt.alloc();
    for text in [
        "child 0 pseudo none\n0 1 - x\n1 1 * x\n1 4 - x\n",
        "child 1 pseudo none\n0 1 * html\n",
        "child 0 pseudo first-line\n0 1 - x\n1 1 * a +text :link :hover id=\n",
        "child 0 pseudo before\n0 1 - x\n1 1 * x class=icon-a%20b%20a\n",
        "child 1 pseudo after\n0 1 - a\n1 1 - b\n2 3 - c\n1 4294967295 - d\n1 1 * e\n",
        "child 0 pseudo first-letter\n0 1 * %C3%A9_-Z9 :visited :checked A=%25 a=%3D b=%0A\n",
    ] {
        reads_back(&rt, alloc, text);
    }
}

/// Whether a text is refused because of this line.
fn is_blamed(alloc: Global, text: &[u8], line: u32) -> bool {
    read_doc(alloc, text) == Err(DocError::BadLine(line))
}

#[test]
fn which_line_is_to_blame(rt: HostRuntime) {
    let alloc = rt.alloc();
    for text in [
        "",
        "\n",
        "child 0 pseudo none",
        "child 0 pseudo none\n",
        "child 2 pseudo none\n0 1 * x\n",
        "child 0 pseudo first\n0 1 * x\n",
        "child 0 pseudo none \n0 1 * x\n",
    ] {
        assert!(rt; is_blamed(alloc, text.as_bytes(), 1), "at {text}");
    }
    for (lines, line) in [
        ("0 1 - x\n", 2),
        ("0 1 * x", 2),
        ("0 2 * x\n", 2),
        ("1 1 * x\n", 2),
        ("0 1 * x\n\n", 3),
        ("0 1 - x\n0 1 * x\n", 3),
        ("0 1 - x\n2 1 * x\n", 3),
        ("0 1 - x\n1 0 * x\n", 3),
        ("0 1 - x\n1 2 * x\n", 3),
        ("0 1 * x\n1 1 * x\n", 3),
        ("0 1 - x\n1 2 - x\n2 1 * x\n", 4),
        ("0 1 - x\n1 1 - x\n1 1 - x\n", 4),
        // other spellings
        ("00 1 * x\n", 2),
        ("+0 1 * x\n", 2),
        ("0 01 * x\n", 2),
        ("0 4294967297 * x\n", 2),
        ("0 1 + x\n", 2),
        ("0 1 * \n", 2),
        ("0  1 * x\n", 2),
        ("0 1 * x \n", 2),
        ("0 1 * x\r\n", 2),
        ("0 1 * x :hover :link\n", 2),
        ("0 1 * x :link :link\n", 2),
        ("0 1 * x :link +text\n", 2),
        ("0 1 * x :open\n", 2),
        ("0 1 * x a= :link\n", 2),
        ("0 1 * x b= a=\n", 2),
        ("0 1 * x a= a=\n", 2),
        ("0 1 * x =v\n", 2),
        ("0 1 * x a\n", 2),
        ("0 1 * x a=b=c\n", 2),
        ("0 1 * x a=%2d\n", 2),
        ("0 1 * x a=%2f\n", 2),
        ("0 1 * x a=%41\n", 2),
        ("0 1 * x a=%\n", 2),
        ("0 1 * x a=%FF\n", 2),
        ("0 1 * x a=\u{e9}\n", 2),
    ] {
        let text = with_head(&rt, alloc, lines);
        assert!(rt; is_blamed(alloc, text.as_slice(), line), "at {lines}");
    }
}

#[test]
fn more_than_4096_line_ends_are_too_many(rt: HostRuntime) {
    let alloc = rt.alloc();
    let mut text = with_head(&rt, alloc, "0 1 * x\n");
    for _ in 0..4094 {
        text.extend_from_slice(b"1 1 - x\n").expect(&rt, "memory");
    }
    example(&rt, alloc, text.as_slice());
    text.push(b'x').expect(&rt, "memory");
    assert!(rt; is_blamed(alloc, text.as_slice(), 4097));
    text.push(b'\n').expect(&rt, "memory");
    let read = read_doc(alloc, text.as_slice());
    assert!(rt; read == Err(DocError::TooManyLines));
}
