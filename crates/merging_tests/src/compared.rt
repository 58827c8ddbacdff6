//! Small sheets compared, worked by hand.

use crate::sheets::{FIRST, NEXT, SECOND, sheet};
use overlap::Pairs;
use sheet_order::PairPlace;
use sheet_same::{Compared, compare};

/// What is found, without its document.
#[derive(Drop, PartialEq)]
enum Found {
    Same,
    Missing(PairPlace),
    Extra(PairPlace),
    Kept(u32),
    Reversed(PairPlace, PairPlace),
    Unsure(u32),
}

fn found_in(compared: &Compared) -> Found {
    match compared {
        Compared::Same => Found::Same,
        Compared::Missing(place) => Found::Missing(*place),
        Compared::Extra(place) => Found::Extra(*place),
        Compared::KeptItem(number) => Found::Kept(*number),
        Compared::Reversed { first, second, .. } => Found::Reversed(*first, *second),
        Compared::Unsure(reason) => Found::Unsure(*reason),
    }
}

/// Two sources, what is found in their sheets, and in the bodies of which opened blocks.
const ROWS: [(&str, &str, Found, Option<u32>); 25] = [
    ("a{top:0}b{top:0}", "a,b{top:0}", Found::Same, None),
    (
        ".a{top:0}.b{top:1px}",
        ".b{top:1px}.a{top:0}",
        Found::Reversed(FIRST, NEXT),
        None,
    ),
    ("a{top:0}", "", Found::Missing(FIRST), None),
    ("", "a{top:0}", Found::Extra(FIRST), None),
    // what is missing comes before what is there besides
    ("a{top:0}", "b{top:0}", Found::Missing(FIRST), None),
    // by declarations first, then by selectors
    (
        "a,b{left:0;top:0}",
        "a{left:0}b{left:0}",
        Found::Missing(SECOND),
        None,
    ),
    // a pair counts at its last place
    ("a{top:0}a{top:0}", "b{top:0}", Found::Missing(NEXT), None),
    // names that are not related
    (
        ".a{top:0}.b{color:red}",
        ".b{color:red}.a{top:0}",
        Found::Same,
        None,
    ),
    // no element is a link that is visited and one that is not
    (
        "a:link{top:0}a:visited{top:1px}",
        "a:visited{top:1px}a:link{top:0}",
        Found::Same,
        None,
    ),
    // kept items
    ("@x;@y;", "@x ;@y;", Found::Kept(0), None),
    ("@x;@y;", "@y;@x;", Found::Kept(0), None),
    ("@x;@y;", "@x;", Found::Kept(1), None),
    ("@x;.a{top:0}@y;", "@x;@y;.a{top:0}", Found::Kept(1), None),
    // a kept rule weighs by its declarations
    (
        ".a{top:0}a::x{top:1px}",
        "a::x{top:1px}.a{top:0}",
        Found::Kept(0),
        None,
    ),
    (
        ".a{top:0}a::x{color:red}",
        "a::x{color:red}.a{top:0}",
        Found::Same,
        None,
    ),
    // opened blocks
    (
        "@media print{a{top:0}b{top:0}}",
        "@media  print { a,b { top: 0 } }",
        Found::Same,
        None,
    ),
    (
        "@media print{a{top:0}}",
        "@media screen{a{top:0}}",
        Found::Kept(0),
        None,
    ),
    (
        "@media print{a{top:0}}",
        "@media print{b{top:0}}",
        Found::Missing(FIRST),
        Some(0),
    ),
    (
        "@media print{a{top:0}}@media print{}",
        "@media print{a{top:0}}@media print{a{top:0}}",
        Found::Extra(FIRST),
        Some(1),
    ),
    (
        "@x;@media print{.a{top:0}.b{top:1px}}",
        "@x;@media print{.b{top:1px}.a{top:0}}",
        Found::Reversed(FIRST, NEXT),
        Some(0),
    ),
    // what is found outside comes first
    (
        "@media print{a{top:0}}b{top:0}",
        "@media print{}b{top:1px}",
        Found::Missing(NEXT),
        None,
    ),
    // an opened block is a kept item of the sheet around it
    (
        ".a{top:0}@media print{.b{left:0}}",
        "@media print{.b{left:0}}.a{top:0}",
        Found::Kept(0),
        None,
    ),
    // inside a body no block is opened
    (
        "@media print{@media screen{a{top:0}b{top:0}}}",
        "@media print{@media screen{a,b{top:0}}}",
        Found::Kept(0),
        Some(0),
    ),
    // before an import no block is opened, so these two are the same by their texts
    (
        "@media print{a{top:0}}",
        "@media print{a{top:0}}@import;",
        Found::Kept(1),
        None,
    ),
    (
        "@media print{a{top:0}}",
        "@media print{b{top:0}}@import;",
        Found::Kept(0),
        None,
    ),
];

#[test]
fn sheets_compare(rt: HostRuntime) {
    let alloc = rt.alloc();
    let mut pairs = Pairs::new(alloc, 0);
    for (text, twin, want, body) in &ROWS {
        let (source, other) = (text.as_bytes(), twin.as_bytes());
        let first = sheet(&rt, alloc, source);
        let second = sheet(&rt, alloc, other);
        let difference = compare(alloc, &mut pairs, &first, source, &second, other);
        let difference = difference.expect(&rt, "memory");
        assert!(rt; found_in(&difference.compared) == *want, "{text}");
        assert!(rt; difference.body == *body, "{text}");
    }
}
