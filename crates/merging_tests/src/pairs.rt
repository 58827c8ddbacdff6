//! Which pairs small sheets have, worked by hand.

use crate::sheets::sheet;
use css_model::Sheet;
use sheet_order::{PairIndex, Placed, last_pairs};
use std::alloc::Global;
use std::process::Abort;

/// The numbers of a pair's item, selector and declaration.
fn numbers(p: &Placed<'_>) -> [usize; 3] {
    [p.item, p.selector_number, p.decl_number]
}

/// A source, and its pairs by their numbers.
const LISTS: [(&str, &[[usize; 3]]); 6] = [
    // the last occurrence counts
    (".a{top:0}.b{top:1px}.a{top:0}", &[[1, 0, 0], [2, 0, 0]]),
    // the first of equal selectors of a rule, the last of equal declarations
    (".a,.b,.a{top:0}", &[[0, 0, 0], [0, 1, 0]]),
    (".a{top:0;left:0;top:0}", &[[0, 0, 1], [0, 0, 2]]),
    (
        ".a,.b,.a{top:0;left:0;top:0}.b{left:0}",
        &[[0, 0, 1], [0, 0, 2], [0, 1, 2], [1, 0, 0]],
    ),
    // importance makes declarations differ
    (".a{top:0!important}.a{top:0}", &[[0, 0, 0], [1, 0, 0]]),
    // kept items have no pairs
    ("@x;.a{top:0}a::x{top:0}", &[[1, 0, 0]]),
];

#[test]
fn pairs_stand_last(rt: HostRuntime) {
    let alloc = rt.alloc();
    for (source, want) in &LISTS {
        let sheet = sheet(&rt, alloc, source.as_bytes());
        let list = last_pairs(alloc, None, &sheet.items).expect(&rt, "memory");
        let places = list.iter().map(|p| numbers(p)).collect(alloc);
        let places: Vec<[usize; 3]> = places.expect(&rt, "memory");
        assert!(rt; places.as_slice() == *want, "{source}");
    }
}

/// Where the last pair of a sheet is in another one.
fn found(rt: &impl Abort, alloc: Global, old: &Sheet, new: &Sheet) -> Option<[usize; 3]> {
    let pairs = last_pairs(alloc, None, &old.items).expect(rt, "memory");
    let list = last_pairs(alloc, None, &new.items).expect(rt, "memory");
    let index = PairIndex::new(alloc, &pairs).expect(rt, "memory");
    let pair = list.last().expect(rt, "a pair");
    let place = index.find(pair).map(|p| numbers(p));
    assert_eq!(rt; index.has(pair), place.is_some());
    place
}

/// A source, and where its last pair is in the sheet of `.a{top:0}.b,.a{top:1px}`.
const FOUND: [(&str, Option<[usize; 3]>); 5] = [
    (".b{top:1px}", Some([1, 0, 0])),
    ("@x;.c,.a{top:1px}", Some([1, 1, 0])),
    (".b{top:0}", None),
    (".a{left:0}", None),
    (".a{top:0!important}", None),
];

#[test]
fn pairs_are_found(rt: HostRuntime) {
    let alloc = rt.alloc();
    let old = sheet(&rt, alloc, b".a{top:0}.b,.a{top:1px}");
    for (source, want) in &FOUND {
        let new = sheet(&rt, alloc, source.as_bytes());
        assert!(rt; found(&rt, alloc, &old, &new) == *want, "{source}");
    }
}
