//! Whether selectors match anything, worked by hand.

use crate::reading::{example, selector};
use cnf::NO_LIMIT;
use dead_sel::{Life, life};
use overlap::Pairs;
use std::alloc::Global;
use std::process::Abort;

/// Whether a life is the wanted one: the text of an example, or a word.
fn is_life(rt: &impl Abort, alloc: Global, life: &Life, wanted: &str) -> bool {
    match life {
        Life::Dead => wanted == "dead",
        Life::Alive(found) => *found == example(rt, alloc, wanted.as_bytes()),
        Life::SpacesTaken => wanted == "no space",
        Life::Spent(_) => false,
    }
}

#[test]
fn which_selectors_live(rt: HostRuntime) {
    let alloc = rt.alloc();
    let mut pairs = Pairs::new(alloc, NO_LIMIT);
    for (text, wanted) in [
        ("a:link:visited", "dead"),
        ("p", "child 0 pseudo none\n0 1 - x\n1 1 * p\n"),
        ("#a #a", "dead"),
        ("a>b:root", "dead"),
        ("p::before", "child 0 pseudo before\n0 1 - x\n1 1 * p\n"),
        (
            "[class~=a]:not([class*=' ']):not([class*='\\9 ']):not([class*='\\a ']):not([class*='\\c ']):not([class*='\\d '])",
            "no space",
        ),
    ] {
        let s = selector(&rt, alloc, text);
        let life = life(alloc, &mut pairs, &s).expect(&rt, "memory");
        assert!(rt; is_life(&rt, alloc, &life, wanted), "at {text}");
    }
}
