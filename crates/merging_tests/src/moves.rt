//! What moves and steps reverse in small sheets, and which steps may be taken, worked by hand.

use crate::sheets::{DOWN, FIRST, NEXT, SECOND, THIRD, UP, after, sheet};
use merge_steps::{Step, apply, is_step};
use order_index::Index;
use overlap::Pairs;
use sheet_order::{
    Allowed, BlockCause, Moved, Other, Reversed, move_rule, moved_of, permitted, reversed,
};
use std::alloc::Global;
use std::process::Abort;

/// The first pair of a sheet with the first pair of the next item.
const WITH_NEXT: Reversed = Reversed {
    moved: FIRST,
    other: Other::Pair(NEXT),
};

/// The first pair of a sheet with the first pair of the item after the next one.
const WITH_THIRD: Reversed = Reversed {
    moved: FIRST,
    other: Other::Pair(THIRD),
};

/// The first pair of a sheet with the next item, a kept one.
const WITH_KEPT: Reversed = Reversed {
    moved: FIRST,
    other: Other::Kept(1),
};

/// The second declaration of the first item with the first pair of the next one.
const SECOND_WITH_NEXT: Reversed = Reversed {
    moved: SECOND,
    other: Other::Pair(NEXT),
};

/// A source, the numbers between which its first rule is moved, and what that reverses.
const MOVES: [(&str, u32, u32, &[Reversed]); 9] = [
    // the nearer one first
    (
        ".a{margin:0}.b{margin-left:1px}.a{margin:1px}",
        0,
        2,
        &[WITH_NEXT, WITH_THIRD],
    ),
    // unrelated names, other importance, other specificity
    (".a{color:red}.b{top:0}", 0, 1, &[]),
    (".a{top:0!important}.b{top:1px}", 0, 1, &[]),
    (".a{top:0}b{top:1px}", 0, 1, &[]),
    // the last occurrence counts
    (".a{top:0}.b{top:1px}.a{top:0}", 0, 1, &[]),
    // a block weighs with each pair, a kept rule by its declarations
    (".a{top:0}@x;.b{top:1px}", 0, 2, &[WITH_KEPT, WITH_THIRD]),
    (".a{top:0}a::x{top:1px}", 0, 1, &[WITH_KEPT]),
    (".a{top:0}a::x{color:red}", 0, 1, &[]),
    // the first of equal selectors, the last of equal declarations
    (".a,.a{top:0;top:0}.b{top:1px}", 0, 1, &[SECOND_WITH_NEXT]),
];

#[test]
fn moves_reverse_what_weighs(rt: HostRuntime) {
    let alloc = rt.alloc();
    for (source, from, to, want) in &MOVES {
        let old = sheet(&rt, alloc, source.as_bytes());
        let count = old.items.len();
        assert!(rt; (*from as usize) < count && (*to as usize) < count);
        let new = move_rule(&old, *from, *to).expect(&rt, "memory");
        let list = reversed(alloc, &old, &new, &Moved::Rule(*from)).expect(&rt, "memory");
        assert!(rt; list.as_slice() == *want, "{source}");
    }
}

/// How much a step reverses, by the index of the sheet and by the sheets before and after it.
fn reversed_by(rt: &impl Abort, alloc: Global, source: &str, step: &Step) -> usize {
    let old = sheet(rt, alloc, source.as_bytes());
    let is_step = is_step(alloc, &old.items, step).expect(rt, "memory");
    assert!(rt; is_step, "{source}");
    let index = Index::new(alloc, &old).expect(rt, "memory");
    let found = index.reversed(alloc, step).expect(rt, "memory");
    let new = apply(alloc, &old.items, step).expect(rt, "memory");
    let want = reversed(alloc, &old, &new, &moved_of(step)).expect(rt, "memory");
    assert!(rt; found == want, "{source}");
    found.len()
}

/// A source, a step, and how much it reverses.
const STEPS: [(&str, Step, usize); 12] = [
    // the lower `top` with both other ones, each of the lower rule with the block
    (
        ".a{top:0}.b{color:red;top:1px}@x;.c{top:2px}.a{margin:0;top:3px}",
        Step::JoinSelUp { upper: 0, lower: 4 },
        4,
    ),
    (
        ".a{top:0}.b{color:red;top:1px}@x;.c{top:2px}.a{margin:0;top:3px}",
        Step::JoinSelDown { upper: 0, lower: 4 },
        3,
    ),
    // kept rules weigh by their declarations
    (
        ".a{top:0}:is(b){top:1px}:is(b){color:red}.a{top:2px}",
        Step::JoinSelUp { upper: 0, lower: 3 },
        1,
    ),
    // what lies outside does not count
    (
        ".b{top:1px}@x;.a{top:0}.a{top:2px}@x;.b{top:3px}",
        Step::JoinSelUp { upper: 2, lower: 3 },
        0,
    ),
    // nor do pairs that occur again further down
    (".a{top:0}.b{top:1px}.a{top:2px}.b{top:1px}", UP, 0),
    (
        ".a{top:0}.b{top:1px}.c{top:0}",
        Step::JoinDeclUp { upper: 0, lower: 2 },
        1,
    ),
    (
        ".a{top:0}.b{top:1px}.c{top:0}",
        Step::JoinDeclDown { upper: 0, lower: 2 },
        1,
    ),
    // the upper rule's pair goes down
    (
        ".a{top:0;color:red}.b{top:1px}.c{top:0;margin:0}",
        Step::Share { upper: 0, lower: 2 },
        1,
    ),
    // the lower rule's pair goes above the rest of its rule
    (
        ".a{margin-left:0;color:red}.c{margin:1px;margin-left:0}",
        Step::Share { upper: 0, lower: 1 },
        1,
    ),
    // the pair is in the first item afterwards
    (
        ".a{top:0}.b{top:1px}.a{top:0}",
        Step::CutDecl { item: 2, decl: 0 },
        1,
    ),
    (
        ".a{top:0}.b{top:1px}.a,.c{top:0}",
        Step::CutSel { item: 2, sel: 0 },
        1,
    ),
    (
        ".a{top:0}.b{top:1px}.a{top:0}",
        Step::CutDecl { item: 0, decl: 0 },
        0,
    ),
];

#[test]
fn steps_reverse_what_the_sheets_tell(rt: HostRuntime) {
    for (source, step, count) in &STEPS {
        assert_eq!(rt;
            reversed_by(&rt, rt.alloc(), source, step),
            *count,
            "{source}"
        );
    }
}

/// Whether a step may be taken, by the sheet and by its index.
fn allowed(
    rt: &impl Abort,
    alloc: Global,
    pairs: &mut Pairs,
    source: &str,
    step: &Step,
) -> Allowed {
    let sheet = sheet(rt, alloc, source.as_bytes());
    let is_step = is_step(alloc, &sheet.items, step).expect(rt, "memory");
    assert!(rt; is_step, "{source}");
    let index = Index::new(alloc, &sheet).expect(rt, "memory");
    let by_index = index.permitted(alloc, pairs, step).expect(rt, "memory");
    let allowed = permitted(alloc, pairs, &sheet, step).expect(rt, "memory");
    assert!(rt; by_index == allowed, "{source}");
    allowed
}

/// A source, a step, and whether it may be taken.
const ALLOWED: [(&str, Step, Allowed); 6] = [
    // a selector meets itself
    (
        ".a{margin:0;margin-left:1px}.b{margin:0}",
        Step::Share { upper: 0, lower: 1 },
        Allowed::Blocked(BlockCause::Meet(0)),
    ),
    (
        ".a{top:0}.b{top:1px}.a{top:2px}",
        UP,
        Allowed::Blocked(BlockCause::Meet(1)),
    ),
    (
        ".a{top:0}.b{top:1px}.a{top:2px}",
        DOWN,
        Allowed::Blocked(BlockCause::Meet(1)),
    ),
    (
        ".a{top:0}@x;.a{left:0}",
        UP,
        Allowed::Blocked(BlockCause::Kept(1)),
    ),
    // no element is a link that is visited and one that is not
    (
        "a:link{top:0}a:visited{top:1px}a:link{top:2px}",
        UP,
        Allowed::Free,
    ),
    (
        ".a{top:0}.b{top:1px}.a{top:0}",
        Step::CutDecl { item: 0, decl: 0 },
        Allowed::Free,
    ),
];

#[test]
fn steps_are_allowed(rt: HostRuntime) {
    let alloc = rt.alloc();
    let mut pairs = Pairs::new(alloc, 0);
    for (source, step, want) in &ALLOWED {
        let found = allowed(&rt, alloc, &mut pairs, source, step);
        assert!(rt; found == *want, "{source}");
    }
}
