//! Which steps small sheets have, what the steps make and what they save, worked by hand.

use crate::sheets::{DOWN, PAGE, UP, after, sheet};
use css_print::{print_len, print_sheet};
use merge_steps::{Step, is_step, saving, steps};
use std::alloc::Global;
use std::process::Abort;
use step_candidates::Candidates;
use step_laws::parts_are_few;

/// What a step saves, how long the printed text is before it, and the text after it.
fn taken(rt: &impl Abort, alloc: Global, source: &str, step: &Step) -> (i64, u64, Vec<u8>) {
    let bytes = source.as_bytes();
    let old = sheet(rt, alloc, bytes);
    let is_step = is_step(alloc, &old.items, step).expect(rt, "memory");
    assert!(rt; is_step, "{source}");
    let new = after(rt, alloc, bytes, &old, step);
    let text = print_sheet(alloc, &new, bytes).expect(rt, "memory");
    (saving(&old, bytes, step), print_len(&old, bytes), text)
}

/// A source, a step of its sheet, and the text after it.
const TEXTS: [(&str, Step, &str); 11] = [
    (".a{t:0;t:0}", Step::CutDecl { item: 0, decl: 0 }, ".a{t:0}"),
    (
        ".a{t:0}@x;.a,.b{u:0;t:0}",
        Step::CutDecl { item: 0, decl: 0 },
        "@x;.a,.b{u:0;t:0}",
    ),
    (
        ".a,.b,.a{t:0}",
        Step::CutSel { item: 0, sel: 0 },
        ".b,.a{t:0}",
    ),
    (
        ".a,.b{t:0}.b{t:0;u:0}",
        Step::CutSel { item: 0, sel: 1 },
        ".a{t:0}.b{t:0;u:0}",
    ),
    (
        ".a,.b{t:0}.c{u:0}.b,.a{v:0;t:0}",
        UP,
        ".a,.b{t:0;v:0;t:0}.c{u:0}",
    ),
    (
        ".a,.b{t:0}.c{u:0}.b,.a{v:0;t:0}",
        DOWN,
        ".c{u:0}.b,.a{t:0;v:0;t:0}",
    ),
    (
        ".a,.b{t:0;u:0}@x;.c,.b{t:0;u:0}",
        Step::JoinDeclUp { upper: 0, lower: 2 },
        ".a,.b,.c{t:0;u:0}@x;",
    ),
    (
        ".a,.b{t:0;u:0}@x;.c,.b{t:0;u:0}",
        Step::JoinDeclDown { upper: 0, lower: 2 },
        "@x;.a,.b,.c{t:0;u:0}",
    ),
    (
        ".a{t:0;c:0;x:0}.b{c:0;x:0;w:0}",
        Step::Share { upper: 0, lower: 1 },
        ".a{t:0}.a,.b{c:0;x:0}.b{w:0}",
    ),
    (
        ".a{c:0}.b{w:0;c:0}",
        Step::Share { upper: 0, lower: 1 },
        ".a,.b{c:0}.b{w:0}",
    ),
    (
        ".a{c:0;t:0;c:0}.b,.a{c:0;c:0}",
        Step::Share { upper: 0, lower: 1 },
        ".a{t:0}.a,.b{c:0}",
    ),
];

#[test]
fn what_steps_make(rt: HostRuntime) {
    for (source, step, want) in &TEXTS {
        let (_, _, text) = taken(&rt, rt.alloc(), source, step);
        assert!(rt; text.as_slice() == want.as_bytes(), "{source}");
    }
}

/// A source, a step of its sheet, what it saves, and how long the printed text is before and after it.
const SAVINGS: [(&str, Step, i64, u64, usize); 14] = [
    (
        PAGE,
        Step::JoinDeclDown {
            upper: 4,
            lower: 19,
        },
        32,
        714,
        682,
    ),
    (PAGE, Step::JoinDeclUp { upper: 8, lower: 9 }, 25, 714, 689),
    (
        PAGE,
        Step::JoinDeclUp {
            upper: 3,
            lower: 21,
        },
        9,
        714,
        705,
    ),
    (
        PAGE,
        Step::JoinSelUp {
            upper: 11,
            lower: 14,
        },
        5,
        714,
        709,
    ),
    (PAGE, Step::Share { upper: 2, lower: 3 }, 4, 714, 710),
    ("a{b:c;b:c}", Step::CutDecl { item: 0, decl: 0 }, 4, 10, 6),
    (
        "a{b:c}d{e:f}a{b:c}",
        Step::CutDecl { item: 0, decl: 0 },
        6,
        18,
        12,
    ),
    ("a,b,a{top:0}", Step::CutSel { item: 0, sel: 0 }, 2, 12, 10),
    (
        "a,a{b:c}a{d:e;f:g}",
        Step::JoinSelUp { upper: 0, lower: 1 },
        2,
        18,
        16,
    ),
    (
        "a,a{b:c}a{d:e;f:g}",
        Step::JoinSelDown { upper: 0, lower: 1 },
        4,
        18,
        14,
    ),
    (
        ".a{top:0;color:red;clear:both}.b{color:red;clear:both;width:1px}",
        Step::Share { upper: 0, lower: 1 },
        15,
        64,
        49,
    ),
    (
        ".a{margin:0;margin-left:1px}.b{margin:0}",
        Step::Share { upper: 0, lower: 1 },
        6,
        40,
        34,
    ),
    // A share may make the sheet longer.
    (
        ".a{b:c;d:e}.long{g:h;b:c}",
        Step::Share { upper: 0, lower: 1 },
        -5,
        25,
        30,
    ),
    // The space before a byte order mark is printed, and does not count.
    (
        "\u{FEFF}\u{FEFF}a{b:c}x{y:z}d{b:c}",
        Step::JoinDeclDown { upper: 0, lower: 2 },
        4,
        22,
        17,
    ),
];

#[test]
fn what_steps_save(rt: HostRuntime) {
    for (source, step, saved, before, after) in &SAVINGS {
        let (found, length, text) = taken(&rt, rt.alloc(), source, step);
        assert_eq!(rt;
            (found, length, text.len()),
            (*saved, *before, *after),
            "{source}"
        );
    }
}

/// A source, and a step that its sheet does not have.
const NONE: [(&str, Step); 10] = [
    (".a,.b{t:0}.a{t:0}", Step::CutDecl { item: 0, decl: 0 }),
    (".a{t:0}", Step::CutDecl { item: 0, decl: 1 }),
    (".a{t:0}@x;", Step::CutSel { item: 1, sel: 0 }),
    (".a{t:0}.a,.b{u:0}", Step::JoinSelUp { upper: 0, lower: 1 }),
    (".a{t:0}.a{u:0}", Step::JoinSelUp { upper: 1, lower: 0 }),
    (
        ".a{t:0;u:0}.b{u:0;t:0}",
        Step::JoinDeclDown { upper: 0, lower: 1 },
    ),
    (".a{t:0;u:0}.b{t:0;u:0}", Step::Share { upper: 0, lower: 1 }),
    (
        ".a,.b{t:0;u:0}.b,.a{t:0}",
        Step::Share { upper: 0, lower: 1 },
    ),
    (".a{t:0}.b{u:0}", Step::Share { upper: 0, lower: 1 }),
    (".a{t:0}@x;", Step::Share { upper: 0, lower: 1 }),
];

#[test]
fn what_is_no_step(rt: HostRuntime) {
    for (source, step) in &NONE {
        let sheet = sheet(&rt, rt.alloc(), source.as_bytes());
        let is_step = is_step(rt.alloc(), &sheet.items, step).expect(&rt, "memory");
        assert!(rt; !is_step, "{source}");
    }
}

#[test]
fn which_steps_a_sheet_has(rt: HostRuntime) {
    let alloc = rt.alloc();
    parts_are_few();
    let sheet = sheet(&rt, alloc, b".a{t:0}.a{u:0}");
    let found = steps(alloc, &sheet).expect(&rt, "memory");
    let all = [
        Step::JoinSelUp { upper: 0, lower: 1 },
        Step::JoinSelDown { upper: 0, lower: 1 },
    ];
    assert!(rt; found.as_slice() == &all[..]);
}

/// The steps of a source's sheet that save something, and those that do so after a step, which loses nothing itself.
fn saving_steps_after(
    rt: &impl Abort,
    alloc: Global,
    source: &[u8],
    step: &Step,
) -> (Vec<Step>, Vec<Step>) {
    let sheet = sheet(rt, alloc, source);
    let candidates = Candidates::new(alloc, &sheet, source).expect(rt, "memory");
    let before = Vec::from_slice(alloc, candidates.saving_steps()).expect(rt, "memory");
    let is_step = is_step(alloc, &sheet.items, step).expect(rt, "memory");
    assert!(rt; is_step);
    if saving(&sheet, source, step) < 0 {
        return (Vec::new(alloc), Vec::new(alloc));
    }
    let stepped = after(rt, alloc, source, &sheet, step);
    let candidates = Candidates::new(alloc, &stepped, source).expect(rt, "memory");
    let then = Vec::from_slice(alloc, candidates.saving_steps()).expect(rt, "memory");
    (before, then)
}

#[test]
fn which_steps_save_something(rt: HostRuntime) {
    let source = b".a{top:0;left:0}.b{top:0}.a{left:0}";
    let cut = Step::CutDecl { item: 0, decl: 1 };
    let (upper, lower) = (0, 2);
    let before = [
        cut,
        Step::CutDecl { item: 2, decl: 0 },
        Step::CutSel { item: 2, sel: 0 },
        Step::JoinSelUp { upper, lower },
        Step::JoinSelDown { upper, lower },
        Step::Share { upper: 0, lower: 1 },
    ];
    let after = [
        Step::JoinSelUp { upper, lower },
        Step::JoinSelDown { upper, lower },
        Step::JoinDeclUp { upper: 0, lower: 1 },
        Step::JoinDeclDown { upper: 0, lower: 1 },
    ];
    let (found, found_after) = saving_steps_after(&rt, rt.alloc(), source, &cut);
    assert!(rt; found.as_slice() == &before[..]);
    assert!(rt; found_after.as_slice() == &after[..]);
}
