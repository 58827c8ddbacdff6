//! What sheets become, worked by hand; and that the plan by candidates is the plan by a look at each step.

use crate::plain::merged;
use crate::sheets::{DOWN, PAGE, UP, sheet};
use cnf::NO_LIMIT;
use merge_plan::plan;
use merge_steps::Step;
use merge_text::merge_text;
use overlap::Pairs;
use sheet_order::BlockCause;
use std::alloc::Global;
use std::process::Abort;
use step_obstacles::PairObstacles;
use trial_gen::make_sheet;

/// What the page's sheet becomes, an item on each line here.
const MERGED_PAGE: &str = "@font-face { font-family: \"Icon\"; src: url(icon.woff) }\
html{font-size:16px;-webkit-text-size-adjust:100%}\
body{color:#222}\
body,h1,h2,ul{margin:0}\
a:hover{color:#048}\
img{border:0}\
.row{margin:0 -8px}\
.row::before,.row::after{content:\"\";display:table}\
.row::after{clear:both}\
.col{float:left;padding:0 8px;box-sizing:border-box}\
.half{width:50%}\
.third{width:33%}\
.note{color:#555}\
.btn{color:#fff;background:#06c}\
.btn:hover{background:#048}\
.btn:focus-visible { outline: 2px solid }\
a,.link{color:#06c;text-decoration:none}\
.hide{display:none}\
@media print{.hide{display:block}}\
.note{padding:4px}\
@media (max-width: 600px){.half{width:100%}}";

/// A source, its merged text, how many items both have, and how many steps are taken.
const ROWS: [(&str, &str, u32, u32, u32); 21] = [
    (PAGE, MERGED_PAGE, 27, 23, 5),
    // Up is blocked, since both properties are of one family; down is free.
    (
        ".a{color:red}.b{top:0}.a{left:0}",
        ".b{top:0}.a{color:red;left:0}",
        3,
        2,
        1,
    ),
    // Up and down are free and save the same; up is first.
    (
        "div{color:red}span{color:blue}div{color:green}",
        "div{color:red;color:green}span{color:blue}",
        3,
        2,
        1,
    ),
    ("a{top:0}b{top:0}", "a,b{top:0}", 2, 1, 1),
    (".a{color:red;color:red}", ".a{color:red}", 1, 1, 1),
    (
        ".a{color:red}.c:focus-visible{top:0}.a{color:green}",
        ".a{color:red;color:green}.c:focus-visible{top:0}",
        3,
        2,
        1,
    ),
    // Both cuts save the same; the first is taken.
    ("a,b,a{top:0}", "b,a{top:0}", 1, 1, 1),
    // A run of cuts: two of ten bytes, one of six, and one of a selector.
    (
        ".a,b,.a{color:red;top:0;color:red;top:0;color:red}",
        "b,.a{top:0;color:red}",
        1,
        1,
        4,
    ),
    (".a,.b{top:0}.a{top:0}", ".a,.b{top:0}", 2, 1, 1),
    (
        ".a{top:0;color:red;clear:both}.b{color:red;clear:both;width:1px}",
        ".a{top:0}.a,.b{color:red;clear:both}.b{width:1px}",
        2,
        3,
        1,
    ),
    (
        "@media print { a{top:0} b{top:0} }",
        "@media print{a,b{top:0}}",
        3,
        2,
        1,
    ),
    // In the body down is free; no rule moves across the block.
    (
        ".a{top:0}@media print{.a{color:red}.b{top:0}.a{left:0}}.a{top:2px}",
        ".a{top:0}@media print{.b{top:0}.a{color:red;left:0}}.a{top:2px}",
        6,
        5,
        1,
    ),
    // The root has no parent, so the two selectors do not meet.
    (
        ".a>.b{top:0}.c:root{top:1px}.a>.b{top:2px}",
        ".a>.b{top:0;top:2px}.c:root{top:1px}",
        3,
        2,
        1,
    ),
    // These stay as they are.
    ("", "", 0, 0, 0),
    (
        ".a{top:0}.b{top:1px}.a{top:2px}",
        ".a{top:0}.b{top:1px}.a{top:2px}",
        3,
        3,
        0,
    ),
    (
        ".a{background:red;background:linear-gradient(red,blue)}",
        ".a{background:red;background:linear-gradient(red,blue)}",
        1,
        1,
        0,
    ),
    (
        ".a{color:red}.c:focus-visible{color:blue}.a{color:green}",
        ".a{color:red}.c:focus-visible{color:blue}.a{color:green}",
        3,
        3,
        0,
    ),
    (
        ".a{top:0}@media print{.b{top:1px}}.a{top:2px}",
        ".a{top:0}@media print{.b{top:1px}}.a{top:2px}",
        4,
        4,
        0,
    ),
    // An `@import` in the body: it is not opened.
    (
        "@media print{@import \"x\";a{top:0}b{top:0}}",
        "@media print{@import \"x\";a{top:0}b{top:0}}",
        1,
        1,
        0,
    ),
    (
        ".a>.b{top:0}.c.d{top:1px}.a>.b{top:2px}",
        ".a>.b{top:0}.c.d{top:1px}.a>.b{top:2px}",
        3,
        3,
        0,
    ),
    (
        ".a{margin:0;margin-left:1px}.b{margin:0}",
        ".a{margin:0;margin-left:1px}.b{margin:0}",
        2,
        2,
        0,
    ),
];

#[test]
fn what_sheets_become(rt: HostRuntime) {
    let alloc = rt.alloc();
    assert_eq!(rt; MERGED_PAGE.len(), 625);
    for (source, text, read, written, taken) in &ROWS {
        let mut obstacles = PairObstacles::new(alloc, Pairs::new(alloc, NO_LIMIT));
        let merged = merge_text(alloc, &mut obstacles, source.as_bytes()).expect(&rt, "a text");
        assert!(rt; merged.text.as_slice() == text.as_bytes(), "{source}");
        let found = (merged.read_items, merged.written_items, merged.taken);
        assert_eq!(rt; found, (*read, *written, *taken), "{source}");
    }
}

/// A source, how many steps its plan takes, and what blocks each step that is left.
const PLANS: [(&str, u32, &[(Step, BlockCause)]); 3] = [
    ("a{top:0}b{top:0}", 1, &[]),
    (
        ".a{top:0}.b{top:1px}.a{top:2px}",
        0,
        &[(UP, BlockCause::Meet(1)), (DOWN, BlockCause::Meet(1))],
    ),
    (
        ".a{top:0}@x;.a{left:0}",
        0,
        &[(UP, BlockCause::Kept(1)), (DOWN, BlockCause::Kept(1))],
    ),
];

#[test]
fn plans_list_the_steps_that_are_left(rt: HostRuntime) {
    let alloc = rt.alloc();
    for (source, taken, blocked) in &PLANS {
        let bytes = source.as_bytes();
        let old = sheet(&rt, alloc, bytes);
        let mut pairs = Pairs::new(alloc, NO_LIMIT);
        let planned = plan(alloc, &mut pairs, bytes, &old).expect(&rt, "memory");
        assert_eq!(rt; planned.taken, *taken, "{source}");
        assert!(rt; planned.blocked.as_slice() == *blocked, "{source}");
    }
}

/// Sheets in which many rules have a declaration that weighs less than their selectors, and some have one that weighs more.
const LIGHT: [&str; 2] = [
    "#first{top:0;color:rebeccapurple}#second{top:0;left:0}#third{top:0;left:1px}#fourth{top:0;color:rebeccapurple}#fifth{top:0;left:2px}\
#sixth{top:0;left:3px}#seventh{top:0;color:rebeccapurple}#eighth{top:0;left:4px}#ninth{top:0;left:5px}#tenth{top:0;left:6px}\
#eleventh{top:0;left:7px}#twelfth{top:0;color:rebeccapurple}#last{top:0;left:8px}",
    "#a{top:0;left:0;margin:0}#b{top:0;right:1px}#c{top:0;left:0}#d{left:0;right:2px}#e{top:0;margin:0}#f{margin:0;left:0}#g{top:0;right:3px}\
#h{top:0;left:0}#i{margin:0;right:4px}#j{top:0;right:5px}#k{top:0;left:0;right:6px}#l{left:0;right:7px}#m{top:0;margin:0;left:0}",
];

/// Sheets in which shares of a rule are blocked by a rule right behind it. In the second one and in the last one this rule goes.
const BARRED: [&str; 3] = [
    ".aa{width:16px;top:1px;left:1px}.bb{height:16px;top:1px}.cc{width:16px;top:1px}@x;.dd{width:16px;left:1px}.ee{height:16px;left:1px}\
.ff{width:16px;top:1px;left:1px}.gg{top:1px;left:1px}",
    ".aa{width:16px;top:1px}.bb{height:16px;left:1px}.cc{width:16px;left:2px}.dd{width:16px;bottom:3px}.aa{width:16px;left:3px}\
.ee{height:16px;top:4px}.bb{height:16px;bottom:5px}.ff{width:16px;right:6px}",
    ".uu{width:calc(100% - 123456789px);top:1px}.bb{height:1px}.ll{width:calc(100% - 123456789px);left:1px}\
.kk{width:calc(100% - 123456789px);bottom:1px}.mm{top:2px}.bb{height:1px}",
];

/// The plan of a sheet takes the steps of the plain loop, and some.
fn assert_plain(rt: &impl Abort, alloc: Global, source: &str) {
    let bytes = source.as_bytes();
    let old = sheet(rt, alloc, bytes);
    let mut pairs = Pairs::new(alloc, NO_LIMIT);
    let planned = plan(alloc, &mut pairs, bytes, &old).expect(rt, "memory");
    let (merged, steps) = merged(rt, alloc, bytes, old);
    assert!(rt; planned.sheet == merged, "{source}");
    assert_eq!(rt; planned.taken, steps, "{source}");
    assert!(rt; 0 < steps, "{source}");
}

#[test]
fn plans_with_light_declarations_are_those_of_the_plain_loop(rt: HostRuntime) {
    let alloc = rt.alloc();
    for source in &LIGHT {
        assert_plain(&rt, alloc, source);
    }
}

#[test]
fn plans_with_blocked_shares_are_those_of_the_plain_loop(rt: HostRuntime) {
    let alloc = rt.alloc();
    for source in &BARRED {
        assert_plain(&rt, alloc, source);
    }
}

#[test]
fn plans_are_those_of_the_plain_loop(rt: HostRuntime) {
    let alloc = rt.alloc();
    for (rules, taken) in [(0, 0), (10, 2), (20, 4), (40, 9), (60, 13)] {
        let source = make_sheet(alloc, rules).expect(&rt, "memory");
        let old = sheet(&rt, alloc, &source);
        let mut pairs = Pairs::new(alloc, NO_LIMIT);
        let planned = plan(alloc, &mut pairs, &source, &old).expect(&rt, "memory");
        let (merged, steps) = merged(&rt, alloc, &source, old);
        assert!(rt; planned.sheet == merged, "at {rules}");
        assert_eq!(rt; (planned.taken, steps), (taken, taken), "at {rules}");
    }
}
