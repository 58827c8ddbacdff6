//! Sheets and what becomes of them, worked by hand.

use crate::runs::{END_INSIDE, FAULTLESS, Row, end_so, ends, write_so};
use css_model::{FaultKind, SheetFault};
use cssmin_run::Status;

/// Sheets that get smaller.
const MERGED: &[(&str, &str)] = &[
    ("", ""),
    ("a { color : red ; }", "a{color:red}"),
    // Up is blocked, since both properties are of one family; down is free.
    (
        ".a{color:red}.b{top:0}.a{left:0}",
        ".b{top:0}.a{color:red;left:0}",
    ),
    // Both are free and save as much; up is the first.
    (
        "div{color:red}span{color:blue}div{color:green}",
        "div{color:red;color:green}span{color:blue}",
    ),
    ("a{top:0}b{top:0}", "a,b{top:0}"),
    (".a{color:red;color:red}", ".a{color:red}"),
    (
        ".a{color:red}.c:focus-visible{top:0}.a{color:green}",
        ".a{color:red;color:green}.c:focus-visible{top:0}",
    ),
    ("a,b,a{top:0}", "b,a{top:0}"),
    (".a,.b{top:0}.a{top:0}", ".a,.b{top:0}"),
    (
        ".a{top:0;color:red;clear:both}.b{color:red;clear:both;width:1px}",
        ".a{top:0}.a,.b{color:red;clear:both}.b{width:1px}",
    ),
    // The root has no parent, so the two selectors do not meet.
    (
        ".a>.b{top:0}.c:root{top:1px}.a>.b{top:2px}",
        ".a>.b{top:0;top:2px}.c:root{top:1px}",
    ),
    // The body of a block is merged by itself, and no rule moves across the block.
    (
        "a{top:0}@MEDIA print { a { top: 0 } a { left: 0 } } a{top:1px}",
        "a{top:0}@MEDIA print{a{top:0;left:0}}a{top:1px}",
    ),
    ("@media print{/**/}", "@media print{}"),
];

/// Sheets that stay as they are.
const UNMERGED: &[&str] = &[
    ".a{top:0}.b{top:1px}.a{top:2px}",
    ".a{background:red;background:linear-gradient(red,blue)}",
    ".a{color:red}.c:focus-visible{color:blue}.a{color:green}",
    ".a{top:0}@media print{.b{top:1px}}.a{top:2px}",
    ".a>.b{top:0}.c.d{top:1px}.a>.b{top:2px}",
    ".a{margin:0;margin-left:1px}.b{margin:0}",
    "a{top:0}@import \"x\";a{top:0}",
    "a{top:0;&:hover{left:0}}a{left:1px}",
    // An `@import` after a block, and one inside it: neither block is opened.
    "@media print{a{top:0}b{top:0}}@import \"x\";",
    "@media print{@import \"x\";a{top:0}b{top:0}}",
];

const REPORTED: &[Row] = &[
    (
        "cssmin min --report",
        b"",
        Status::Done,
        "",
        "items 0 0\nbytes 0 0\nsteps 0\n",
    ),
    (
        "cssmin min --report",
        b".a{top:0}.b{top:1px}.a{top:2px}",
        Status::Done,
        ".a{top:0}.b{top:1px}.a{top:2px}",
        "items 3 3\nbytes 31 31\nsteps 0\nblocked JoinSelUp 1 3 meet 2\nblocked JoinSelDown 1 3 meet 2\n",
    ),
    (
        "cssmin min --report",
        b".a{top:0;color:red;clear:both}.b{color:red;clear:both;width:1px}",
        Status::Done,
        ".a{top:0}.a,.b{color:red;clear:both}.b{width:1px}",
        "items 2 3\nbytes 64 49\nsteps 1\n",
    ),
    (
        "cssmin min --report",
        b".a{margin:0;margin-left:1px}.b{margin:0}",
        Status::Done,
        ".a{margin:0;margin-left:1px}.b{margin:0}",
        "items 2 2\nbytes 40 40\nsteps 0\nblocked Share 1 2 meet 1\n",
    ),
    // The items of opened blocks are counted with the others.
    (
        "cssmin min --report",
        b"@media print { a{top:0} b{top:0} }",
        Status::Done,
        "@media print{a,b{top:0}}",
        "items 3 2\nbytes 34 24\nsteps 1\n",
    ),
    (
        "cssmin min --report",
        b"@media print{.a{top:0}.b{top:1px}.a{top:2px}}",
        Status::Done,
        "@media print{.a{top:0}.b{top:1px}.a{top:2px}}",
        "items 4 4\nbytes 45 45\nsteps 0\nblocked JoinSelUp 1.1 1.3 meet 1.2\nblocked JoinSelDown 1.1 1.3 meet 1.2\n",
    ),
    // A block has its number in the text that is written.
    (
        "cssmin min --report",
        b".a{top:0}.a{top:1px}@media print{.a{top:0}.b{top:1px}.a{top:2px}}.b{top:0}.a{top:2px}",
        Status::Done,
        ".a{top:0;top:1px}@media print{.a{top:0}.b{top:1px}.a{top:2px}}.b{top:0}.a{top:2px}",
        "items 8 7\nbytes 85 82\nsteps 1\nblocked JoinSelUp 1 4 meet 3\nblocked JoinSelDown 1 4 kept 2\nblocked Share 1 3 meet 1\nblocked JoinSelUp 2.1 2.3 meet 2.2\nblocked JoinSelDown 2.1 2.3 meet 2.2\n",
    ),
];

// A bound of the work: the steps and the answers count together, also those of opened blocks.
const BOUNDED: &[Row] = &[
    (
        "cssmin min --work 0 --report",
        b"a{top:0}a{left:0}a{right:0}",
        Status::Done,
        "a{top:0}a{left:0}a{right:0}",
        "items 3 3\nbytes 27 27\nsteps 0\nwork spent\n",
    ),
    (
        "cssmin min --report --work=1",
        b"a{top:0}a{left:0}a{right:0}",
        Status::Done,
        "a{top:0;left:0}a{right:0}",
        "items 3 2\nbytes 27 25\nsteps 1\nwork spent\n",
    ),
    (
        "cssmin min --work 1",
        b"a{top:0}a{left:0}a{right:0}",
        Status::Done,
        "a{top:0;left:0}a{right:0}",
        "",
    ),
    (
        "cssmin min --work 1 --report",
        b"a{top:0}a{left:0}@media print{b{top:0}b{left:0}}",
        Status::Done,
        "a{top:0;left:0}@media print{b{top:0}b{left:0}}",
        "items 5 4\nbytes 48 46\nsteps 1\nwork spent\n",
    ),
    (
        "cssmin min --work 1 --report",
        b".a{top:0}.b{top:1px}.a{top:2px}",
        Status::Done,
        ".a{top:0}.b{top:1px}.a{top:2px}",
        "items 3 3\nbytes 31 31\nsteps 0\nwork spent\n",
    ),
    // The first step needs four answers.
    (
        "cssmin min --work 3 --report",
        b"#a,#b{top:0}#c,#d{top:1px}#a,#b{top:2px}",
        Status::Done,
        "#a,#b{top:0}#c,#d{top:1px}#a,#b{top:2px}",
        "items 3 3\nbytes 40 40\nsteps 0\nwork spent\n",
    ),
    (
        "cssmin min --work 4 --report",
        b"#a,#b{top:0}#c,#d{top:1px}#a,#b{top:2px}",
        Status::Done,
        "#a,#b{top:0;top:2px}#c,#d{top:1px}",
        "items 3 2\nbytes 40 34\nsteps 1\nwork spent\n",
    ),
    // Nothing is left to do.
    (
        "cssmin min --work 3 --report",
        b"a{top:0}a{left:0}a{right:0}",
        Status::Done,
        "a{top:0;left:0;right:0}",
        "items 3 1\nbytes 27 23\nsteps 2\n",
    ),
    (
        "cssmin min --work 9 --report",
        b".a{top:0}.b{top:1px}.a{top:2px}",
        Status::Done,
        ".a{top:0}.b{top:1px}.a{top:2px}",
        "items 3 3\nbytes 31 31\nsteps 0\nblocked JoinSelUp 1 3 meet 2\nblocked JoinSelDown 1 3 meet 2\n",
    ),
    (
        "cssmin min --work 0 --report",
        b"",
        Status::Done,
        "",
        "items 0 0\nbytes 0 0\nsteps 0\n",
    ),
];

const REFUSED: &[Row] = &[
    (
        "cssmin min",
        b"a{b:\"x",
        END_INSIDE,
        "",
        "refused: EndInside at 4\n",
    ),
    (
        "cssmin min",
        b"a{b:\"\n\"}",
        Status::SheetRefused(SheetFault {
            kind: FaultKind::BadString,
            at: 4,
        }),
        "",
        "refused: BadString at 4\n",
    ),
    (
        "cssmin min",
        b"a{b:url(c\")}",
        Status::SheetRefused(SheetFault {
            kind: FaultKind::BadUrl,
            at: 4,
        }),
        "",
        "refused: BadUrl at 4\n",
    ),
    (
        "cssmin min",
        b"\xff",
        Status::SheetRefused(SheetFault {
            kind: FaultKind::NotUtf8,
            at: 0,
        }),
        "",
        "refused: NotUtf8 at 0\n",
    ),
    (
        "cssmin min",
        b"@namespace \"u\";",
        Status::SheetRefused(SheetFault {
            kind: FaultKind::Namespace,
            at: 0,
        }),
        "",
        "refused: Namespace at 0\n",
    ),
];

#[test]
fn sheets_are_merged(rt: HostRuntime) {
    let alloc = rt.alloc();
    for line in ["cssmin min", "cssmin min --budget 20000"] {
        for row in MERGED {
            let (text, merged) = *row;
            let end = (Status::Done, 0, merged.as_bytes(), b"".as_slice());
            ends(&rt, alloc, line, text.as_bytes(), FAULTLESS, end);
        }
        for text in UNMERGED {
            let end = (Status::Done, 0, text.as_bytes(), b"".as_slice());
            ends(&rt, alloc, line, text.as_bytes(), FAULTLESS, end);
        }
    }
}

#[test]
fn sheets_are_reported_or_refused(rt: HostRuntime) {
    end_so(&rt, rt.alloc(), REPORTED);
    end_so(&rt, rt.alloc(), BOUNDED);
    end_so(&rt, rt.alloc(), REFUSED);
}

#[test]
fn long_sheets_are_refused(rt: HostRuntime) {
    let alloc = rt.alloc();
    let text = vec![in alloc; b'a'; 1_048_577].expect(&rt, "a sheet");
    let status = Status::SheetRefused(SheetFault {
        kind: FaultKind::TooLong,
        at: 1_048_576,
    });
    let told = b"refused: TooLong at 1048576\n".as_slice();
    let end = (status, 0, b"".as_slice(), told);
    ends(&rt, alloc, "cssmin min", text.as_slice(), FAULTLESS, end);
}

#[test]
fn made_sheets_are_tried(rt: HostRuntime) {
    write_so(
        &rt,
        rt.alloc(),
        &[
            ("cssmin trial 0", "items 0 0\nbytes 0 0\nsteps 0\n"),
            ("cssmin trial 1", "items 1 1\nbytes 16 16\nsteps 0\n"),
            ("cssmin trial 3", "items 3 3\nbytes 61 61\nsteps 0\n"),
        ],
    );
}
