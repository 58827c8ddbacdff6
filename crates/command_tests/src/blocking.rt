//! What stops the merges of small sheets, worked by hand.

use crate::runs::{Row, end_so};
use css_model::{FaultKind, SheetFault};
use cssmin_run::Status;

const ROWS: &[Row] = &[
    (
        "cssmin blockers",
        b".a{top:0}.b{top:1px}.a{top:2px}",
        Status::Done,
        "blocked 2 6\n\
        kept 0 0\n\
        rules 2 6\n\
        both 0 0\n\
        stops 2 6 2 6 1:10 .b\n\
        best 3 JoinSelUp 1:1 1:21 .a{top:2px} .b{top:1px}\n",
        "",
    ),
    // A block stops it, and has no pair.
    (
        "cssmin blockers",
        b".a{top:0}\n@media print{.b{top:1px}}\n.a{left:2px}",
        Status::Done,
        "blocked 2 6\n\
        kept 2 6\n\
        rules 0 0\n\
        both 0 0\n\
        stops 2 6 2 6 2:1 @media print\n\
        best 3 JoinSelUp 1:1 3:1 .a{left:2px}\n",
        "",
    ),
    (
        "cssmin blockers",
        b".a{color:red}\n.c:focus-visible{color:blue}\n.a{color:green}",
        Status::Done,
        "blocked 2 6\n\
        kept 2 6\n\
        rules 0 0\n\
        both 0 0\n\
        stops 2 6 2 6 2:1 .c:focus-visible\n\
        best 3 JoinSelUp 1:1 3:1 .a{color:green}\n",
        "",
    ),
    // A rule can stop its own part.
    (
        "cssmin blockers",
        b".a{margin:0;margin-left:1px}.b{margin:0}",
        Status::Done,
        "blocked 1 6\n\
        kept 0 0\n\
        rules 1 6\n\
        both 0 0\n\
        stops 1 6 1 6 1:1 .a\n\
        best 6 Share 1:1 1:29 .a{margin:0} .a{margin-left:1px}\n",
        "",
    ),
    (
        "cssmin blockers",
        b"a{top:0}b{top:0}",
        Status::Done,
        "blocked 0 0\n\
        kept 0 0\n\
        rules 0 0\n\
        both 0 0\n",
        "",
    ),
    // In a body, places are those of the sheet.
    (
        "cssmin blockers",
        b"@media print{\n.a{top:0}\n.b{top:1px}\n.a{top:2px}}",
        Status::Done,
        "blocked 2 6\n\
        kept 0 0\n\
        rules 2 6\n\
        both 0 0\n\
        stops 2 6 2 6 3:1 .b\n\
        best 3 JoinSelUp 2:1 4:1 .a{top:2px} .b{top:1px}\n",
        "",
    ),
    // Each of two stops the step, and neither alone.
    (
        "cssmin blockers",
        b".a{top:0}\n.b{top:1px}\n@x;\n.a{top:2px}",
        Status::Done,
        "blocked 2 6\n\
        kept 0 0\n\
        rules 0 0\n\
        both 2 6\n\
        stops 2 6 0 0 2:1 .b\n\
        stops 2 6 0 0 3:1 @x;\n",
        "",
    ),
    // What stops most bytes comes first.
    (
        "cssmin blockers",
        b".a{color:red}\n.c{color:blue}\n.d{color:red}\n.e{color:blue}\n.a.x{top:0}",
        Status::Done,
        "blocked 4 42\n\
        kept 0 0\n\
        rules 4 42\n\
        both 0 0\n\
        stops 2 22 2 22 3:1 .d\n\
        best 11 JoinDeclUp 2:1 4:1 .e{color:blue} .d{color:red}\n\
        stops 2 20 2 20 2:1 .c\n\
        best 10 JoinDeclUp 1:1 3:1 .d{color:red} .c{color:blue}\n",
        "",
    ),
    (
        "cssmin blockers",
        b"a{",
        Status::SheetRefused(SheetFault {
            kind: FaultKind::EndInside,
            at: 1,
        }),
        "",
        "refused: EndInside at 1 (1:2)\n",
    ),
];

#[test]
fn blockers_are_told(rt: HostRuntime) {
    end_so(&rt, rt.alloc(), ROWS);
}
