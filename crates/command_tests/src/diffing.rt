//! All that is found in two small sheets, worked by hand. A line ends where the first sheet does.

use crate::runs::{Row, end_so};
use css_model::{FaultKind, SheetFault};
use cssmin_run::Status;

const ROWS: &[Row] = &[
    (
        "cssmin diff 16",
        b"a{top:0}b{top:0}\
        a,b{top:0}",
        Status::Done,
        "same\n",
        "",
    ),
    // The page shows the winners of both sheets.
    (
        "cssmin diff 20",
        b".a{top:0}.b{top:1px}\
        .b{top:1px}.a{top:0}",
        Status::Found,
        "reversed 1 related 0 masked 0 unsure 0 missing 0 extra 0 changed 0\n\
        reversed 1:4 .a{top:0} 1:13 .b{top:1px}\n\
        child 0 pseudo none\n\
        0 1 - x\n\
        1 1 * x class=a%20b\n\
        first 1:13 .b{top:1px}\n\
        second 1:15 .a{top:0}\n",
        "",
    ),
    // White space that says nothing is none.
    (
        "cssmin diff 48",
        b".a{color:rgba( 0, 0, 0 )}\n.b{font:1px / 2 x , y}\
        .a{color:rgba(0,0,0)}.b{font:1px/2 x,y}",
        Status::Done,
        "same\n",
        "",
    ),
    // Next to `+` it says something.
    (
        "cssmin diff 29",
        b".a{width:calc((1px) + (2px))}\
        .a{width:calc((1px)+(2px))}",
        Status::Found,
        "reversed 0 related 0 masked 0 unsure 0 missing 0 extra 0 changed 1\n\
        changed 1:4 .a{width:calc((1px) + (2px))} 1:4 width:calc((1px)+(2px))\n",
        "",
    ),
    // What lacks, what is besides, and what has another value.
    (
        "cssmin diff 34",
        b".a{color:#ffd700;top:0}\n.b{left:0}\
        .a{color:gold}.c{left:0}",
        Status::Found,
        "reversed 0 related 0 masked 0 unsure 0 missing 2 extra 1 changed 1\n\
        missing 1:18 .a{top:0}\n\
        missing 2:4 .b{left:0}\n\
        extra 1:18 .c{left:0}\n\
        changed 1:4 .a{color:#ffd700} 1:4 color:gold\n",
        "",
    ),
    // Blocks with one head are one, however the white space in the head.
    (
        "cssmin diff 69",
        b"@media (min-width: 1px){.a{top:0}}@media (min-width: 1px){.b{left:0}}\
        @media (min-width:1px){.a{top:0}.b{left:0}}",
        Status::Done,
        "same\n",
        "",
    ),
    // What stands in a block is told with its head.
    (
        "cssmin diff 34",
        b"@media print{.a{top:0}}.b{top:1px}\
        .b{top:1px}@media print{.a{top:0}}",
        Status::Found,
        "reversed 1 related 0 masked 0 unsure 0 missing 0 extra 0 changed 0\n\
        reversed 1:17 @media print{.a{top:0}} 1:27 .b{top:1px}\n\
        child 0 pseudo none\n\
        0 1 - x\n\
        1 1 * x class=a%20b\n\
        first 1:27 .b{top:1px}\n\
        second 1:28 @media print{.a{top:0}}\n",
        "",
    ),
    // Of blocks with two heads nothing is decided.
    (
        "cssmin diff 49",
        b"@media print{.a{top:0}}@media screen{.a{top:1px}}\
        @media screen{.a{top:1px}}@media print{.a{top:0}}",
        Status::Found,
        "reversed 0 related 0 masked 0 unsure 1 missing 0 extra 0 changed 0\n\
        unsure media 1:17 @media print{.a{top:0}} 1:41 @media screen{.a{top:1px}}\n",
        "",
    ),
    (
        "cssmin diff 38",
        b".a:is(b){top:0}.b{top:1px}.c{left:1px}\
        .b{top:1px}.c{left:1px}.a:is(b){top:0}",
        Status::Found,
        "reversed 0 related 0 masked 0 unsure 1 missing 0 extra 0 changed 0\n\
        unsure kept 1:1 .a:is(b) 1:19 .b{top:1px}\n",
        "",
    ),
    // A third rule has other winners elsewhere, and none on this page.
    (
        "cssmin diff 34",
        b".a{top:0}.b{top:1px}#c .a{top:2px}\
        .b{top:1px}.a{top:0}#c .a{top:2px}",
        Status::Found,
        "reversed 1 related 0 masked 0 unsure 0 missing 0 extra 0 changed 0\n\
        reversed 1:4 .a{top:0} 1:13 .b{top:1px}\n\
        child 0 pseudo none\n\
        0 1 - x\n\
        1 1 * x class=a%20b\n\
        first 1:13 .b{top:1px}\n\
        second 1:15 .a{top:0}\n",
        "",
    ),
    (
        "cssmin diff 31 --limit 2",
        b".a{top:0}.b{top:1px}.c{top:2px}\
        .c{top:2px}.b{top:1px}.a{top:0}",
        Status::Found,
        "reversed 2 related 0 masked 0 unsure 0 missing 0 extra 0 changed 0\n\
        reversed 1:4 .a{top:0} 1:13 .b{top:1px}\n\
        child 0 pseudo none\n\
        0 1 - x\n\
        1 1 * x class=a%20b\n\
        first 1:13 .b{top:1px}\n\
        second 1:26 .a{top:0}\n\
        reversed 1:4 .a{top:0} 1:24 .c{top:2px}\n\
        child 0 pseudo none\n\
        0 1 - x\n\
        1 1 * x class=a%20c\n\
        first 1:24 .c{top:2px}\n\
        second 1:26 .a{top:0}\n\
        limit 2\n",
        "",
    ),
    // Another pair wins in both sheets.
    (
        "cssmin diff 33",
        b".a{top:0}.b{top:1px}.a.b{top:2px}\
        .b{top:1px}.a{top:0}.a.b{top:2px}",
        Status::Found,
        "reversed 0 related 0 masked 1 unsure 0 missing 0 extra 0 changed 0\n\
        masked 1:4 .a{top:0} 1:13 .b{top:1px}\n",
        "",
    ),
    (
        "cssmin diff 33",
        b".a{border-top:0}.b{border-left:0}\
        .b{border-left:0}.a{border-top:0}",
        Status::Found,
        "reversed 0 related 1 masked 0 unsure 0 missing 0 extra 0 changed 0\n\
        related 1:4 .a{border-top:0} 1:20 .b{border-left:0}\n",
        "",
    ),
    // A longhand and its shorthand.
    (
        "cssmin diff 30",
        b".a{margin:0}.b{margin-top:1px}\
        .b{margin-top:1px}.a{margin:0}",
        Status::Found,
        "reversed 1 related 0 masked 0 unsure 0 missing 0 extra 0 changed 0\n\
        reversed 1:4 .a{margin:0} 1:16 .b{margin-top:1px}\n\
        child 0 pseudo none\n\
        0 1 - x\n\
        1 1 * x class=a%20b\n\
        first 1:16 .b{margin-top:1px}\n\
        second 1:22 .a{margin:0}\n",
        "",
    ),
    // Custom properties count by their bytes.
    (
        "cssmin diff 40",
        b"@font-face{font-family:\"I\"}.a{--x: 1, 2}\
        @font-face{ font-family:\"J\" }.a{--x:1,2}",
        Status::Found,
        "reversed 0 related 0 masked 0 unsure 0 missing 0 extra 0 changed 2\n\
        changed 1:1 @font-face 1:1\n\
        changed 1:31 .a{--x:1, 2} 1:33 --x:1,2\n",
        "",
    ),
    (
        "cssmin diff 9",
        b"a{top:0}",
        Status::NoSplit(9),
        "",
        "no split 9\n",
    ),
    // The place is one of the second sheet.
    (
        "cssmin diff 8",
        b"a{top:0}\
        \nb{top:\"",
        Status::SecondRefused(SheetFault {
            kind: FaultKind::EndInside,
            at: 7,
        }),
        "",
        "second refused: EndInside at 7 (2:7)\n",
    ),
    (
        "cssmin diff 4",
        b"a{\"b\
        {top:0}",
        Status::SheetRefused(SheetFault {
            kind: FaultKind::EndInside,
            at: 2,
        }),
        "",
        "refused: EndInside at 2 (1:3)\n",
    ),
];

#[test]
fn differences_are_told(rt: HostRuntime) {
    end_so(&rt, rt.alloc(), ROWS);
}
