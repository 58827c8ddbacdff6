//! Two small sheets, worked by hand. A line ends where the first one does.

use crate::runs::{END_INSIDE, Row, end_so};
use css_model::{FaultKind, SheetFault};
use cssmin_run::Status;

const SECOND_END_INSIDE: Status = Status::SecondRefused(SheetFault {
    kind: FaultKind::EndInside,
    at: 4,
});

const ROWS: &[Row] = &[
    (
        "cssmin same 16",
        b"a{top:0}b{top:0}\
        a,b{top:0}",
        Status::Done,
        "same\n",
        "",
    ),
    (
        "cssmin same 20",
        b".a{top:0}.b{top:1px}\
        .b{top:1px}.a{top:0}",
        Status::Done,
        "reversed\n.a{top:0}\n.b{top:1px}\nchild 0 pseudo none\n0 1 - x\n1 1 * x class=a%20b\n",
        "",
    ),
    (
        "cssmin same --budget 0 20",
        b".a{top:0}.b{top:1px}\
        .b{top:1px}.a{top:0}",
        Status::Done,
        "reversed\n.a{top:0}\n.b{top:1px}\nchild 0 pseudo none\n0 1 - x\n1 1 * x class=a%20b\n",
        "",
    ),
    (
        "cssmin same 8",
        b"a{top:0}",
        Status::Done,
        "missing a{top:0}\n",
        "",
    ),
    (
        "cssmin same 0",
        b"a{top:0}",
        Status::Done,
        "extra a{top:0}\n",
        "",
    ),
    // A pair is printed from its own sheet.
    (
        "cssmin same 0",
        b"a{ Top : 0 }",
        Status::Done,
        "extra a{Top:0}\n",
        "",
    ),
    (
        "cssmin same 6",
        b"@x;@y;\
        @x;@z;",
        Status::Done,
        "kept 2\n",
        "",
    ),
    // It is printed from the bodies where it is found there.
    (
        "cssmin same 40",
        b"@x;@media print{ .a{top:0} .b{top:1px} }\
        @x;@media print{.b{top:1px}.a{top:0}}",
        Status::Done,
        "reversed\n.a{top:0}\n.b{top:1px}\nchild 0 pseudo none\n0 1 - x\n1 1 * x class=a%20b\n",
        "",
    ),
    (
        "cssmin same 45",
        b"@media print{a{top:0}}@media screen{a{top:0}}\
        @media print{a{top:0}}@media screen{a{top:0;left:0}}",
        Status::Done,
        "extra a{left:0}\n",
        "",
    ),
    (
        "cssmin same 91",
        b"p:nth-child(2n):nth-child(3n):nth-child(5n){top:0}p.a:nth-child(7n):nth-child(11n){top:1px}\
        p.a:nth-child(7n):nth-child(11n){top:1px}p:nth-child(2n):nth-child(3n):nth-child(5n){top:0}",
        Status::Done,
        "unsure 11\n",
        "",
    ),
    (
        "cssmin same --budget 0 42",
        b"a~a~:nth-child(-n+4){top:0}b~b~.c{top:1px}\
        b~b~.c{top:1px}a~a~:nth-child(-n+4){top:0}",
        Status::Done,
        "unsure spent\n",
        "",
    ),
    (
        "cssmin same 9",
        b"a{top:0}",
        Status::NoSplit(9),
        "",
        "no split 9\n",
    ),
    (
        "cssmin same 9",
        b"a{b:\"x",
        Status::NoSplit(9),
        "",
        "no split 9\n",
    ),
    // The first one comes before the second one.
    (
        "cssmin same 6",
        b"a{b:\"x\
        a{b:\"x",
        END_INSIDE,
        "",
        "refused: EndInside at 4\n",
    ),
    // The place is one of the second sheet.
    (
        "cssmin same 6",
        b"a{b:c}\
        a{b:\"x",
        SECOND_END_INSIDE,
        "",
        "second refused: EndInside at 4\n",
    ),
    (
        "cssmin same 2",
        b"@;\
        a{b:\"x",
        SECOND_END_INSIDE,
        "",
        "second refused: EndInside at 4\n",
    ),
];

#[test]
fn sheets_are_compared(rt: HostRuntime) {
    end_so(&rt, rt.alloc(), ROWS);
}
