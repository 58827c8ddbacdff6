//! The selectors of small sheets, worked by hand.

use crate::runs::{END_INSIDE, Row, end_so};
use css_model::{FaultKind, SheetFault};
use cssmin_run::Status;

const ROWS: &[Row] = &[
    (
        "cssmin dead",
        b"a:link:visited{top:0}p{top:0}",
        Status::Done,
        "1.1 dead\n2.1 alive\nchild 0 pseudo none\n0 1 - x\n1 1 * p\n",
        "",
    ),
    (
        "cssmin dead",
        b"#a #a,a>b:root{top:0}",
        Status::Done,
        "1.1 dead\n1.2 dead\n",
        "",
    ),
    ("cssmin dead", b"@x;", Status::Done, "", ""),
    // What is kept counts as an item.
    (
        "cssmin dead",
        b"@x;p::before{top:0}",
        Status::Done,
        "2.1 alive\nchild 0 pseudo before\n0 1 - x\n1 1 * p\n",
        "",
    ),
    (
        "cssmin dead",
        b"[class~=a]:not([class*=' ']):not([class*='\\9 ']):not([class*='\\a ']):not([class*='\\c ']):not([class*='\\d ']){top:0}",
        Status::Done,
        "1.1 outside 12\n",
        "",
    ),
    (
        "cssmin dead --budget 0",
        b".b~.b~.b~.b:nth-child(-n+3){top:0}",
        Status::Done,
        "1.1 spent\n",
        "",
    ),
    (
        "cssmin dead",
        b"a{b:\"x",
        END_INSIDE,
        "",
        "refused: EndInside at 4\n",
    ),
    (
        "cssmin dead",
        b"\xff",
        Status::SheetRefused(SheetFault {
            kind: FaultKind::NotUtf8,
            at: 0,
        }),
        "",
        "refused: NotUtf8 at 0\n",
    ),
];

#[test]
fn selectors_are_dead_or_alive(rt: HostRuntime) {
    end_so(&rt, rt.alloc(), ROWS);
}
