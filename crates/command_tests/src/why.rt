//! Moves in a page's sheet and in small ones, worked by hand.

use crate::runs::{END_INSIDE, Row, end_so};
use cssmin_run::Status;

/// The usual sheet of a page.
const PAGE: &[u8] = b"/* base */
@font-face { font-family: \"Icon\"; src: url(icon.woff) }
html { font-size: 16px; -webkit-text-size-adjust: 100% }
body { margin: 0; color: #222 }
h1, h2 { margin: 0 }
a { color: #06c; text-decoration: none }
a:hover { color: #048 }
img { border: 0 }
.row { margin: 0 -8px }
.row::before { content: \"\"; display: table }
.row::after { content: \"\"; display: table }
.row::after { clear: both }
.col { float: left; padding: 0 8px }
.half { width: 50% }
.third { width: 33% }
.col { box-sizing: border-box }
.note { color: #555 }
.btn { color: #fff; background: #06c }
.btn:hover { background: #048 }
.btn:focus-visible { outline: 2px solid }
.link { color: #06c; text-decoration: none }
.hide { display: none }
ul { margin: 0 }
@media print { .hide { display: block } }
.note { padding: 4px }
@media (max-width: 600px) { .half { width: 100% } }
";

const SMALL: &[u8] = b".a{top:0}.b{top:1px}.a{top:2px}@x;";

const ROWS: &[Row] = &[
    (
        "cssmin why 20 17",
        PAGE,
        Status::Done,
        "blocked\n.link{color:#06c}\n.btn{color:#fff}\nchild 0 pseudo none\n0 1 - x\n1 1 * x class=link%20btn\n",
        "",
    ),
    ("cssmin why 15 13", PAGE, Status::Done, "free\n", ""),
    ("cssmin why 24 22", PAGE, Status::Done, "kept 23\n", ""),
    // A kept item is not moved.
    ("cssmin why 1 1", PAGE, Status::Done, "kept 1\n", ""),
    ("cssmin why 4 1", SMALL, Status::Done, "kept 4\n", ""),
    (
        "cssmin why 3 1",
        SMALL,
        Status::Done,
        "blocked\n.a{top:2px}\n.b{top:1px}\nchild 0 pseudo none\n0 1 - x\n1 1 * x class=a%20b\n",
        "",
    ),
    // The nearest one is the answer, and a place is given back.
    (
        "cssmin why 4 1",
        b".a{top:0}.b{top:1px}.a.c{top:2px}.d{top : 3px !important;top:4px}",
        Status::Done,
        "blocked\n.d{top:4px}\n.b{top:1px}\nchild 0 pseudo none\n0 1 - x\n1 1 * x class=d%20b\n",
        "",
    ),
    ("cssmin why 1 1", b".a{top:0}", Status::Done, "free\n", ""),
    ("cssmin why 1 1", SMALL, Status::Done, "free\n", ""),
    (
        "cssmin why 1 2",
        b"p:nth-child(2n):nth-child(3n):nth-child(5n){top:0}p.a:nth-child(7n):nth-child(11n){top:1px}",
        Status::Done,
        "outside 11\n",
        "",
    ),
    (
        "cssmin why 1 26",
        PAGE,
        Status::NoItem(26),
        "",
        "no item 26\n",
    ),
    (
        "cssmin why 0 26",
        PAGE,
        Status::NoItem(0),
        "",
        "no item 0\n",
    ),
    (
        "cssmin why 26 0",
        PAGE,
        Status::NoItem(26),
        "",
        "no item 26\n",
    ),
    (
        "cssmin why 1 5",
        SMALL,
        Status::NoItem(5),
        "",
        "no item 5\n",
    ),
    (
        "cssmin why 0 1",
        SMALL,
        Status::NoItem(0),
        "",
        "no item 0\n",
    ),
    (
        "cssmin why 6 0",
        SMALL,
        Status::NoItem(6),
        "",
        "no item 6\n",
    ),
    // A fault comes before a missing item.
    (
        "cssmin why 0 0",
        b"a{b:\"x",
        END_INSIDE,
        "",
        "refused: EndInside at 4\n",
    ),
];

#[test]
fn moves_are_explained(rt: HostRuntime) {
    end_so(&rt, rt.alloc(), ROWS);
}
