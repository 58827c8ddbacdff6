//! The items of small sheets with their places, worked by hand.

use crate::runs::{Row, end_so};
use css_model::{FaultKind, SheetFault};
use cssmin_run::Status;

const ROWS: &[Row] = &[
    ("cssmin list", b"", Status::Done, "", ""),
    (
        "cssmin list",
        b"/* x */\na , b > c { top: 0 }\n  @import \"u\";\np::marker{left:0}\na{}\n",
        Status::Done,
        "1 2:1 block a , b > c\n2 3:3 block @import \"u\";\n3 4:1 kept:2 p::marker\n",
        "",
    ),
    (
        "cssmin list",
        b"@media print { a{top:0}\n .x:is(b){top:0} }\nb{top:0}",
        Status::Done,
        "1 1:1 media @media print\n1.1 1:16 rule a\n1.2 2:2 kept:1 .x:is(b)\n2 3:1 rule b\n",
        "",
    ),
    // A carriage return ends a line, and one before a line feed does so with it.
    (
        "cssmin list",
        b"@font-face { font-family: \"I\" }\r\na{top:0;&:hover{left:0}}\r.b{top:0}",
        Status::Done,
        "1 1:1 block @font-face\n2 2:1 block a\n3 3:1 rule .b\n",
        "",
    ),
    // A column counts code points, but no byte order mark. A line feed in a head is a space.
    (
        "cssmin list",
        b"\xef\xbb\xbf.\xc3\xa9{top:0}.z[a=\"\\\n\"]{top:0}",
        Status::Done,
        "1 1:1 rule .\u{e9}\n2 1:10 rule .z[a=\"\\ \"]\n",
        "",
    ),
    // What is dropped has no number, and `<!--` and `-->` are no items.
    (
        "cssmin list",
        b"a{\n}\n<!-- b{top:0} -->@media screen{}\n@namespaced x;c",
        Status::Done,
        "1 3:6 rule b\n2 3:18 media @media screen\n3 4:1 block @namespaced x;\n",
        "",
    ),
    // A block with an `@import` in it is not opened.
    (
        "cssmin list",
        b"@media print{@import \"x\";a{top:0}}c{}@x",
        Status::Done,
        "1 1:1 block @media print\n2 1:38 block @x\n",
        "",
    ),
    (
        "cssmin list",
        b"a{b:c}\n.d{e:f",
        Status::SheetRefused(SheetFault {
            kind: FaultKind::EndInside,
            at: 9,
        }),
        "",
        "refused: EndInside at 9 (2:3)\n",
    ),
    (
        "cssmin list",
        b"\xc3\xa9{}\n\xc3\xa9\xff",
        Status::SheetRefused(SheetFault {
            kind: FaultKind::NotUtf8,
            at: 7,
        }),
        "",
        "refused: NotUtf8 at 7 (2:2)\n",
    ),
];

#[test]
fn items_are_listed(rt: HostRuntime) {
    end_so(&rt, rt.alloc(), ROWS);
}
