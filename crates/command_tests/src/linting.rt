//! What can go from small sheets, worked by hand.

use crate::runs::{Row, end_so};
use css_model::{FaultKind, SheetFault};
use cssmin_run::Status;

const ROWS: &[Row] = &[
    (
        "cssmin lint",
        b"a:link:visited{top:0}p{top:0}",
        Status::Found,
        "1:1 dead a:link:visited\n",
        "",
    ),
    // The body of an opened block is looked at too. A selector is told as it is printed.
    (
        "cssmin lint",
        b"#a #a,a>b:root{top:0}\n@media print{\n  a:empty > b{top:0}}",
        Status::Found,
        "1:1 dead #a #a\n1:7 dead a>b:root\n3:3 dead a:empty>b\n",
        "",
    ),
    (
        "cssmin lint",
        b".a{top:0;left:0}\n.b{top:0}\n.a{top:0}",
        Status::Found,
        "1:4 repeated top:0 3:4\n",
        "",
    ),
    // One of two selectors has the declaration for the last time.
    (
        "cssmin lint",
        b".a,.b{top:0}.a{top:0}",
        Status::Done,
        "",
        "",
    ),
    (
        "cssmin lint",
        b".a,.b{top:0}.a{top:0}.b{top:0}",
        Status::Found,
        "1:7 repeated top:0 1:16\n",
        "",
    ),
    // A declaration with another value is no repetition: it may be a fallback.
    (
        "cssmin lint",
        b".a{color:red;color:red}.a{background:red;background:linear-gradient(red,blue)}",
        Status::Found,
        "1:4 repeated color:red 1:14\n",
        "",
    ),
    // Each body is a sheet of its own.
    (
        "cssmin lint",
        b"@media print{.a{top:0}}@media print{.a{top:0}}.a{top:0}",
        Status::Done,
        "",
        "",
    ),
    // The lines ascend by place, also after a block.
    (
        "cssmin lint",
        b"a:root b:root{top:0}@media print{a:root b:root{top:0;top:0}}.\xc3\xa9{top:0;top:0}",
        Status::Found,
        "1:1 dead a:root b:root\n1:34 dead a:root b:root\n1:48 repeated top:0 1:54\n1:64 repeated top:0 1:70\n",
        "",
    ),
    ("cssmin lint", b"", Status::Done, "", ""),
    (
        "cssmin lint",
        b"a{b:\"x",
        Status::SheetRefused(SheetFault {
            kind: FaultKind::EndInside,
            at: 4,
        }),
        "",
        "refused: EndInside at 4 (1:5)\n",
    ),
    // An undecided selector is not told: no white space is left for the word, or the budget was spent.
    (
        "cssmin lint --budget 0",
        b"[a~=b]:not([a*=\"\\9\\a\\c\\d\\20\"]){top:0}",
        Status::Done,
        "",
        "",
    ),
    (
        "cssmin lint --budget 0",
        b".b~.b~.b~.b:nth-child(-n+3){top:0}",
        Status::Done,
        "",
        "",
    ),
];

#[test]
fn findings_are_told(rt: HostRuntime) {
    end_so(&rt, rt.alloc(), ROWS);
}
