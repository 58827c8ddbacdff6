//! What the rules of small sheets apply to an element, worked by hand.

use crate::runs::{FAULTLESS, Row, end_so, ends};
use css_model::{FaultKind, SheetFault};
use cssmin_run::Status;
use style_text::DocFault;

const DOCUMENT: &[u8] = b"child 0 pseudo none\n0 1 - x\n1 1 * a class=b\n\n";

/// Sheets after this document, with what is written.
const INSPECTED: &[(&[u8], &str)] = &[
    // Of one importance the specificity decides, and then the place.
    (
        b"a{top:0}\n.b{top:1px;left:0}",
        "kept 0\n\nwins 2:12 0,1,0 .b{left:0}\nwins 2:4 0,1,0 .b{top:1px}\nlost 1:3 0,0,1 a{top:0}\n",
    ),
    (
        b".b{margin:0}\na{margin-left:1px!important}",
        "kept 0\n\nwins 2:3 0,0,1 a{margin-left:1px!important}\nwins 1:4 0,1,0 .b{margin:0}\n",
    ),
    (
        b".b{top:0}@media print{.b{top:1px}}a{top:2px}",
        "kept 0\n\nwhen 1:26 0,1,0 .b{top:1px} @media print\nwins 1:4 0,1,0 .b{top:0}\nlost 1:37 0,0,1 a{top:2px}\n",
    ),
    (
        b".b{top:0}@media print{a{top:1px!important}}",
        "kept 0\n\nwhen 1:25 0,0,1 a{top:1px!important} @media print\nwins 1:4 0,1,0 .b{top:0}\n",
    ),
    // `all` is in each group, and in one of its own where nothing else applies.
    (
        b".b{top:0;all:unset}a{color:red}@x;",
        "kept 1\n\nwins 1:10 0,1,0 .b{all:unset}\nlost 1:22 0,0,1 a{color:red}\n\nwins 1:10 0,1,0 .b{all:unset}\nlost 1:4 0,1,0 .b{top:0}\n",
    ),
    (b"a{all:unset}", "kept 0\n\nwins 1:3 0,0,1 a{all:unset}\n"),
    (
        b"@media print{.b{all:unset}}a{color:red}",
        "kept 0\n\nwhen 1:17 0,1,0 .b{all:unset} @media print\nwins 1:30 0,0,1 a{color:red}\n",
    ),
    (b"c{top:0}", "kept 0\n"),
    (b"", "kept 0\n"),
    // Each selector of a rule that matches has its entries.
    (
        b"a,.b{top:0;top:calc(1px)}",
        "kept 0\n\nwins 1:12 0,1,0 .b{top:calc(1px)}\nlost 1:6 0,1,0 .b{top:0}\nlost 1:12 0,0,1 a{top:calc(1px)}\nlost 1:6 0,0,1 a{top:0}\n",
    ),
    // Nothing loses to what stands under another head.
    (
        b"@media print{.b{top:1px;top:2px}}@media screen{a{top:3px}}@media print{a{top:4px}}",
        "kept 0\n\nwhen 1:25 0,1,0 .b{top:2px} @media print\nlost 1:17 0,1,0 .b{top:1px} @media print\nlost 1:74 0,0,1 a{top:4px} @media print\nwhen 1:50 0,0,1 a{top:3px} @media screen\n",
    ),
    // The groups ascend by the names of their families.
    (
        b".b{margin-top:0;color:red;margin:1px}",
        "kept 0\n\nwins 1:17 0,1,0 .b{color:red}\n\nwins 1:27 0,1,0 .b{margin:1px}\nwins 1:4 0,1,0 .b{margin-top:0}\n",
    ),
    // A kept item of an opened block counts, and the block does not.
    (
        b"@media print{p::marker{top:0}.b{top:0}}@media screen{@import \"x\";a{top:0}}",
        "kept 2\n\nwhen 1:33 0,1,0 .b{top:0} @media print\n",
    ),
    // A column counts code points, from the start of the sheet's line.
    (
        b"/*\xc3\xa9*/.b{--\xc3\xa9:0}",
        "kept 0\n\nwins 1:9 0,1,0 .b{--\u{e9}:0}\n",
    ),
    // A line feed in a selector is a space.
    (
        b".b[class=\"\\\nb\"]{top:0}",
        "kept 0\n\nwins 2:5 0,2,0 .b[class=\"\\ b\"]{top:0}\n",
    ),
];

const ROWS: &[Row] = &[
    (
        "cssmin inspect",
        b"x",
        Status::DocRefused(DocFault::BadLine(1)),
        "",
        "document refused: line 1\n",
    ),
    // The document's fault comes before that of the sheet.
    (
        "cssmin inspect",
        b"child 0 pseudo none\n0 1 - a\n\na{",
        Status::DocRefused(DocFault::BadLine(2)),
        "",
        "document refused: line 2\n",
    ),
    // The place is one in the sheet.
    (
        "cssmin inspect",
        b"child 0 pseudo none\n0 1 - x\n1 1 * a class=b\n\na{top:0}\nb{",
        Status::SheetRefused(SheetFault {
            kind: FaultKind::EndInside,
            at: 10,
        }),
        "",
        "refused: EndInside at 10 (2:2)\n",
    ),
    // An input without an empty line is a document.
    (
        "cssmin inspect",
        b"child 1 pseudo none\n0 1 * a\n",
        Status::Done,
        "kept 0\n",
        "",
    ),
];

#[test]
fn entries_are_told(rt: HostRuntime) {
    let alloc = rt.alloc();
    for row in INSPECTED {
        let (sheet, lines) = *row;
        let mut input = DOCUMENT.to_vec(alloc).expect(&rt, "a document");
        input.extend_from_slice(sheet).expect(&rt, "a sheet");
        let end = (Status::Done, 0, lines.as_bytes(), b"".as_slice());
        ends(
            &rt,
            alloc,
            "cssmin inspect",
            input.as_slice(),
            FAULTLESS,
            end,
        );
    }
}

#[test]
fn documents_come_before_inspected_sheets(rt: HostRuntime) {
    end_so(&rt, rt.alloc(), ROWS);
}
