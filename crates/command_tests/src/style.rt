//! Documents and sheets with what is written of the winners, from the rules of CSS.

use crate::runs::{FAULTLESS, Row, end_so, ends};
use css_model::{FaultKind, SheetFault};
use cssmin_run::Status;
use style_text::DocFault;

const DOCUMENT: &[u8] = b"child 0 pseudo none\n0 1 - x\n1 4000000000 - li\n1 1 * li class=k\n\n";

/// Sheets after this document, with what is written.
const STYLED: &[(&[u8], &str)] = &[
    (
        b"li{color:red}li+li{color:blue}.k{top:0}li:nth-child(odd){color:green}.k{top:1px}",
        "kept 0\ncolor:green 0,1,1\ntop:1px 0,1,0\n",
    ),
    // Importance comes before specificity, and names ascend.
    (
        b"li{top:0!important}.k{top:1px;left:0}",
        "kept 0\nleft:0 0,1,0\ntop:0!important 0,0,1\n",
    ),
    // What kept items apply does not count.
    (
        b"li{top:0}@media all{li{top:1px}}li:is(li){top:2px}",
        "kept 2\ntop:0 0,0,1\n",
    ),
    // The sheet begins after the first empty line, and may have more of them.
    (
        b"\n\nli{top:0}\n\n.k{--\\c4:0}",
        "kept 0\n--\u{c4}:0 0,1,0\ntop:0 0,0,1\n",
    ),
    (b"", "kept 0\n"),
];

const ROWS: &[Row] = &[
    // An input without an empty line is a document.
    (
        "cssmin style",
        b"child 1 pseudo none\n0 1 * a\n",
        Status::Done,
        "kept 0\n",
        "",
    ),
    (
        "cssmin style",
        b"x",
        Status::DocRefused(DocFault::BadLine(1)),
        "",
        "document refused: line 1\n",
    ),
    (
        "cssmin style",
        b"",
        Status::DocRefused(DocFault::BadLine(1)),
        "",
        "document refused: line 1\n",
    ),
    (
        "cssmin style",
        b"\na{b:c}",
        Status::DocRefused(DocFault::BadLine(1)),
        "",
        "document refused: line 1\n",
    ),
    (
        "cssmin style",
        b"child 0 pseudo none\n0 1 * a",
        Status::DocRefused(DocFault::BadLine(2)),
        "",
        "document refused: line 2\n",
    ),
    // The document's fault comes before that of the sheet.
    (
        "cssmin style",
        b"child 0 pseudo none\n0 1 - a\n\na{",
        Status::DocRefused(DocFault::BadLine(2)),
        "",
        "document refused: line 2\n",
    ),
    (
        "cssmin style",
        b"child 0 pseudo none\n0 1 * a\n\na{",
        Status::SheetRefused(SheetFault {
            kind: FaultKind::EndInside,
            at: 1,
        }),
        "",
        "refused: EndInside at 1\n",
    ),
];

#[test]
fn winners_are_told(rt: HostRuntime) {
    let alloc = rt.alloc();
    for row in STYLED {
        let (sheet, lines) = *row;
        let mut input = DOCUMENT.to_vec(alloc).expect(&rt, "a document");
        input.extend_from_slice(sheet).expect(&rt, "a sheet");
        let end = (Status::Done, 0, lines.as_bytes(), b"".as_slice());
        ends(&rt, alloc, "cssmin style", input.as_slice(), FAULTLESS, end);
    }
}

#[test]
fn documents_come_before_sheets(rt: HostRuntime) {
    end_so(&rt, rt.alloc(), ROWS);
}
