//! Faults of each read and each write of a small sheet.

use crate::runs::{End, FAULTLESS, Outside, SHEET, ends};
use cssmin_run::Status;
use std::alloc::Global;
use std::process::Abort;

const PRINTED: &[u8] = b"a{color:red}";

/// Each call gives or takes one byte.
const BY_BYTES: Outside<'static> = Outside {
    piece: 1,
    ..FAULTLESS
};

/// Lines of words, with how the streams behave and the ends.
const ENDS: &[(&str, Outside<'static>, End<'static>)] = &[
    ("cssmin min", BY_BYTES, (Status::Done, 0, PRINTED, b"")),
    // The read before it has found the end.
    (
        "cssmin min",
        Outside {
            failing_reads: &[20],
            ..BY_BYTES
        },
        (Status::Done, 0, PRINTED, b""),
    ),
    // The write before it was the last.
    (
        "cssmin min",
        Outside {
            failing_writes: &[12],
            ..BY_BYTES
        },
        (Status::Done, 0, PRINTED, b""),
    ),
    (
        "cssmin min",
        Outside {
            room: 5,
            ..FAULTLESS
        },
        (Status::WriteFault, 0, b"a{col", b"write fault\n"),
    ),
    // After a fault of the report alone the whole text is on the output.
    (
        "cssmin min --report",
        Outside {
            err_room: 8,
            ..FAULTLESS
        },
        (Status::WriteFault, 0, PRINTED, b"items 1 "),
    ),
    // A status that cannot be written stays.
    (
        "cssmin min",
        Outside {
            failing_writes: &[0],
            err_room: 0,
            ..FAULTLESS
        },
        (Status::WriteFault, 0, b"", b""),
    ),
    (
        "cssmin min",
        Outside {
            err_room: 0,
            ..FAULTLESS
        },
        (Status::Done, 0, PRINTED, b""),
    ),
    (
        "cssmin",
        Outside {
            err_room: 0,
            ..FAULTLESS
        },
        (Status::Usage, 19, b"", b""),
    ),
];

#[test]
fn streams_may_fail(rt: HostRuntime) {
    for row in ENDS {
        let (line, outside, end) = *row;
        ends(&rt, rt.alloc(), line, SHEET, outside, end);
    }
}

#[test]
fn each_read_may_fail(rt: HostRuntime) {
    for call in 0..20 {
        let outside = Outside {
            failing_reads: &[call as u64],
            ..BY_BYTES
        };
        let told = b"read fault\n".as_slice();
        let end = (Status::ReadFault, 19 - call, b"".as_slice(), told);
        ends(&rt, rt.alloc(), "cssmin min", SHEET, outside, end);
    }
}

/// Each write of this text may fail, and then a front of it is on the output.
fn each_write_fails(rt: &impl Abort, alloc: Global, line: &str, left: usize, text: &[u8]) {
    for call in 0..text.len() {
        let outside = Outside {
            failing_writes: &[call as u64],
            ..BY_BYTES
        };
        let told = b"write fault\n".as_slice();
        let end = (Status::WriteFault, left, &text[..call], told);
        ends(rt, alloc, line, SHEET, outside, end);
    }
}

#[test]
fn each_write_may_fail(rt: HostRuntime) {
    let alloc = rt.alloc();
    each_write_fails(&rt, alloc, "cssmin min", 0, PRINTED);
    let line = "cssmin cmp a:link a:visited";
    each_write_fails(&rt, alloc, line, SHEET.len(), b"disjoint\n");
}
