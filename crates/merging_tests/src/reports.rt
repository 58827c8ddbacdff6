//! The reports of small sheets, by hand.

use crate::sheets::{DOWN, UP};
use report_text::report;
use step_laws::{BlockCause, Step};

/// How many items and bytes were read and written, how many steps were taken, the blocked steps, and the report.
const ROWS: [(
    (u32, u32),
    (u64, u64),
    u32,
    &[(Option<u32>, Step, BlockCause)],
    &str,
); 6] = [
    (
        (3, 3),
        (31, 31),
        0,
        &[
            (None, UP, BlockCause::Meet(1)),
            (None, DOWN, BlockCause::Meet(1)),
        ],
        "items 3 3\nbytes 31 31\nsteps 0\nblocked JoinSelUp 1 3 meet 2\nblocked JoinSelDown 1 3 meet 2\n",
    ),
    (
        (3, 3),
        (39, 39),
        0,
        &[
            (None, UP, BlockCause::Outside(1, 13)),
            (None, DOWN, BlockCause::Outside(1, 13)),
        ],
        "items 3 3\nbytes 39 39\nsteps 0\nblocked JoinSelUp 1 3 outside 13 2\nblocked JoinSelDown 1 3 outside 13 2\n",
    ),
    (
        (2, 3),
        (64, 49),
        1,
        &[],
        "items 2 3\nbytes 64 49\nsteps 1\n",
    ),
    (
        (2, 2),
        (40, 40),
        0,
        &[(
            None,
            Step::Share { upper: 0, lower: 1 },
            BlockCause::Meet(0),
        )],
        "items 2 2\nbytes 40 40\nsteps 0\nblocked Share 1 2 meet 1\n",
    ),
    (
        (4, 4),
        (45, 45),
        0,
        &[
            (Some(0), UP, BlockCause::Meet(1)),
            (Some(0), DOWN, BlockCause::Meet(1)),
        ],
        "items 4 4\nbytes 45 45\nsteps 0\nblocked JoinSelUp 1.1 1.3 meet 1.2\nblocked JoinSelDown 1.1 1.3 meet 1.2\n",
    ),
    (
        (9, 9),
        (1_048_576, 4_294_967_296),
        7,
        &[
            (
                None,
                Step::CutDecl { item: 4, decl: 0 },
                BlockCause::Kept(9),
            ),
            (
                Some(1),
                Step::CutSel { item: 4, sel: 10 },
                BlockCause::Spent(4_294_967_295),
            ),
            (
                None,
                Step::JoinDeclUp { upper: 8, lower: 9 },
                BlockCause::Meet(0),
            ),
            (
                None,
                Step::JoinDeclDown { upper: 8, lower: 9 },
                BlockCause::Meet(0),
            ),
        ],
        "items 9 9\nbytes 1048576 4294967296\nsteps 7\nblocked CutDecl 5 1 kept 10\nblocked CutSel 2.5 11 spent 2.4294967296\nblocked JoinDeclUp 9 10 meet 1\nblocked JoinDeclDown 9 10 meet 1\n",
    ),
];

#[test]
fn what_is_reported(rt: HostRuntime) {
    for (items, bytes, taken, blocked, want) in &ROWS {
        let text = report(rt.alloc(), *items, *bytes, *taken, blocked).expect(&rt, "memory");
        assert!(rt; text.as_slice() == want.as_bytes(), "{want}");
    }
}
