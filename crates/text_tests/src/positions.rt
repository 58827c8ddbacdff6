//! The An+B notation, its positions, and how far a gap between siblings has to be looked at.

use css_model::AnB;
use nth_positions::{AnbFault, Bounds, bounds, member, read_anb, reduce};

#[test]
fn reads_the_notation(rt: HostRuntime) {
    for (text, a, b) in [
        ("odd", 2, 1),
        ("ODD", 2, 1),
        ("even", 2, 0),
        ("eVeN", 2, 0),
        ("2n+1", 2, 1),
        ("2n+0", 2, 0),
        ("2n", 2, 0),
        ("2N", 2, 0),
        ("10n-1", 10, -1),
        ("10n+9", 10, 9),
        ("0n+5", 0, 5),
        ("5", 0, 5),
        ("1n+0", 1, 0),
        ("n+0", 1, 0),
        ("n", 1, 0),
        ("-n+6", -1, 6),
        (" 3n + 1 ", 3, 1),
        (" +3n - 2 ", 3, -2),
        ("-n+ 6", -1, 6),
        ("+6", 0, 6),
        ("+n", 1, 0),
        ("n- 1", 1, -1),
        ("n -1", 1, -1),
        ("-n-1", -1, -1),
        ("-0", 0, 0),
        ("-5", 0, -5),
        ("2n + 1", 2, 1),
        ("n + 1", 1, 1),
        ("007n-0008", 7, -8),
        ("+0n-0", 0, 0),
        ("/**/2n/*+*/+/* */1/***/", 2, 1),
        ("/*a*/ odd\t/**/", 2, 1),
        ("\n-3\r", 0, -3),
        ("32n+1000", 32, 1000),
        ("-32n-1000", -32, -1000),
        ("000000000000000000000000000000000032N", 32, 0),
        ("n/*/*/", 1, 0),
        ("/* 2n */4n", 4, 0),
        // The forms that are printed.
        ("0", 0, 0),
        ("7", 0, 7),
        ("-7", 0, -7),
        ("-n", -1, 0),
        ("-2n", -2, 0),
        ("n+1", 1, 1),
        ("n-1", 1, -1),
        ("-n+3", -1, 3),
        ("-n-3", -1, -3),
        ("3n+2", 3, 2),
        ("3n-2", 3, -2),
        ("-32n+1000", -32, 1000),
    ] {
        assert_eq!(rt; read_anb(text.as_bytes()), Ok(AnB { a, b }), "at {text}");
    }
}

/// Texts that are not in the notation.
const OTHERS: [&str; 43] = [
    "",
    " ",
    "3 n",
    "+ 2n",
    "+ 2",
    "2n+ -1",
    "10n+-1",
    "n- +1",
    "2 n",
    "2n 1",
    "2n-",
    "--n",
    "+-n",
    "+",
    "-",
    "nn",
    "2.5n",
    "1e1",
    "2e1n",
    "oddx",
    "odd1",
    "+odd",
    "-even",
    "o dd",
    "odd+1",
    "2n+odd",
    "2/**/n",
    "+/**/n",
    "/*",
    "2n/*",
    "2n/*/",
    "2n+1/**",
    "/ 5",
    "\u{b}n",
    "n n",
    "5n+1n",
    "\\6e",
    "2n+1,",
    "é",
    "n+",
    "n/**/-/**/",
    "1 2",
    "o/**/dd",
];

/// Texts in the notation with a number beyond the limits.
const TOO_GREAT: [&str; 12] = [
    "33n",
    "-33n",
    "n+1001",
    "n-1001",
    "1001",
    "-1001",
    "33n+1001",
    " 100n ",
    "99999999999999999999999999999999999999n",
    "n + 18446744073709551617",
    "4294967297",
    "4294967296n-1",
];

#[test]
fn refuses_other_texts(rt: HostRuntime) {
    for (texts, fault) in [
        (&OTHERS[..], AnbFault::NotAnB),
        (&TOO_GREAT, AnbFault::OutOfRange),
    ] {
        for text in texts {
            assert_eq!(rt; read_anb(text.as_bytes()), Err(fault), "at {text}");
        }
    }
}

#[test]
fn members_are_the_positions_of_a_step(rt: HostRuntime) {
    for (a, b, k, want) in [
        (-1, 3, 4, false),
        (-1, 3, 3, true),
        (-1, 3, 1, true),
        (-1, 3, 0, true),
        (2, 1, 1, true),
        (2, 1, 2, false),
        (2, 1, 4294967295, true),
        (2, 3, 1, false),
        (2, 0, 0, true),
        (0, 5, 5, true),
        (0, 5, 6, false),
        (0, -5, 5, false),
        (3, -2, 1, true),
        (3, -2, 4, true),
        (3, -2, 3, false),
        (-3, -2, 1, false),
        (2147483647, -2147483648, 4294967293, true),
        (-2147483648, 2147483647, 2147483647, true),
    ] {
        assert_eq!(rt; member(AnB { a, b }, k), want, "at {a}n+{b} and {k}");
    }
}

#[test]
fn bounds_are_those_of_all_steps_and_offsets(rt: HostRuntime) {
    assert_eq!(rt;
        bounds(&[]),
        Bounds {
            threshold: 1,
            period: 1,
            width: 6
        }
    );
    assert_eq!(rt;
        bounds(&[
            AnB { a: -4, b: 0 },
            AnB { a: 6, b: -7 },
            AnB { a: 0, b: 30 }
        ]),
        Bounds {
            threshold: 30,
            period: 12,
            width: 10
        }
    );
    assert_eq!(rt;
        bounds(&[
            AnB { a: 32, b: 1000 },
            AnB { a: 31, b: -1000 },
            AnB { a: 29, b: 3 },
            AnB { a: -27, b: 0 },
        ]),
        Bounds {
            threshold: 1000,
            period: 776736,
            width: 25
        }
    );
}

/// These four have no factor in common, so their period is the longest.
#[test]
fn four_steps_have_the_longest_period(rt: HostRuntime) {
    assert_eq!(rt;
        bounds(&[
            AnB { a: 32, b: 0 },
            AnB { a: 31, b: 0 },
            AnB { a: 29, b: 0 },
            AnB { a: 27, b: 0 },
        ]),
        Bounds {
            threshold: 1,
            period: 776736,
            width: 25
        }
    );
}

#[test]
fn bounds_reduce_gaps(rt: HostRuntime) {
    let bound = bounds(&[AnB { a: 32, b: 1 }, AnB { a: 31, b: 5 }]);
    assert_eq!(rt;
        bound,
        Bounds {
            threshold: 5,
            period: 992,
            width: 15
        }
    );
    for (gap, want) in [
        (0, 0),
        (4, 4),
        (5, 5),
        (996, 996),
        (997, 5),
        (998, 6),
        (2000, 16),
    ] {
        assert_eq!(rt; reduce(gap, &bound), want, "at {gap}");
    }
}
