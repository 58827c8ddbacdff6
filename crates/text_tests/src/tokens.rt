//! Tokens, and what names say once their escapes are read (CSS Syntax 3, section 4).

use crate::reading::text;
use css_model::{Piece, Token, TokenFault, TokenKind};
use css_tokens::{NotUtf8, Tokens, decode, ends_open, is_named};
use std::process::Abort;
use std::test::Fail;

/// A source, its tokens, and the fault after them. A token is given by its kind, where it begins and ends, and whether
/// a comment ends where it begins.
type Row<'a> = (
    &'a [u8],
    &'a [(TokenKind, u32, u32, bool)],
    Option<TokenFault>,
);

/// Reads a source to its end or to a fault, and asks once more.
fn reads(rt: &impl Abort, row: Row, sheet: bool) {
    let (source, tokens, fault) = row;
    assert!(rt; source.len() <= 1_048_576);
    let mut reader = Tokens::new(source, sheet).expect(rt, "a source of UTF-8");
    for (kind, start, end, comment_before) in tokens {
        let token = Token {
            kind: *kind,
            span: Piece {
                start: *start,
                end: *end,
            },
            comment_before: *comment_before,
        };
        assert_eq!(rt; reader.next(), Ok(Some(token)), "at {start} of {source:?}");
    }
    let last = match fault {
        Some(fault) => Err(fault),
        None => Ok(None),
    };
    assert_eq!(rt; reader.next(), last, "of {source:?}");
    assert_eq!(rt; reader.next(), last, "of {source:?}");
}

/// White space, comments, and strings, which go to their quote.
const SPACES_AND_STRINGS: [Row<'static>; 9] = [
    (b"", &[], None),
    (b" \t\r\n\x0C", &[(TokenKind::White, 0, 5, false)], None),
    (
        b"a/**//***/ /*/*/b/**/",
        &[
            (TokenKind::Ident, 0, 1, false),
            (TokenKind::White, 10, 11, true),
            (TokenKind::Ident, 16, 17, true),
        ],
        None,
    ),
    (
        b"a/*/",
        &[(TokenKind::Ident, 0, 1, false)],
        Some(TokenFault::EndInside { at: 1 }),
    ),
    (b"/", &[(TokenKind::Delim(47), 0, 1, false)], None),
    (
        b"\"a'\\\"\\\r\n\"'\"'",
        &[
            (TokenKind::Str, 0, 9, false),
            (TokenKind::Str, 9, 12, false),
        ],
        None,
    ),
    (
        b" 'a\n'",
        &[(TokenKind::White, 0, 1, false)],
        Some(TokenFault::BadString { at: 1 }),
    ),
    (b"'a\\", &[], Some(TokenFault::EndInside { at: 0 })),
    (b"\"a", &[], Some(TokenFault::EndInside { at: 0 })),
];

/// Names make hashes, keywords and functions; numbers take what belongs to them; signs are tokens by themselves.
const NAMES_AND_NUMBERS: [Row<'static>; 8] = [
    (
        b"#-a#1#-#--",
        &[
            (TokenKind::IdHash, 0, 3, false),
            (TokenKind::Hash, 3, 5, false),
            (TokenKind::Hash, 5, 7, false),
            (TokenKind::IdHash, 7, 10, false),
        ],
        None,
    ),
    (
        b"@-m@-1f(--",
        &[
            (TokenKind::AtKeyword, 0, 3, false),
            (TokenKind::Delim(64), 3, 4, false),
            (TokenKind::Dimension, 4, 7, false),
            (TokenKind::Sign(40), 7, 8, false),
            (TokenKind::Ident, 8, 10, false),
        ],
        None,
    ),
    (
        b"\xC3\xA9\x00\\31 b(",
        &[(TokenKind::Function, 0, 9, false)],
        None,
    ),
    (
        b"#\\\n",
        &[
            (TokenKind::Delim(35), 0, 1, false),
            (TokenKind::Delim(92), 1, 2, false),
            (TokenKind::White, 2, 3, false),
        ],
        None,
    ),
    (b"a\\", &[], Some(TokenFault::EndInside { at: 0 })),
    (
        b"+\\",
        &[(TokenKind::Delim(43), 0, 1, false)],
        Some(TokenFault::EndInside { at: 1 }),
    ),
    (
        b"+.5e-3%1.a1e+-.5",
        &[
            (TokenKind::Percentage, 0, 7, false),
            (TokenKind::Number, 7, 8, false),
            (TokenKind::Delim(46), 8, 9, false),
            (TokenKind::Ident, 9, 12, false),
            (TokenKind::Delim(43), 12, 13, false),
            (TokenKind::Number, 13, 16, false),
        ],
        None,
    ),
    (
        b"~=<!---->{}<!-",
        &[
            (TokenKind::Delim(126), 0, 1, false),
            (TokenKind::Delim(61), 1, 2, false),
            (TokenKind::CommentOpen, 2, 6, false),
            (TokenKind::CommentClose, 6, 9, false),
            (TokenKind::Sign(123), 9, 10, false),
            (TokenKind::Sign(125), 10, 11, false),
            (TokenKind::Delim(60), 11, 12, false),
            (TokenKind::Delim(33), 12, 13, false),
            (TokenKind::Delim(45), 13, 14, false),
        ],
        None,
    ),
];

/// Urls, which a name makes once its escapes are read.
const URLS: [Row<'static>; 9] = [
    (
        b"URL( a\\)b )url( 'a')\\75 rl()u\\72L(a)",
        &[
            (TokenKind::Url, 0, 11, false),
            (TokenKind::Function, 11, 15, false),
            (TokenKind::White, 15, 16, false),
            (TokenKind::Str, 16, 19, false),
            (TokenKind::Sign(41), 19, 20, false),
            (TokenKind::Url, 20, 28, false),
            (TokenKind::Url, 28, 36, false),
        ],
        None,
    ),
    (b"url(\0)", &[(TokenKind::Url, 0, 6, false)], None),
    (b"url(a b)", &[], Some(TokenFault::BadUrl { at: 0 })),
    (b"url(a \\", &[], Some(TokenFault::BadUrl { at: 0 })),
    (
        b" url(a'",
        &[(TokenKind::White, 0, 1, false)],
        Some(TokenFault::BadUrl { at: 1 }),
    ),
    (b"url(a\x0B", &[], Some(TokenFault::BadUrl { at: 0 })),
    (b"url(a\\\n)", &[], Some(TokenFault::BadUrl { at: 0 })),
    (b"url(\\", &[], Some(TokenFault::EndInside { at: 0 })),
    (b"url( ", &[], Some(TokenFault::EndInside { at: 0 })),
];

/// A byte order mark: only at the start of a sheet is it skipped.
const MARKED: [Row<'static>; 2] = [
    (b"\xEF\xBB\xBFb", &[(TokenKind::Ident, 0, 4, false)], None),
    (b"\xEF\xBB\xBFb", &[(TokenKind::Ident, 3, 4, false)], None),
];

/// Each row's source is read so as a sheet.
fn read_so(rt: &impl Abort, rows: &[Row<'_>]) {
    for row in rows {
        reads(rt, *row, true);
    }
}

#[test]
fn reads_tokens(rt: HostRuntime) {
    read_so(&rt, &SPACES_AND_STRINGS);
    read_so(&rt, &NAMES_AND_NUMBERS);
    read_so(&rt, &URLS);
    read_so(&rt, &MARKED[1..]);
    reads(&rt, MARKED[0], false);
}

#[test]
fn names_the_first_wrong_byte(rt: HostRuntime) {
    for (source, at) in [(b"a\xC3(", 1), (b"\xF0\x9F\x98", 0), (b"ab\x80", 2)] {
        match Tokens::new(source, true) {
            Err(error) => assert_eq!(rt; error, NotUtf8 { at }),
            Ok(_) => assert!(rt; false, "a wrong byte at {at}"),
        }
    }
}

#[test]
fn begins_at_a_place(rt: HostRuntime) {
    let source = b"/* a */ b\xEF\xBB\xBF";
    for start in [8, 9] {
        let mut reader = Tokens::from_place(source, start);
        let token = Token {
            kind: TokenKind::Ident,
            span: Piece {
                start: start as u32,
                end: 12,
            },
            comment_before: false,
        };
        assert_eq!(rt; reader.next(), Ok(Some(token)));
        assert_eq!(rt; reader.next(), Ok(None));
    }
}

/// Each whole source, and what it says.
#[test]
fn reads_escapes(rt: HostRuntime) -> Result<(), Fail> {
    let alloc = rt.alloc();
    for (source, says) in [
        (&b"\\31 b"[..], "1b"),
        (b"\\000031b", "1b"),
        (b"\\0000311", "11"),
        (b"\\31\r\n\nb", "1\nb"),
        (
            b"\\d7ff \\d800 \\dfff \\e000",
            "\u{D7FF}\u{FFFD}\u{FFFD}\u{E000}",
        ),
        (b"\\10FFFF\\110000", "\u{10FFFF}\u{FFFD}"),
        (b"\\0 \0\\\0", "\u{FFFD}\u{FFFD}\u{FFFD}"),
        (b"a\\\r\nb\\\x0Cc\\g", "abcg"),
        (b"\xC3\xA9\\\xF0\x9F\x98\x80", "\u{E9}\u{1F600}"),
        (b"", ""),
    ] {
        assert!(rt; source.len() <= 1_048_576);
        let whole = Piece {
            start: 0,
            end: source.len() as u32,
        };
        assert_eq!(rt;
            decode(alloc, source, &whole)?,
            text(alloc, says)?,
            "at {says}"
        );
    }
    Ok(())
}

#[test]
fn tells_open_escapes(rt: HostRuntime) {
    for (text, open) in [
        ("\\31", true),
        ("a\\abcdef", true),
        ("#\\\\\\a", true),
        ("a", false),
        ("\\31 ", false),
        ("\\\\31", false),
        ("\\abcdef0", false),
        ("\\31g", false),
        ("\"\\31\"", false),
    ] {
        assert_eq!(rt; ends_open(text.as_bytes()), open, "at {text}");
    }
}

/// Names are compared without case, once their escapes are read.
#[test]
fn tells_names(rt: HostRuntime) {
    for (name, same) in [
        ("import", true),
        ("IMPORT", true),
        ("\\69mport", true),
        ("im\\000050Ort", true),
        ("impor\\74 ", true),
        ("", false),
        ("impor", false),
        ("imports", false),
        ("\\30mport", false),
        ("import\\", false),
        ("ımport", false),
    ] {
        assert_eq!(rt; is_named(name.as_bytes(), b"import"), same, "at {name}");
    }
    assert!(rt; is_named(b"", b""));
}
