//! The tokens of a text.

use crate::sheet::Piece;

/// What a token is (CSS Syntax 3, section 4).
#[derive(Clone, Copy, Debug, PartialEq, Eq, Hash)]
pub enum TokenKind {
    /// White space: the longest row of it.
    White,
    /// A string with its quotes.
    Str,
    /// A hash whose name is an ident sequence, as `#a`.
    IdHash,
    /// Any other hash, as `#1`.
    Hash,
    /// A number.
    Number,
    /// A number and `%`.
    Percentage,
    /// A number and the ident sequence that is its unit.
    Dimension,
    /// `<!--`.
    CommentOpen,
    /// `-->`.
    CommentClose,
    /// `@` and an ident sequence.
    AtKeyword,
    /// An ident sequence.
    Ident,
    /// An ident sequence and the `(` after it.
    Function,
    /// `url(` up to and with its `)`, with no string inside.
    Url,
    /// One of `:` `;` `,` `[` `]` `(` `)` `{` `}`, by its byte.
    Sign(u8),
    /// Any other code point, by itself.
    Delim(u32),
}

/// A token of a source.
#[derive(Clone, Copy, Debug, PartialEq, Eq, Hash)]
pub struct Token {
    /// What it is.
    pub kind: TokenKind,
    /// Where it is in the source.
    pub span: Piece,
    /// Whether a comment ends where it begins.
    pub comment_before: bool,
}

/// What is wrong where no token can be read.
#[derive(Clone, Copy, Debug, PartialEq, Eq, Hash)]
pub enum TokenFlaw {
    /// A newline inside a string, without a backslash before it.
    BadString,
    /// A code point that no url may hold.
    BadUrl,
    /// The source ends inside the token.
    EndInside,
}

/// A place where no token can be read, and why. The place is the start of what cannot be read, in bytes from 0.
#[derive(Clone, Copy, Debug, PartialEq, Eq, Hash)]
pub enum TokenFault {
    /// A newline inside a string, without a backslash before it.
    BadString {
        /// The place of the quote.
        at: u32,
    },
    /// A code point that no url may hold.
    BadUrl {
        /// The place of the name before `(`.
        at: u32,
    },
    /// The source ends inside a comment, a string, a url or an escape.
    EndInside {
        /// The place of the token or the comment.
        at: u32,
    },
}

/// What is between a token and the next one that is no white space.
#[derive(Clone, Copy, Debug, PartialEq, Eq, Hash)]
pub enum Gap {
    /// Nothing.
    Nothing,
    /// Comments, and no white space.
    Comments,
    /// White space, and perhaps comments.
    White,
}

/// A token of a source that is no white space, with what comes after it and how many brackets are open before it.
#[derive(Clone, Copy, Debug, PartialEq, Eq, Hash)]
pub struct Lexeme {
    /// What it is.
    pub kind: TokenKind,
    /// Where it is in the source.
    pub span: Piece,
    /// What is between it and the next one.
    pub gap: Gap,
    /// The first white space after it; where there is none, the empty piece at its end.
    pub white: Piece,
    /// How many brackets are open where it begins.
    pub level: u32,
}

/// An open bracket of a source.
#[derive(Clone, Copy, Debug, PartialEq, Eq, Hash)]
pub struct Bracket {
    /// The sign that closes it.
    pub closer: u8,
    /// The place of the token that opens it, in bytes from 0.
    pub at: u32,
}
