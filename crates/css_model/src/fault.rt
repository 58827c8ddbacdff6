//! Why a style sheet is refused, and where.

ghost use Rattle.std.specs.Prelude.{Some};
ghost use Rattle.css_model.specs.Sheets.Fault.{fault_name, fault_text};

use std::fmt;

/// Why a style sheet is refused. It is displayed as its name.
#[derive(Clone, Copy, Debug, PartialEq, Eq, Hash)]
pub enum FaultKind {
    /// The sheet has more than 1,048,576 bytes.
    TooLong,
    /// The sheet is not UTF-8.
    NotUtf8,
    /// A newline is inside a string, without a backslash before it.
    BadString,
    /// A url holds a code point that no url may hold.
    BadUrl,
    /// The sheet ends inside a comment, a string, a url, an escape or an open bracket.
    EndInside,
    /// More than 256 brackets are open at once.
    TooDeep,
    /// A rule `@namespace` changes what every type selector means.
    Namespace,
    /// The sheet has more than 16,384 items.
    TooManyItems,
    /// The style rules have together more than 262,144 pairs of a selector and a declaration.
    TooManyPairs,
}

impl fmt::Display for FaultKind {
    ghost output = { λ kind. Some (fault_name kind) };

    fn fmt<W: fmt::Write>(&self, f: &mut fmt::Formatter<W>) -> fmt::Result {
        f.write_str(match self {
            FaultKind::TooLong => "TooLong",
            FaultKind::NotUtf8 => "NotUtf8",
            FaultKind::BadString => "BadString",
            FaultKind::BadUrl => "BadUrl",
            FaultKind::EndInside => "EndInside",
            FaultKind::TooDeep => "TooDeep",
            FaultKind::Namespace => "Namespace",
            FaultKind::TooManyItems => "TooManyItems",
            FaultKind::TooManyPairs => "TooManyPairs",
        })
    }
}

/// A fault of a style sheet, with its place. It is displayed as `KIND at N`.
#[derive(Clone, Copy, Debug, PartialEq, Eq, Hash)]
pub struct SheetFault {
    /// What is wrong.
    pub kind: FaultKind,
    /// Where the fault is, in bytes from 0.
    pub at: u32,
}

impl fmt::Display for SheetFault {
    ghost output = { λ fault. Some (fault_text fault) };

    fn fmt<W: fmt::Write>(&self, f: &mut fmt::Formatter<W>) -> fmt::Result {
        let kind = self.kind;
        let at = self.at;
        write!(f, "{kind} at {at}")
    }
}
