//! A line of what is found, with its place.

use std::marker::Model;

/// A line, and where what it tells of begins in the bytes of the sheet.
#[derive(Drop)]
pub(crate) struct Finding {
    pub(crate) at: usize,
    pub(crate) line: Vec<u8>,
}

impl Model for Finding {
    ghost use Rattle.lint_text.specs.Findings as spec;

    ghost Value = { spec.Finding };

    ghost view = { λ f. record { at = f.at; line = f.line.items } };
}
