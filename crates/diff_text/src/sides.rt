//! Two sheets that are compared.

use line_places::Lines;
use sheet_members::Occurrence;
use std::marker::Model;

/// Two sheets, each with its lines and what occurs in it.
#[derive(Drop)]
pub(crate) struct Sides<'a> {
    /// The bytes of the first sheet, with their lines.
    pub(crate) lines: Lines<'a>,
    /// What occurs in it.
    pub(crate) occurrences: &'a [Occurrence<'a>],
    /// The bytes of the second sheet, with their lines.
    pub(crate) other_lines: Lines<'a>,
    /// What occurs in it.
    pub(crate) others: &'a [Occurrence<'a>],
}

impl<'a> Model for Sides<'a> {
    ghost use Rattle.diff_text.specs.Lines as spec;

    ghost Value = { spec.Sides };

    ghost view = { λ x. record {
      text = x.lines.text.now;
      occurrences = x.occurrences.now;
      other = x.other_lines.text.now;
      others = x.others.now;
    } };
}
