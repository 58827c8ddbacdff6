//! What is found in two sheets.

use css_model::Example;
use sheet_order::PairPlace;

/// What is found in two sheets.
#[derive(Debug, PartialEq, Eq, Drop)]
pub enum Compared {
    /// Nothing.
    Same,
    /// The pair at this place of the first sheet is not in the second one.
    Missing(PairPlace),
    /// The pair at this place of the second sheet is not in the first one.
    Extra(PairPlace),
    /// The kept item of this number, counted from 0 among the kept items, differs, or is reversed with a pair.
    KeptItem(u32),
    /// Two pairs whose selectors meet, by their places in the first sheet, come in the other order in the second one.
    Reversed {
        /// The one that comes first in the first sheet.
        first: PairPlace,
        /// The other one.
        second: PairPlace,
        /// A document; both selectors match its marked element.
        example: Example,
    },
    /// Two pairs come in the other order, and it is not known whether their selectors meet. The number is that of the
    /// reason; 0 where the budget was spent.
    Unsure(u32),
}

/// What is found in two sheets or in the bodies of their opened blocks. Where nothing is, the same declarations win in
/// every legal document and scene (`same_sheets_win_alike`).
#[derive(Debug, PartialEq, Eq, Drop)]
pub struct Difference {
    /// What is found; its places are those of the sheets, or of the bodies in which it is found.
    pub compared: Compared,
    /// The number of the opened blocks in whose bodies it is found, counted from 0 among these, if it is in bodies.
    pub body: Option<u32>,
}
