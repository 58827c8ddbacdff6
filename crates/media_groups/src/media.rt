//! An opened block.

use css_model::{Piece, Sheet};

/// A block of media that is opened: its body is a sheet of its own.
#[derive(Debug, Drop)]
pub struct Media {
    /// The number of its item in the sheet around it, from 0.
    pub item: u32,
    /// What comes before its block, from the at-keyword to the last token that is no white space.
    pub head: Piece,
    /// What is between the brackets of its block.
    pub body: Piece,
    /// The sheet of the body. Its pieces are places in the body's bytes.
    pub sheet: Sheet,
}
