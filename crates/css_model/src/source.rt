//! Pieces of a source.

ghost use Rattle.std.specs.Prelude.{◌≡◌};
ghost use Rattle.css_model.specs.Text.Source.{IsWithin, text_at};

use crate::sheet::Piece;

impl Piece {
    /// The bytes of the piece in its source.
    pub fn text<'a>(&self, source: &'a [u8]) -> &'a [u8]
        requires { IsWithin source.now self.now }
        ensures { result.now ≡ text_at source.now self.now }
    {
        &source[self.start as usize..self.end as usize]
    }
}
