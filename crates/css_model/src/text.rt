//! Texts as lists of code points.

ghost use Rattle.std.specs.Prelude.{◌≡◌, List, ℕ, IfOk, IsTrue, ◌↔◌};
ghost use Rattle.std.specs.Char.{IsScalar};
ghost use Rattle.css_model.specs.Documents.Document.{IsText};

use std::alloc::AllocError;
use std::cmp::Ordering;
use std::hash::{Hash, Hasher};
use std::marker::Model;

/// A text, as the list of its code points.
#[derive(Debug, Drop)]
pub struct Text {
    codes: Vec<char>,
}

impl Model for Text {
    ghost use Rattle.std.specs.Prelude.{List, ℕ};
    ghost use Rattle.css_model.specs.Documents.Document.{IsText};

    ghost Value = { List ℕ };

    ghost view = { λ t. t.codes.items };

    ghost invariant = { λ t. IsText t.codes.items };
}

impl PartialEq for Text {
    ghost use Rattle.std.specs.Prelude.{nat_eq};
    ghost use Rattle.std.specs.Cmp.{partial_equiv_from_equiv};
    ghost use Rattle.std.specs.Cmp.Lexicographic.{pointwise, nat_list_eq_equiv};

    ghost eq = { λ a b. pointwise nat_eq a b };

    ghost laws = { partial_equiv_from_equiv nat_list_eq_equiv };

    fn eq(&self, other: &Text) -> bool
        ensures eq { result ≡ ⟦<Text as PartialEq>⟧.eq self.now other.now }
        ensures exact { IsTrue result ↔ (self.now ≡ other.now) }
    {
        self.codes == other.codes
    }
}

impl Eq for Text {
    ghost use Rattle.std.specs.Cmp.Lexicographic.{nat_list_eq_equiv};

    ghost laws = { nat_list_eq_equiv };
}

/// Texts are ordered by their code points. The first place where two texts differ decides; without one the shorter text
/// comes first.
impl PartialOrd for Text {
    ghost use Rattle.std.specs.Prelude.{Some};
    ghost use Rattle.std.specs.Ordering.{nat_cmp};
    ghost use Rattle.std.specs.Cmp.Lexicographic.{slice_cmp, texts_po};

    ghost partial_cmp = { λ a b. Some (slice_cmp nat_cmp a b) };

    ghost laws = { texts_po };

    fn partial_cmp(&self, other: &Text) -> Option<Ordering> {
        Some(self.cmp(other))
    }
}

impl Ord for Text {
    ghost use Rattle.std.specs.Prelude.{refl};
    ghost use Rattle.std.specs.Ordering.{nat_cmp};
    ghost use Rattle.std.specs.Cmp.Lexicographic.{slice_cmp, nat_list_cmp_total, texts_ties};

    ghost cmp = { slice_cmp nat_cmp };

    ghost total = { nat_list_cmp_total };

    ghost matches_partial_cmp = { λ a b. refl };

    ghost matches_eq = { texts_ties };

    fn cmp(&self, other: &Text) -> Ordering {
        self.codes.cmp(&other.codes)
    }
}

impl Hash for Text {
    ghost use Rattle.std.specs.Hash as fed;
    ghost use Rattle.std.specs.Cmp.Rules.{hashing};
    ghost use Rattle.std.proofs.Common.{rules};

    ghost hash_input = { λ t. fed.slice fed.char t };

    ghost respects_eq = { Prim.search (hashing, rules) };

    fn hash<H: Hasher>(&self, state: &mut H) {
        self.codes.hash(state);
    }
}

impl Text {
    /// The text of these code points.
    pub fn new(codes: Vec<char>) -> Text
        ensures { result ≡ codes.items }
    {
        see_scalars(codes.as_slice());
        Text { codes }
    }

    /// The code points of the text, in order.
    pub fn codes(&self) -> &[char]
        ensures value { result.now ≡ self.now }
        ensures text { IsText self.now }
    {
        self.codes.as_slice()
    }

    /// A text of the same code points, in the memory of this one's allocator. `AllocError` where memory runs out.
    pub fn copy(&self) -> Result<Text, AllocError>
        ensures { IfOk result (λ t. t ≡ self.now) }
    {
        let codes = Vec::from_slice(*self.codes.allocator(), self.codes.as_slice())?;
        Ok(Text { codes })
    }
}

/// Shows that all code points are scalar values, by reading each.
fn see_scalars(codes: &[char])
    ensures { IsText codes.now }
{
    for c in codes {
        see(*c);
    }
}

fn see(c: char)
    ensures { IsScalar c }
{
    let _seen = c;
}
