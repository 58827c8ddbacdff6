//! What an element of a document has.

ghost use Rattle.std.specs.Prelude.{◌≡◌, List, ℕ, IfOk, IsTrue, ◌↔◌};

use crate::text::Text;
use std::alloc::AllocError;
use std::marker::Model;

/// What an element has beside its children, in a form that can be stored (Selectors 3, sections 6.1,
/// 6.3 and 6.6).
#[derive(Debug, Drop)]
pub struct Features {
    /// Its type.
    pub kind: Text,
    /// Its attributes, each as its name and its value, ascending by name.
    pub attrs: Vec<(Text, Text)>,
    /// Its flags: the bit k is that of the k-th `Flag`.
    pub flags: u16,
    /// Whether it has text of its own.
    pub text: bool,
}

impl Model for Features {
    ghost use Rattle.css_model.specs.Documents.FeatureParts.{FeatureParts};

    ghost Value = { FeatureParts };

    ghost view = { λ f. record { kind = f.kind; attrs = f.attrs.items; flags = f.flags; text = f.text } };
}

impl PartialEq for Features {
    ghost use Rattle.std.specs.Prelude.{nat_eq};
    ghost use mathlib.Core.Bool.{beq};
    ghost use Rattle.std.specs.Cmp.{partial_equiv_from_equiv, and_per, on_per, nat_eq_equiv, bool_eq_equiv};
    ghost use Rattle.std.specs.Cmp.Lexicographic.{pointwise, lists_per, nat_list_eq_equiv};
    ghost use Rattle.std.specs.Ordering.{on, eq_of_both};

    ghost eq = { eq_of_both (on (λ f. f.kind) (pointwise nat_eq))
        (eq_of_both (on (λ f. f.attrs) (pointwise ⟦<(Text, Text) as PartialEq>⟧.eq))
        (eq_of_both (on (λ f. f.flags) nat_eq) (on (λ f. f.text) beq))) };

    ghost laws = { and_per (on_per (λ f. f.kind) (partial_equiv_from_equiv nat_list_eq_equiv))
        (and_per (on_per (λ f. f.attrs) (lists_per (and_per (on_per (λ a. a.0) (partial_equiv_from_equiv nat_list_eq_equiv)) (on_per (λ a. a.1) (partial_equiv_from_equiv nat_list_eq_equiv)))))
        (and_per (on_per (λ f. f.flags) (partial_equiv_from_equiv nat_eq_equiv)) (on_per (λ f. f.text) (partial_equiv_from_equiv bool_eq_equiv)))) };

    fn eq(&self, other: &Features) -> bool
        ensures eq { result ≡ ⟦<Features as PartialEq>⟧.eq self.now other.now }
        ensures exact { IsTrue result ↔ (self.now ≡ other.now) }
    {
        self.kind == other.kind
            && (self.attrs == other.attrs && (self.flags == other.flags && self.text == other.text))
    }
}

impl Eq for Features {
    ghost use Rattle.std.specs.Cmp.{and_equiv, on_equiv, nat_eq_equiv, bool_eq_equiv};
    ghost use Rattle.std.specs.Cmp.Lexicographic.{lists_equiv, nat_list_eq_equiv};

    ghost laws = { and_equiv (on_equiv (λ f. f.kind) nat_list_eq_equiv)
        (and_equiv (on_equiv (λ f. f.attrs) (lists_equiv (and_equiv (on_equiv (λ a. a.0) nat_list_eq_equiv) (on_equiv (λ a. a.1) nat_list_eq_equiv))))
        (and_equiv (on_equiv (λ f. f.flags) nat_eq_equiv) (on_equiv (λ f. f.text) bool_eq_equiv))) };
}

impl Features {
    /// Equal features, in the memory of the allocators of this one's texts and list. `AllocError` where memory runs
    /// out.
    pub fn copy(&self) -> Result<Features, AllocError>
        ensures { IfOk result (λ f. f ≡ self.now) }
    {
        Ok(Features {
            kind: self.kind.copy()?,
            attrs: copy_attributes(&self.attrs)?,
            flags: self.flags,
            text: self.text,
        })
    }
}

/// Equal attributes, in the memory of the list's allocator.
fn copy_attributes(attributes: &Vec<(Text, Text)>) -> Result<Vec<(Text, Text)>, AllocError>
    ensures { IfOk result (λ copies. copies.items ≡ attributes.now.items) }
{
    let mut copies = Vec::with_capacity(*attributes.allocator(), attributes.len())?;
    for (name, value) in attributes {
        copies.push((name.copy()?, value.copy()?))?;
    }
    Ok(copies)
}
