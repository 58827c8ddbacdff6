//! The specificity of a selector.

ghost use Rattle.std.specs.Prelude.{◌≡◌, ◌≤◌, if◌then◌else◌, length};
ghost use Rattle.std.specs.List.{All, count_by};
ghost use Rattle.css_model.specs.Documents.Specificity.{is_id, is_class, is_type, specificity_of};

use crate::selector::{Compound, Selector, Specificity, Test};

/// The specificity of a selector (Selectors 3, section 9): ids; classes, attributes and pseudo-classes; types and
/// pseudo-elements. `*` counts nothing. What is in `:not()` counts as it does outside; `:not()` itself counts nothing.
pub fn specificity(selector: &Selector) -> Specificity
    requires compounds { length selector.now.chain ≤ 12 }
    requires simples { All (λ compound. length compound ≤ 32) selector.now.chain }
    ensures { result ≡ specificity_of selector.now }
{
    let pseudo_elements = if selector.pseudo.is_some() { 1 } else { 0 };
    let mut total = Specificity {
        a: 0,
        b: 0,
        c: pseudo_elements,
    };
    for compound in &selector.chain {
        let more = compound_specificity(compound);
        total.a += more.a;
        total.b += more.b;
        total.c += more.c;
    }
    total
}

/// The counts of one compound.
fn compound_specificity(compound: &Compound) -> Specificity
    requires { length compound.now ≤ 32 }
    ensures ids { result.a ≡ count_by (λ s. is_id s.test) compound.now }
    ensures classes { result.b ≡ count_by (λ s. is_class s.test) compound.now }
    ensures types { result.c ≡ count_by (λ s. is_type s.test) compound.now }
    ensures bound { (result.a ≤ 32) × (result.b ≤ 32) × (result.c ≤ 32) }
{
    let mut total = Specificity { a: 0, b: 0, c: 0 };
    for simple in compound.simples.as_slice() {
        let more = test_specificity(&simple.test);
        total.a += more.a;
        total.b += more.b;
        total.c += more.c;
    }
    total
}

/// The counts of one test.
fn test_specificity(test: &Test) -> Specificity
    ensures id { result.a ≡ (if is_id test.now then 1 else 0) }
    ensures class { result.b ≡ (if is_class test.now then 1 else 0) }
    ensures kind { result.c ≡ (if is_type test.now then 1 else 0) }
{
    match test {
        Test::Any => Specificity { a: 0, b: 0, c: 0 },
        Test::Kind(_) => Specificity { a: 0, b: 0, c: 1 },
        Test::Id(_) => Specificity { a: 1, b: 0, c: 0 },
        Test::Attr(_)
        | Test::Nth(_)
        | Test::NthLast(_)
        | Test::OnlyChild
        | Test::Root
        | Test::Empty
        | Test::State(_) => Specificity { a: 0, b: 1, c: 0 },
    }
}
