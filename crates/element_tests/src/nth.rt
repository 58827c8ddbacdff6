//! Positions among siblings, of any size.

ghost use Rattle.std.specs.Prelude.{◌≡◌, ◌<◌, ◌≤ℤ◌, ◌^◌, pos, neg_ℤ};
ghost use Rattle.css_model.specs.Documents.Matching.{is_multiple, is_nth};

use css_model::AnB;

/// Whether a place, from 1 on, is `a·n + b` for some `n` of at least 0 (Selectors 3, section 6.6.5.2).
pub(crate) fn is_nth(x: AnB, place: u128) -> bool
    requires { place < 2 ^ 120 }
    ensures { result ≡ is_nth x place }
{
    let offset = u128::from(x.b.unsigned_abs());
    if x.b < 0 {
        is_ahead(x.a, place + offset)
    } else if offset <= place {
        is_ahead(x.a, place - offset)
    } else {
        is_back(x.a, offset - place)
    }
}

/// Whether steps of this size lead so far ahead.
fn is_ahead(step: i32, distance: u128) -> bool
    ensures { result ≡ is_multiple step (pos distance) }
{
    if step <= 0 {
        distance == 0
    } else {
        distance % u128::from(step.unsigned_abs()) == 0
    }
}

/// Whether steps of this size lead so far back.
fn is_back(step: i32, distance: u128) -> bool
    requires { 0 < distance }
    ensures { result ≡ is_multiple step (neg_ℤ (pos distance)) }
{
    step < 0 && distance % u128::from(step.unsigned_abs()) == 0
}
