//! Whether a position is one of an An+B.

ghost use Rattle.std.specs.Prelude.{IsTrue, ◌↔◌, ◌≡◌, ◌≢◌, ℕ, pos, ◌*ℤ◌, ◌≤ℤ◌, ◌<◌, ◌^◌, unsigned_abs};
ghost use Rattle.css_model.specs.Documents.Matching.{IsNth};

use css_model::AnB;

/// Whether `k` is a position of `x`: `a·n + b` for some `n` of at least 0 (Selectors 3, section 6.6.5.2). Positions
/// count from 1, but any `k` may be asked for.
pub fn member(x: AnB, k: u32) -> bool
    ensures { IsTrue result ↔ IsNth x k }
{
    let distance = i64::from(k) - i64::from(x.b);
    if x.a == 0 {
        distance == 0
    } else {
        is_multiple(distance, i64::from(x.a))
    }
}

/// Whether some number of steps, which may be none, covers the distance.
fn is_multiple(distance: i64, step: i64) -> bool
    requires moves { step ≢ pos 0 }
    requires near { unsigned_abs distance < 2 ^ 40 }
    ensures { IsTrue result ↔ ((n : ℕ) × (distance ≡ step *ℤ pos n)) }
{
    distance % step == 0 && distance / step >= 0
}
