//! Gaps between siblings, and how far one has to be looked at.

ghost use Rattle.std.specs.Prelude.{◌≡◌, ◌<◌, ◌≤◌, ◌+◌, ◌^◌, ◌↔◌, ℕ, List, Contains};
ghost use Rattle.css_model.specs.declared.position.AnB.{AnB};
ghost use Rattle.css_model.specs.Documents.Matching.{IsNth};
ghost use Rattle.nth_positions.specs.Gaps.{reduced, bounds_of, greatest_count};

/// How far a gap between siblings has to be looked at, for each step and offset of a list. A gap of at least
/// `threshold + period` has the same members after it as one below that.
#[derive(Clone, Copy, Debug, PartialEq, Eq)]
pub struct Bounds {
    /// The greatest size of an offset, and at least 1.
    pub threshold: u32,
    /// The least common multiple of the sizes of the steps that are not 0, and 1 where there is none.
    pub period: u32,
    /// How many bits hold the number of siblings in a row of 24 elements whose gaps are below
    /// `threshold + period`.
    pub width: u32,
}

/// A gap below `threshold + period` that has the same members after it as `gap`. It is `gap` itself where that is
/// below; else one as far from the threshold modulo the period.
pub fn reduce(gap: u64, x: &Bounds) -> u64
    requires { 0 < x.now.period }
    ensures { result ≡ reduced x.now gap }
{
    let threshold = u64::from(x.threshold);
    let period = u64::from(x.period);
    if gap < threshold + period {
        gap
    } else {
        threshold + (gap - threshold) % period
    }
}

/// A reduced gap keeps the members of each part of the list.
///
/// - For each gap, each part `x` and each `k` of at least 1, `gap + k` is a member of `x` exactly where
///   `reduce(gap) + k` is one.
/// - No gap becomes 0 but 0.
/// - Each becomes one below `threshold + period`.
/// - The width has room for the siblings of 24 elements with such gaps.
pub fn reduction_keeps_members()
    ensures members { (parts : List AnB) (x : AnB) (gap k : ℕ) → Contains parts x → 1 ≤ k →
        IsNth x (gap + k) ↔ IsNth x (reduced (bounds_of parts) gap + k) }
    ensures zero { (parts : List AnB) (gap : ℕ) → (reduced (bounds_of parts) gap ≡ 0) ↔ (gap ≡ 0) }
    ensures below { (parts : List AnB) (gap : ℕ) →
        reduced (bounds_of parts) gap < (bounds_of parts).threshold + (bounds_of parts).period }
    ensures width { (parts : List AnB) →
        greatest_count (bounds_of parts).threshold (bounds_of parts).period < 2 ^ (bounds_of parts).width }
{}
