//! How far gaps have to be looked at for some positions, and how many binary digits that takes.

ghost use Rattle.std.specs.Prelude.{◌≡◌, ◌<◌, ◌≤◌, ◌*◌, ◌^◌, ℕ, true, List, All, Contains, count_by, unsigned_abs};
ghost use Rattle.std.specs.Int.{◌∣◌};
ghost use Rattle.css_model.specs.declared.position.AnB.{AnB};
ghost use Rattle.css_model.specs.Positions.Range.{IsInRange, is_stepped};
ghost use Rattle.css_model.specs.Sheets.Limits.{max_stepped};
ghost use Rattle.nth_positions.specs.Gaps.{bounds_of, threshold_of, is_common_multiple, period_of, width_of, greatest_count, IsLeastCommonMultiple};

use crate::gap::Bounds;
use crate::notation::MAX_STEP;
use css_model::AnB;

/// The elements that one row can hold: those of two selectors of 12 compounds each.
const ROW: u32 = 24;

/// How many bits hold the number of siblings in such a row, whatever the parts.
pub const MAX_WIDTH: u32 = 25;

/// The bounds for gaps beside these steps and offsets. There may be none.
///
/// Each step is at most 32 and each offset at most 1,000 in size, and at most four steps have a size of 2 or more. The
/// period is then at most 32^4, and the width at most `MAX_WIDTH`.
pub fn bounds(parts: &[AnB]) -> Bounds
    requires in_range { All IsInRange parts.now }
    requires few { count_by is_stepped parts.now ≤ max_stepped }
    ensures exact { result ≡ bounds_of parts.now }
    ensures positive { 0 < result.period }
    ensures small { result.width ≤ MAX_WIDTH }
{
    let threshold = threshold(parts);
    let period = period(parts);
    let width = width(ROW * (threshold + period - 1) + (ROW - 1));
    Bounds {
        threshold,
        period,
        width,
    }
}

/// The bounds of any list are tight.
///
/// - No offset is beyond the threshold.
/// - The period is a multiple of each step that is not 0, and divides each other such multiple.
/// - Threshold and period are not 0.
/// - No less width holds the greatest number of siblings.
pub fn bounds_are_tight()
    ensures offsets { (parts : List AnB) (x : AnB) → Contains parts x →
        unsigned_abs x.b ≤ (bounds_of parts).threshold }
    ensures steps { (parts : List AnB) (x : AnB) → Contains parts x → 0 < unsigned_abs x.a →
        unsigned_abs x.a ∣ (bounds_of parts).period }
    ensures multiples { (parts : List AnB) (k : ℕ) → is_common_multiple parts k ≡ true →
        (bounds_of parts).period ∣ k }
    ensures positive { (parts : List AnB) →
        (0 < (bounds_of parts).threshold) × (0 < (bounds_of parts).period) }
    ensures least { (parts : List AnB) (w : ℕ) →
        greatest_count (bounds_of parts).threshold (bounds_of parts).period < 2 ^ w →
        (bounds_of parts).width ≤ w }
{}

/// The greatest size of an offset, and at least 1.
fn threshold(parts: &[AnB]) -> u32
    requires { All IsInRange parts.now }
    ensures exact { result ≡ threshold_of parts.now }
    ensures small { result ≤ 1000 }
{
    let mut greatest = 1;
    for x in parts {
        greatest = x.b.unsigned_abs().max(greatest);
    }
    greatest
}

/// The least common multiple of the sizes of the steps that are not 0, and 1 where there is none.
fn period(parts: &[AnB]) -> u32
    requires in_range { All IsInRange parts.now }
    requires few { count_by is_stepped parts.now ≤ max_stepped }
    ensures exact { result ≡ period_of parts.now }
    ensures positive { 0 < result }
    ensures small { result ≤ MAX_STEP ^ max_stepped }
{
    let mut period = 1;
    for x in parts {
        if x.a != 0 {
            period = least_common_multiple(period, x.a.unsigned_abs());
        }
    }
    period
}

/// The least common multiple, found among the multiples of `a` up to `a * b`.
fn least_common_multiple(a: u32, b: u32) -> u32
    requires first { 0 < a }
    requires second { 0 < b }
    requires fits { a * b < 2 ^ 32 }
    ensures least { IsLeastCommonMultiple a b result }
    ensures small { result ≤ a * b }
{
    for turns in 1..b {
        if (a * turns) % b == 0 {
            return a * turns;
        }
    }
    a * b
}

/// The least number of bits that hold the number.
fn width(number: u32) -> u32
    ensures exact { result ≡ width_of number }
    ensures least { (w : ℕ) → number < 2 ^ w → result ≤ w }
{
    u32::BITS - number.leading_zeros()
}
