//! Whether a plan ends because its work was spent.

ghost use Rattle.std.specs.Prelude.{◌≡◌, ◌+◌, ◌-◌, ◌<◌, ◌≤◌, ℕ, Some, false, length, true};
ghost use Rattle.std.specs.Option.{option_map};
ghost use Rattle.css_model.specs.Sheets.ComesFrom.{pair_count};
ghost use Rattle.css_model.specs.Sheets.Limits.{max_pairs};
ghost use Rattle.planner.specs.Working.{MayEnd, MayGoOn};

use css_model::{Item, MAX_PAIRS, with_pairs_of};
use obstacles::Obstacles;
use step_laws::Step;

/// What a plan does next.
#[derive(Clone, Copy, Debug)]
pub(crate) enum Next {
    /// It takes this step.
    Take(Step),
    /// It ends, since nothing is left to do.
    Done,
    /// It ends, since its work was spent.
    Spent,
}

/// Returns `true` only if the steps that were taken and the answers that are held are as many as a bound, or more. Else the steps
/// alone are fewer, if there is a bound.
fn is_spent<O: Obstacles>(obstacles: &O, work: Option<u32>, taken: u32) -> bool
    ensures spent { result ≡ true → (n : ℕ) × (work ≡ Some n) × (n ≤ taken + length (O.answers obstacles.now)) }
    ensures left { result ≡ false → (n : ℕ) → work ≡ Some n → taken < n }
{
    match work {
        Some(work) => work.saturating_sub(taken) as usize <= obstacles.held(),
        None => false,
    }
}

/// Returns how many answers may be held after so many steps before the work is spent, if there is a bound.
pub(crate) fn answers_left(work: Option<u32>, taken: u32) -> Option<usize>
    ensures { result ≡ option_map (λ n. n - taken) work }
{
    match work {
        Some(work) => Some(work.saturating_sub(taken) as usize),
        None => None,
    }
}

/// Returns how many steps may be taken before the first one that the bound does not allow, if there is a bound.
pub(crate) fn steps_left<O: Obstacles>(obstacles: &O, work: Option<u32>) -> u32
    ensures bound { (n : ℕ) → work ≡ Some n → result ≡ n - length (O.answers obstacles.now) }
{
    match work {
        Some(work) => (work as usize).saturating_sub(obstacles.held()) as u32,
        None => u32::MAX,
    }
}

/// Returns `true` exactly if items have no more pairs of a selector and a declaration than a sheet may have that is read.
pub(crate) fn has_few_pairs(items: &[Item]) -> bool
    ensures few { result ≡ true → pair_count items.now ≤ max_pairs }
    ensures many { result ≡ false → max_pairs < pair_count items.now }
{
    let mut pairs = 0;
    let mut rest = items;
    'items: while let Some((item, others)) = rest.split_first() {
        pairs = with_pairs_of(pairs, item);
        if pairs > u64::from(MAX_PAIRS) {
            return false;
        }
        rest = others;
    }
    true
}

/// Returns `true` only if a plan of a sheet may end by its bound, if it has one; else it may go on.
pub(crate) fn may_end<O: Obstacles>(
    obstacles: &O,
    items: &[Item],
    work: Option<u32>,
    taken: u32,
) -> bool
    ensures end { result ≡ true → MayEnd work (O.answers obstacles.now) taken items.now }
    ensures on { result ≡ false → MayGoOn work taken items.now }
{
    is_spent(obstacles, work, taken) && has_few_pairs(items)
}
