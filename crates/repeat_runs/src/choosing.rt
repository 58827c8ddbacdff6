//! Which parts go: those that weigh most, as many as may.

ghost use Rattle.std.specs.Prelude.{◌≡◌, ◌⊎◌, ◌+◌, ◌-◌, ◌<◌, ◌≤◌, IfOk, ℕ, length};
ghost use Rattle.repeat_runs.specs.Running.{IsChoice};
ghost use Rattle.run_laws.specs.Marks as spec;

use crate::marks::Marks;
use std::alloc::{AllocError, Global};

/// Which parts of a rule go.
#[derive(Debug, Drop)]
pub(crate) struct Gone {
    /// Of each declaration, in order, whether it goes.
    pub decls: Vec<bool>,
    /// Of each selector, in order, whether it goes.
    pub selectors: Vec<bool>,
}

/// Returns how many marks are greater.
fn count_above(marks: &[u32], least: u32) -> usize
    ensures count { result ≡ spec.count_above least marks.now }
    ensures few { result ≤ length marks.now }
{
    let mut count = 0;
    let mut rest = marks;
    'rest: while let Some((first, others)) = rest.split_first() {
        if *first > least {
            count += 1;
        }
        rest = others;
    }
    count
}

/// Returns how many marks are this one.
fn count_of(marks: &[u32], mark: u32) -> usize
    ensures count { result ≡ spec.count_of mark marks.now }
    ensures few { result ≤ length marks.now }
{
    let mut count = 0;
    let mut rest = marks;
    'rest: while let Some((first, others)) = rest.split_first() {
        if *first == mark {
            count += 1;
        }
        rest = others;
    }
    count
}

/// Returns the greatest of a number and some marks.
fn greatest(marks: &[u32], start: u32) -> u32
    ensures least { start ≤ result }
    ensures none_above { (l : ℕ) → result ≤ l → spec.count_above l marks.now ≡ 0 }
{
    let mut most = start;
    let mut rest = marks;
    'rest: while let Some((first, others)) = rest.split_first() {
        if *first > most {
            most = *first;
        }
        rest = others;
    }
    most
}

/// Returns the smallest mark, from 1 on, such that no more marks in both lists are greater than there may be.
fn find_least(decls: &[u32], selectors: &[u32], most: u32) -> u32
    ensures some { 0 < result }
    ensures few { spec.count_above result decls.now + spec.count_above result selectors.now ≤ most }
    ensures least { (result ≡ 1) ⊎ (most < spec.count_above (result - 1) decls.now + spec.count_above (result - 1) selectors.now) }
{
    let mut low: u32 = 1;
    let mut high = greatest(selectors, greatest(decls, 1));
    'halves: while low < high {
        let middle = low + (high - low) / 2;
        if count_above(decls, middle) + count_above(selectors, middle) <= most as usize {
            high = middle;
        } else {
            low = middle + 1;
        }
    }
    high
}

/// Returns of each part whether it goes: if its mark is greater than the least one, or among the first so many that are it.
fn goes(alloc: Global, marks: &[u32], least: u32, count: usize) -> Result<Vec<bool>, AllocError>
    ensures { IfOk result (λ gone. gone.items ≡ spec.goes least count marks.now) }
{
    let mut gone = Vec::with_capacity(alloc, marks.len())?;
    let mut left = count;
    let mut rest = marks;
    'rest: while let Some((first, others)) = rest.split_first() {
        let is_one = *first == least && left > 0;
        if is_one {
            left -= 1;
        }
        gone.push(*first > least || is_one)?;
        rest = others;
    }
    Ok(gone)
}

/// Chooses the parts that go: those that weigh most, and no more than may.
pub(crate) fn choose(alloc: Global, marks: &Marks, most: u32) -> Result<Gone, AllocError>
    ensures { IfOk result (λ gone. IsChoice marks.now.decls.items marks.now.selectors.items most gone.decls.items gone.selectors.items) }
{
    let least = find_least(&marks.decls, &marks.selectors, most);
    let heavier = count_above(&marks.decls, least) + count_above(&marks.selectors, least);
    let count = most as usize - heavier;
    let decls = goes(alloc, &marks.decls, least, count)?;
    let others = count.saturating_sub(count_of(&marks.decls, least));
    let selectors = goes(alloc, &marks.selectors, least, others)?;
    Ok(Gone { decls, selectors })
}
