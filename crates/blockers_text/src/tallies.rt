//! The tallies of the items of a sheet.

ghost use Rattle.std.specs.Prelude.{◌≡◌, ◌≤◌, ◌+◌, ◌<◌, ◌^◌, ℕ, length, map, replicate, IfOk};
ghost use Rattle.blockers_text.specs.Bounds.{AreBelow};
ghost use Rattle.blockers_text.specs.Tallies as spec;

use crate::entries::item_of;
use crate::stopped::Stopped;
use crate::tally::{Tally, counted, no_tally};
use sheet_order::Reversed;
use std::alloc::{AllocError, Global};

/// The tallies of so many items before any step.
pub(crate) fn no_tallies(alloc: Global, count: usize) -> Result<Vec<Tally>, AllocError>
    ensures { IfOk result (λ tallies. tallies.items ≡ replicate count spec.no_tally) }
{
    let none = no_tally();
    Ok(vec![in alloc; none; count]?)
}

/// Counts a step for the item of this number, if there is one.
fn count_at(tallies: &mut Vec<Tally>, item: usize, stopped: &Stopped)
    requires { AreBelow (2 ^ 70) tallies.old.items }
    ensures { tallies.new.items ≡ spec.counted_at tallies.old.items item stopped.now }
{
    if item < tallies.len() {
        tallies[item] = counted(&tallies[item], stopped);
    }
}

/// How many bytes a step would save.
fn saved_of(stopped: &Stopped) -> u32
    ensures exact { result ≡ stopped.now.saved }
    ensures small { stopped.now.saved < 2 ^ 32 }
{
    stopped.saved
}

/// Counts a step for each of the items that these entries name.
fn count_each(tallies: &mut Vec<Tally>, by: &[Reversed], stopped: &Stopped)
    requires { (n : ℕ) × (n < 2 ^ 64) × AreBelow n tallies.old.items }
    ensures { tallies.new.items ≡ spec.counted_each tallies.old.items by.now stopped.now }
{
    let _saved = saved_of(stopped);
    let mut rest = by;
    'entries: while let [entry, others @ ..] = rest {
        count_at(tallies, item_of(entry) as usize, stopped);
        rest = others;
    }
}

/// Counts a step for each of the items that stop it.
pub(crate) fn count_step(tallies: &mut Vec<Tally>, stopped: &Stopped)
    requires { (n : ℕ) × (n < 2 ^ 64) × AreBelow n tallies.old.items }
    ensures { tallies.new.items ≡ spec.counted_each tallies.old.items stopped.now.by stopped.now }
{
    count_each(tallies, &stopped.by, stopped);
}
