//! The first of the priorities that are found, while steps are looked at.

ghost use Rattle.std.specs.Prelude.{◌≡◌, ◌⊎◌, ◌≤◌, ◌<◌, [], None, Some, true, IfOk, IfSome, OnOk, length};
ghost use Rattle.std.specs.List.{Contains};
ghost use Rattle.step_queue.specs.declared.candidate.Candidate as declared;
ghost use Rattle.step_queue.specs.Told.{candidate_told};
ghost use Rattle.step_queue.specs.Weights.{room};
ghost use Rattle.next_step.specs.Looking.{IsAmong, Keeps, KeepsLast, Reaches, ReachesLast};

use crate::queue::order::is_sooner;
use pending_laws::priorities_are_ordered;
use std::alloc::{AllocError, Global};
use std::marker::Model;
use step_queue::{Candidate, ROOM};

/// The priorities that were found while steps were looked at.
#[derive(Drop)]
pub struct Found {
    /// Some of them, in no order.
    pub candidates: Vec<Candidate>,
    /// If more were found, one of these. None of the priorities that were left out comes before it.
    pub others: Option<Candidate>,
    /// How many of them there may be, while more are found.
    most: u16,
}

impl Model for Found {
    ghost use Rattle.next_step.specs.Looking.{FoundParts};

    ghost Value = { FoundParts };

    ghost view = { λ f. record { candidates = f.candidates.items; others = f.others } };
}

/// The sooner of two candidates, or the second one if there is no first.
fn sooner_of(best: Option<Candidate>, candidate: Candidate) -> Option<Candidate>
    ensures keeps { KeepsLast best result }
    ensures reaches { ReachesLast result (candidate_told candidate).priority }
    ensures is { (result ≡ best) ⊎ (result ≡ Some candidate) }
{
    priorities_are_ordered();
    let Some(other) = best else {
        return Some(candidate);
    };
    if is_sooner(&candidate, &other) {
        Some(candidate)
    } else {
        Some(other)
    }
}

/// Whether a candidate is known not to come before the first of the others.
fn is_behind(others: &Option<Candidate>, candidate: &Candidate) -> bool
    ensures { result ≡ true → ReachesLast others.now (candidate_told candidate.now).priority }
{
    match others {
        Some(other) => !is_sooner(candidate, other),
        None => false,
    }
}

/// The number of one of some candidates, from 0.
/// It is meant to be the one whose priority comes last. The clause says only that there is such a candidate.
fn last_of(candidates: &[Candidate]) -> usize
    requires { 0 < length candidates.now }
    ensures { result < length candidates.now }
{
    let mut last = 0;
    'numbers: for number in 0..candidates.len() {
        if is_sooner(&candidates[last], &candidates[number]) {
            last = number;
        }
    }
    last
}

/// Puts a candidate instead of another one, and returns that one.
fn replace(candidates: &mut Vec<Candidate>, number: usize, candidate: Candidate) -> Candidate
    requires { number < length candidates.old.items }
    ensures few { length candidates.new.items ≡ length candidates.old.items }
    ensures stay { (l : declared.Candidate) → Contains candidates.old.items l → Contains candidates.new.items l ⊎ (result ≡ l) }
    ensures put { Contains candidates.new.items candidate }
    ensures only { (l : declared.Candidate) → Contains candidates.new.items l → Contains candidates.old.items l ⊎ (l ≡ candidate) }
    ensures was { Contains candidates.old.items result }
{
    let late = candidates[number];
    candidates[number] = candidate;
    late
}

/// Puts a candidate among others without adding to their number, and returns one of them all that has no room.
/// It is meant to be the last. The clauses say only that it is one of them.
fn put_sooner(candidates: &mut Vec<Candidate>, candidate: Candidate) -> Candidate
    requires { 0 < length candidates.old.items }
    ensures few { length candidates.new.items ≡ length candidates.old.items }
    ensures stay { (l : declared.Candidate) → Contains candidates.old.items l → Contains candidates.new.items l ⊎ (result ≡ l) }
    ensures put { Contains candidates.new.items candidate ⊎ (result ≡ candidate) }
    ensures only { (l : declared.Candidate) → Contains candidates.new.items l → Contains candidates.old.items l ⊎ (l ≡ candidate) }
    ensures was { Contains candidates.old.items result ⊎ (result ≡ candidate) }
{
    let last = last_of(candidates);
    if is_sooner(&candidate, &candidates[last]) {
        replace(candidates, last, candidate)
    } else {
        candidate
    }
}

/// Puts a candidate among at most so many others, and no more than `ROOM`. If there is no room, it returns one of them all that goes.
/// `Err(AllocError)` if memory is short.
fn put_among(
    candidates: &mut Vec<Candidate>,
    candidate: Candidate,
    most: u16,
) -> Result<Option<Candidate>, AllocError>
    ensures few { length candidates.old.items ≤ room → length candidates.new.items ≤ room }
    ensures stay { IfOk result (λ late. (l : declared.Candidate) → Contains candidates.old.items l → Contains candidates.new.items l ⊎ (late ≡ Some l)) }
    ensures put { IfOk result (λ late. Contains candidates.new.items candidate ⊎ (late ≡ Some candidate)) }
    ensures only { OnOk result ((l : declared.Candidate) → Contains candidates.new.items l → Contains candidates.old.items l ⊎ (l ≡ candidate)) }
    ensures was { IfOk result (λ late. IfSome late (λ l. Contains candidates.old.items l ⊎ (l ≡ candidate))) }
{
    let count = candidates.len();
    if count < usize::from(most) && count < usize::from(ROOM) {
        candidates.push(candidate)?;
        return Ok(None);
    }
    if count == 0 {
        return Ok(Some(candidate));
    }
    Ok(Some(put_sooner(candidates, candidate)))
}

impl Found {
    /// Returns priorities of which none was found. Of those that are found it keeps so many at most, and no more than `ROOM`.
    pub(crate) fn new(alloc: Global, most: u16) -> Found
        ensures { result ≡ record { candidates = []; others = None } }
    {
        Found {
            candidates: Vec::new(alloc),
            others: None,
            most,
        }
    }

    /// Puts a candidate to those that were found, unless the first of the others comes no later.
    /// `Err(AllocError)` if memory is short.
    pub(crate) fn put(&mut self, candidate: Candidate) -> Result<(), AllocError>
        ensures few { length self.old.candidates ≤ room → length self.new.candidates ≤ room }
        ensures keeps { OnOk result (Keeps self.old self.new) }
        ensures reaches { OnOk result (Reaches self.new (candidate_told candidate).priority) }
        ensures only { OnOk result ((l : declared.Candidate) → IsAmong self.new l → IsAmong self.old l ⊎ (l ≡ candidate)) }
    {
        if is_behind(&self.others, &candidate) {
            return Ok(());
        }
        if let Some(late) = put_among(&mut self.candidates, candidate, self.most)? {
            self.others = sooner_of(self.others, late);
        }
        Ok(())
    }
}
