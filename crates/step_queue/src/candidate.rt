//! Candidates.

ghost use Rattle.std.specs.Prelude.{◌≡◌, ◌+◌, ◌*◌, ◌<◌, ◌≤◌, ◌^◌, false};
ghost use Rattle.step_queue.specs.Told.{candidate_told};
ghost use Rattle.step_queue.specs.Weights as weights;
ghost use Rattle.step_queue.specs.Weights.{is_alone, room, weight};
ghost use Rattle.plan_laws.specs.Cover.{IsSooner};

use std::cmp::Reverse;
use step_kinds::Kind;

/// Which steps a candidate stands for beside its own.
#[derive(Clone, Copy, Debug, PartialEq, Eq, PartialOrd, Ord, Drop)]
pub enum Scope {
    /// None: it stands for its step alone.
    Alone,
    /// The steps that its item owns.
    Owned,
    /// The joins in which its item moves up.
    Ups,
    /// The joins in which its item moves down, and the shares of it with a rule below.
    Downs,
}

/// How many candidates are queued alone, at most, instead of one that is passed.
pub const ROOM: u16 = 512;

/// How many candidates are queued alone, at most, instead of the first one of an item that is passed.
pub const FIRST_ROOM: u16 = 8;

/// A candidate: a priority, and whose steps it stands for. Candidates are ordered as their priorities come.
#[derive(Clone, Copy, Debug, PartialEq, Eq, PartialOrd, Ord, Drop)]
pub struct Candidate {
    /// How many bytes its step saves. Greater savings come first.
    pub saving: Reverse<u32>,
    /// The kind of its step.
    pub kind: Kind,
    /// The order key of the step's first item.
    pub first: u64,
    /// The order key of the step's last item. Of a cut it is the number of the part, from 0.
    pub second: u64,
    /// The item id of the item whose steps it stands for.
    pub owner: u32,
    /// Which of them it stands for.
    pub scope: Scope,
    /// How many candidates may be queued alone instead of it, if it stands for others.
    pub room: u16,
}

impl Candidate {
    /// Returns how many candidates may be queued alone instead of the next one of the same item: twice as many as instead of this
    /// one, up to `ROOM`.
    pub fn next_room(&self) -> u16
        ensures twice { self.now.room < room → result ≡ 2 * self.now.room }
        ensures same { room ≤ self.now.room → result ≡ self.now.room }
    {
        if self.room < ROOM {
            self.room * 2
        } else {
            self.room
        }
    }

    /// Whether it stands for its own step alone.
    pub fn is_alone(&self) -> bool
        ensures { result ≡ weights.is_alone (candidate_told self.now).scope }
    {
        match self.scope {
            Scope::Alone => true,
            Scope::Owned | Scope::Ups | Scope::Downs => false,
        }
    }
}

/// A number of the code has 64 bits. The function does nothing.
fn number_fits(number: u64)
    ensures { number < 2 ^ 64 }
{}

/// A candidate of others weighs more than a later candidate of others and as many single ones as there is room for.
/// It also weighs more than these single ones alone. Each candidate weighs something. The function does nothing.
#[tactic(auto, using(crate::proofs::Weighing::weighs_less, crate::proofs::Weighing::weighs_more, crate::proofs::Weighing::weighs_some))]
pub fn later_weighs_less(one: &Candidate, other: &Candidate)
    ensures less { is_alone (candidate_told one.now).scope ≡ false → is_alone (candidate_told other.now).scope ≡ false → IsSooner (candidate_told one.now).priority (candidate_told other.now).priority
        → weight (candidate_told other.now) + room < weight (candidate_told one.now) }
    ensures more { is_alone (candidate_told one.now).scope ≡ false → room < weight (candidate_told one.now) }
    ensures some { 0 < weight (candidate_told one.now) }
{
    number_fits(one.first);
    number_fits(one.second);
    number_fits(other.first);
    number_fits(other.second);
}
