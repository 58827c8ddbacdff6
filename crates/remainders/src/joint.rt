//! Remainders of one number, joined.

ghost use Rattle.std.specs.Prelude.{◌≡◌, ◌≤◌, ◌<◌, ◌-◌, ◌*◌, ◌%◌, ◌==◌, Some};
ghost use Rattle.std.specs.List.{AllByRecursion};
ghost use Rattle.nth_positions.specs.Gaps.{first_passing};
ghost use Rattle.remainders.specs.Remainders.{common_multiple, joined_rest, joint_rest, joint_step, meets, most_joint};
ghost use Rattle.remainders.specs.Sizes.{IsShort};

use crate::remainder::Remainder;

/// No joint step is looked for beyond this.
pub const MOST_JOINT: u32 = 1_048_576;

/// The least common multiple of the steps of some remainders, or a number above 1,048,576 where it is greater than
/// that. Takes no memory.
pub fn joint_step(remainders: &[Remainder]) -> u32
    requires { AllByRecursion IsShort remainders.now }
    ensures value { result ≡ joint_step remainders.now }
    ensures small { result ≤ 32 * most_joint }
    ensures positive { 0 < result }
{
    match remainders {
        [] => 1,
        [first, rest @ ..] => {
            let step = joint_step(rest);
            if MOST_JOINT < step {
                step
            } else {
                common_multiple(step, first.step)
            }
        }
    }
}

/// The least common multiple of two numbers.
fn common_multiple(a: u32, b: u32) -> u32
    requires a { (0 < a) × (a ≤ most_joint) }
    requires b { (0 < b) × (b ≤ 32) }
    ensures value { result ≡ common_multiple a b }
    ensures small { result ≤ 32 * most_joint }
    ensures positive { 0 < result }
{
    a * turns(a, b)
}

/// How many steps of a lead to a multiple of b.
fn turns(a: u32, b: u32) -> u32
    requires a { (0 < a) × (a ≤ most_joint) }
    requires b { (0 < b) × (b ≤ 32) }
    ensures value { result ≡ first_passing (λ t. (a * t) % b == 0) 1 (b - 1) }
    ensures small { result ≤ 32 }
    ensures positive { 0 < result }
{
    for turns in 1..b {
        if (a * turns) % b == 0 {
            return turns;
        }
    }
    b
}

/// What a number leaves, when divided by the joint step, that leaves all of some remainders; `None` where no number
/// does. Takes no memory.
pub fn joint_rest(remainders: &[Remainder]) -> Option<u32>
    requires short { AllByRecursion IsShort remainders.now }
    requires small { joint_step remainders.now ≤ most_joint }
    ensures value { result ≡ joint_rest remainders.now }
{
    match remainders {
        [] => Some(0),
        [first, rest @ ..] => match joint_rest(rest) {
            None => None,
            Some(left) => joined(left, joint_step(rest), *first),
        },
    }
}

/// What a number leaves, when divided by the least common multiple, that leaves `left` when divided by `step` and
/// leaves a remainder.
fn joined(left: u32, step: u32, next: Remainder) -> Option<u32>
    requires left { left ≤ most_joint }
    requires step { (0 < step) × (step ≤ most_joint) }
    requires short { IsShort next }
    ensures { result ≡ joined_rest step next (Some left) }
{
    let k = first_meeting(left, step, next);
    if meets(left, step, next, k) {
        Some((left + step * k) % common_multiple(step, next.step))
    } else {
        None
    }
}

/// The first of 0, 1, .. after which the rest is left, or the step where there is none.
fn first_meeting(left: u32, step: u32, next: Remainder) -> u32
    requires left { left ≤ most_joint }
    requires step { (0 < step) × (step ≤ most_joint) }
    requires short { IsShort next }
    ensures value { result ≡ first_passing (meets left step next) 0 next.step }
    ensures small { result ≤ 32 }
{
    for k in 0..next.step {
        if meets(left, step, next, k) {
            return k;
        }
    }
    next.step
}

/// Whether the k-th number from `left` on, in steps, leaves the rest.
fn meets(left: u32, step: u32, next: Remainder, k: u32) -> bool
    requires left { left ≤ most_joint }
    requires step { (0 < step) × (step ≤ most_joint) }
    requires short { IsShort next }
    requires k { k ≤ 32 }
    ensures { result ≡ meets left step next k }
{
    (left + step * k) % next.step == next.rest
}
