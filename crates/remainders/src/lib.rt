//! What numbers leave when they are divided: remainders of one number joined, and moved to another number. And the
//! greatest common divisor.
#![tactic(auto)]

mod divisors;
mod joint;
mod leaving;
mod remainder;

pub use divisors::{common_divisor, common_divisors_are_greatest};
pub use joint::{MOST_JOINT, joint_rest, joint_step};
pub use leaving::{joint_rests_are_left, moving_keeps_remainders};
pub use remainder::Remainder;
