//! Whether a selector matches anything in any legal document, with evidence where it does.
#![tactic(auto)]

mod asking;
mod every;
mod held;
mod laws;
mod living;

pub use asking::life;
pub use held::is_dead;
pub use laws::{dead_match_nothing, others_are_undecided};
pub use living::Life;
