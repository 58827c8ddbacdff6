//! Why a rule of a style sheet may not be moved, from the bytes of the sheet to the text of the answer.
#![tactic(auto)]

mod error;
mod explaining;
mod laws;
mod lines;
mod pair;
mod told;

pub use error::WhyError;
pub use explaining::{Explained, explain};
pub use laws::{blocked_moves_show_order, free_moves_keep};
pub use lines::why_lines;
pub use pair::print_pair;
