//! Which step a candidate names, and the next priorities in its scope.
#![tactic(auto)]

mod apart;
mod barriers;
mod by_declarations;
mod by_selectors;
mod cuts;
mod next;
mod others;
mod queue;
mod too_late;
mod trying;
mod view;

pub use barriers::{is_barred, stands_from};
pub use next::{Looked, Seen, next_candidates};
pub use queue::{Found, step_of_candidate};
pub use view::View;
