//! The state of a plan: a sheet with marks and tables, the candidates, and what is on the watch list.
//! After the next step of a sheet it is a state again.
#![tactic(auto)]

mod barriers;
mod created;
mod enqueuing;
mod leaving;
mod plan;
mod reactivating;
mod reindexing;
mod taking;
mod taking_first;
mod weighing;

pub use plan::Plan;
