//! Logs of clauses that refute a formula, and a checker that follows them by unit propagation alone (reverse unit
//! propagation, RUP).
#![tactic(auto)]

mod check;
mod fronts;
mod laws;
mod lines;
mod log;
mod print;
mod read;
mod root;
mod step;
mod steps;

pub use check::check_log;
pub use laws::{checked_log_refutes, ledgers_are_logs, printed_logs_read_back, refutations_pass};
pub use log::{Checked, Log, LogError};
pub use print::print_log;
pub use read::read_log;
