//! The law of the sheets that are made to try the program on: they have no fault. It is a function that does nothing, and
//! its contract is the law.
#![tactic(auto)]

mod sheets;

pub use sheets::made_sheets_have_no_fault;
