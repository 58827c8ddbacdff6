//! The words of a command line: which command they are.
#![tactic(auto)]

mod arguments;
mod command;
mod laws;
mod numbers;
mod reading;

pub use command::{Command, MOST_BUDGET, MOST_LIMIT, MOST_RULES, RuleCount, Topic, USUAL_LIMIT};
pub use laws::{
    cmp_compares_two_words, min_is_one_word, most_budget_is_defined, most_limit_is_defined,
    most_rules_is_defined, some_may_be_told, usual_limit_is_defined,
};
pub use reading::command_of;
