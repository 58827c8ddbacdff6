//! The words behind a command, as `clap` describes them.

use clap::{Arg, ArgAction, value_parser};
use command_words::{MOST_BUDGET, MOST_LIMIT};
use std::alloc::Global;

/// A word that has to be there.
pub(crate) fn required<'a>(alloc: Global, name: &'a str, help: &'a str) -> Arg<'a> {
    Arg::new(alloc, name).required(true).help(help)
}

/// A number that has to be there.
pub(crate) fn number<'a>(alloc: Global, name: &'a str, help: &'a str) -> Arg<'a> {
    required(alloc, name, help).value_parser(value_parser!(u32))
}

/// The number that says where the first of two sheets ends.
pub(crate) fn split<'a>(alloc: Global) -> Arg<'a> {
    number(alloc, "N", "The number of bytes of the first sheet")
}

/// An option without a value.
pub(crate) fn flag<'a>(alloc: Global, name: &'a str, help: &'a str) -> Arg<'a> {
    Arg::new(alloc, name)
        .long(name)
        .action(ArgAction::SetTrue)
        .help(help)
}

/// The option that bounds the search.
pub(crate) fn budget<'a>(alloc: Global) -> Arg<'a> {
    Arg::new(alloc, "budget")
        .long("budget")
        .value_name("N")
        .value_parser(value_parser!(u32).range(0..=i64::from(MOST_BUDGET)))
        .help(
            "Give up on two selectors after N learned clauses,\n0 to 20000 [default: go on until they are decided]",
        )
}

/// The option that bounds the steps and the answers of a run.
pub(crate) fn work<'a>(alloc: Global) -> Arg<'a> {
    Arg::new(alloc, "work")
        .long("work")
        .value_name("N")
        .value_parser(value_parser!(u32))
        .help("Stop when N steps and answers are made [default: go on\nuntil no step is left]")
}

/// The option that limits the couples that are told.
pub(crate) fn limit<'a>(alloc: Global) -> Arg<'a> {
    Arg::new(alloc, "limit")
        .long("limit")
        .value_name("K")
        .value_parser(value_parser!(u32).range(1..=i64::from(MOST_LIMIT)))
        .help("Tell at most K changes of order, 1 to 10000 [default: 20]")
}
