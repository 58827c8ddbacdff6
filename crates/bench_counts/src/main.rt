//! `bench_counts WORD`: counts what is on standard input, to measure one part of the program by itself.
//!
//! | word | the input | what it counts |
//! |---|---|---|
//! | `tokens` | a style sheet | its tokens |
//! | `pairs` | a style sheet | which ordered pairs of its selectors meet, are apart, and are not compared |
//! | `formulas` | formulas as numbers | which have a model, which have none, and the clauses of the ledgers of these |
#![tactic(auto)]

mod answering;
mod formulas;
mod numbers;
mod pairs;
mod selectors;
mod tokens;

use css_io::{ReadError, StdSource, read_all};
use css_model::MAX_BYTES;
use formulas::decide_all;
use pairs::count_pairs;
use sheet_read::SheetError;
use std::process::ExitCode;
use std::{env, io};
use tokens::token_count;

/// How many bytes of formulas are read.
const MAX_FORMULAS: u32 = 64_000_000;

/// What is counted.
#[derive(Clone, Copy, Debug, PartialEq, Eq)]
enum Counted {
    Tokens,
    Pairs,
    Formulas,
}

/// What a word asks to count, if it is one of the three.
fn counted_by(word: &str) -> Option<Counted> {
    if word == "tokens" {
        Some(Counted::Tokens)
    } else if word == "pairs" {
        Some(Counted::Pairs)
    } else if word == "formulas" {
        Some(Counted::Formulas)
    } else {
        None
    }
}

/// What the first word behind the name of the program asks to count, if it is one of the three.
fn wanted(rt: &HostRuntime) -> Option<Counted> {
    let Ok(mut words) = env::args(rt) else {
        return None;
    };
    let _name = words.next();
    counted_by(words.next()?.as_str())
}

/// The status after a line was printed, or not.
fn status_of(printed: io::Result<()>) -> u8 {
    match printed {
        Ok(()) => 0,
        Err(_) => 5,
    }
}

/// Prints how many tokens a style sheet has, and returns the status.
fn tell_tokens(rt: &HostRuntime, source: &[u8]) -> u8 {
    // The read keeps to the limit; here it is said again, for `token_count`.
    if source.len() > MAX_BYTES as usize {
        return 3;
    }
    match token_count(source) {
        Ok(count) => status_of(println!(rt; "{count}")),
        Err(_) => 3,
    }
}

/// Prints how many pairs of selectors of a style sheet have each answer, and returns the status.
fn tell_pairs(rt: &HostRuntime, source: &[u8]) -> u8 {
    match count_pairs(rt.alloc(), source) {
        Ok(counts) => status_of(println!(rt;
            "meet {} apart {} outside {}",
            counts.meet, counts.apart, counts.outside
        )),
        Err(SheetError::Fault(_)) => 3,
        Err(SheetError::NoMemory) => 6,
    }
}

/// Prints how many formulas are decided in each way, and returns the status.
fn tell_formulas(rt: &HostRuntime, source: &[u8]) -> u8 {
    match decide_all(rt.alloc(), source) {
        Ok(decided) => status_of(println!(rt;
            "models {} refuted {} learned {}",
            decided.models, decided.refuted, decided.learned
        )),
        Err(_) => 6,
    }
}

/// Prints what is counted of an input, and returns the status.
fn tell(rt: &HostRuntime, counted: Counted, source: &[u8]) -> u8 {
    match counted {
        Counted::Tokens => tell_tokens(rt, source),
        Counted::Pairs => tell_pairs(rt, source),
        Counted::Formulas => tell_formulas(rt, source),
    }
}

fn main(rt: HostRuntime) -> ExitCode {
    let Some(counted) = wanted(&rt) else {
        return ExitCode::from(2);
    };
    let mut input = StdSource::new(rt.stdin());
    let limit = match counted {
        Counted::Tokens | Counted::Pairs => MAX_BYTES,
        Counted::Formulas => MAX_FORMULAS,
    };
    let status = match read_all(rt.alloc(), &mut input, limit) {
        Ok(source) => tell(&rt, counted, source.as_slice()),
        Err(ReadError::ReadFault) => 4,
        Err(ReadError::TooLong) => 3,
        Err(ReadError::NoMemory) => 6,
    };
    ExitCode::from(status)
}
