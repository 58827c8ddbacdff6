//! What follows the name of a command: operands and options.

ghost use Rattle.std.specs.Prelude.{◌≡◌, Some, map, string_bytes};
ghost use Rattle.command_words.specs.Forms as forms;
ghost use Rattle.command_words.specs.Views.{arguments_if_some};

use crate::command::{MOST_BUDGET, MOST_LIMIT};
use crate::numbers::{count_up_to, number_up_to};

/// Up to two operands.
#[derive(Clone, Copy, Debug)]
pub(crate) enum Operands<'a> {
    None,
    One(&'a str),
    Two(&'a str, &'a str),
}

/// Operands, the budget, the limit and the work, if they are named, and whether a log or a report is asked for.
#[derive(Clone, Copy, Debug)]
pub(crate) struct Arguments<'a> {
    pub(crate) operands: Operands<'a>,
    pub(crate) budget: Option<u32>,
    pub(crate) limit: Option<u32>,
    pub(crate) work: Option<u32>,
    pub(crate) log: bool,
    pub(crate) report: bool,
}

/// Whether a word may be an operand.
fn is_operand(word: &str) -> bool
    ensures { result ≡ forms.is_operand word.now }
{
    match word.as_bytes().first() {
        Some(first) => *first != b'-',
        None => true,
    }
}

/// Arguments with one operand more, of at most two.
fn with_operand<'a>(word: &'a str, before: Arguments<'a>) -> Option<Arguments<'a>>
    ensures { arguments_if_some result ≡ forms.with_operand word.now (arguments_if_some (Some before.entry)) }
{
    let operands = match before.operands {
        Operands::None => Operands::One(word),
        Operands::One(first) => Operands::Two(first, word),
        Operands::Two(_, _) => return None,
    };
    Some(Arguments { operands, ..before })
}

/// Arguments with the budget of this word, where none is named before.
fn with_budget<'a>(number: &str, before: Arguments<'a>) -> Option<Arguments<'a>>
    ensures { arguments_if_some result
        ≡ forms.with_budget (forms.number_up_to forms.most_budget number.now) (arguments_if_some (Some before.entry)) }
{
    match (before.budget, number_up_to(MOST_BUDGET, number)) {
        (None, Some(budget)) => Some(Arguments {
            budget: Some(budget),
            ..before
        }),
        _ => None,
    }
}

/// Arguments with the limit of this word, where none is named before.
fn with_limit<'a>(number: &str, before: Arguments<'a>) -> Option<Arguments<'a>>
    ensures { arguments_if_some result
        ≡ forms.with_limit (forms.count_up_to forms.most_limit number.now) (arguments_if_some (Some before.entry)) }
{
    match (before.limit, count_up_to(MOST_LIMIT, number)) {
        (None, Some(limit)) => Some(Arguments {
            limit: Some(limit),
            ..before
        }),
        _ => None,
    }
}

/// Arguments with the work of this word, where none is named before.
fn with_work<'a>(number: &str, before: Arguments<'a>) -> Option<Arguments<'a>>
    ensures { arguments_if_some result
        ≡ forms.with_work (forms.number_up_to forms.most_number number.now) (arguments_if_some (Some before.entry)) }
{
    match (before.work, number_up_to(u32::MAX, number)) {
        (None, Some(work)) => Some(Arguments {
            work: Some(work),
            ..before
        }),
        _ => None,
    }
}

/// Arguments with a log, where none is asked for before.
fn with_log<'a>(before: Arguments<'a>) -> Option<Arguments<'a>>
    ensures { arguments_if_some result ≡ forms.with_log (arguments_if_some (Some before.entry)) }
{
    if before.log {
        None
    } else {
        Some(Arguments {
            log: true,
            ..before
        })
    }
}

/// Arguments with a report, where none is asked for before.
fn with_report<'a>(before: Arguments<'a>) -> Option<Arguments<'a>>
    ensures { arguments_if_some result ≡ forms.with_report (arguments_if_some (Some before.entry)) }
{
    if before.report {
        None
    } else {
        Some(Arguments {
            report: true,
            ..before
        })
    }
}

/// Whether the word after this one is its number.
fn takes_number(option: &str) -> bool
    ensures { result ≡ forms.takes_number option.now }
{
    option == "--budget" || option == "--limit" || option == "--work"
}

/// Arguments with such an option and its number.
fn with_number<'a>(option: &str, number: &str, before: Arguments<'a>) -> Option<Arguments<'a>>
    ensures { arguments_if_some result
        ≡ forms.with_number option.now number.now (arguments_if_some (Some before.entry)) }
{
    if option == "--budget" {
        with_budget(number, before)
    } else if option == "--limit" {
        with_limit(number, before)
    } else {
        with_work(number, before)
    }
}

/// Arguments with one more word that is no option.
fn with_plain_word<'a>(word: &'a str, before: Arguments<'a>) -> Option<Arguments<'a>>
    ensures { arguments_if_some result ≡ forms.with_plain_word word.now (arguments_if_some (Some before.entry)) }
{
    if is_operand(word) {
        with_operand(word, before)
    } else {
        None
    }
}

/// Arguments with one more word that is neither `--log` nor `--report`.
fn with_other_word<'a>(word: &'a str, before: Arguments<'a>) -> Option<Arguments<'a>>
    ensures { arguments_if_some result ≡ forms.with_other_word word.now (arguments_if_some (Some before.entry)) }
{
    if let Some(number) = word.strip_prefix("--budget=") {
        return with_budget(number, before);
    }
    if let Some(number) = word.strip_prefix("--limit=") {
        return with_limit(number, before);
    }
    match word.strip_prefix("--work=") {
        Some(number) => with_work(number, before),
        None => with_plain_word(word, before),
    }
}

/// Arguments with one word more.
fn with_word<'a>(word: &'a str, before: Arguments<'a>) -> Option<Arguments<'a>>
    ensures { arguments_if_some result ≡ forms.with_word word.now (arguments_if_some (Some before.entry)) }
{
    if word == "--log" {
        with_log(before)
    } else if word == "--report" {
        with_report(before)
    } else {
        with_other_word(word, before)
    }
}

/// Arguments with more words, read from the left, as long as each of them fits.
fn with_words<'a>(before: Arguments<'a>, words: &'a [String]) -> Option<Arguments<'a>>
    ensures { arguments_if_some result
        ≡ forms.with_words (arguments_if_some (Some before.entry)) (map string_bytes words.now) }
{
    match words {
        [] => Some(before),
        [word] => with_word(word.as_str(), before),
        [word, next, behind @ ..] => {
            if takes_number(word.as_str()) {
                match with_number(word.as_str(), next.as_str(), before) {
                    Some(arguments) => with_words(arguments, behind),
                    None => None,
                }
            } else {
                match with_word(word.as_str(), before) {
                    Some(arguments) => with_words(arguments, &words[1..]),
                    None => None,
                }
            }
        }
    }
}

/// The arguments in the words after the name of a command, if they may be there.
pub(crate) fn arguments_of<'a>(words: &'a [String]) -> Option<Arguments<'a>>
    ensures { arguments_if_some result ≡ forms.arguments_of (map string_bytes words.now) }
{
    let none = Arguments {
        operands: Operands::None,
        budget: None,
        limit: None,
        work: None,
        log: false,
        report: false,
    };
    with_words(none, words)
}
