//! The command that words are.

ghost use Rattle.std.specs.Prelude.{◌≡◌, map, string_bytes};
ghost use Rattle.command_words.specs.Forms as forms;
ghost use Rattle.command_words.specs.Views.{form_if_some, arguments_if_some};

use crate::arguments::{Arguments, Operands, arguments_of};
use crate::command::{Command, MOST_RULES, RuleCount, Topic, USUAL_LIMIT};
use crate::numbers::number_up_to;

/// Whether a word asks how something is used.
fn is_help(word: &str) -> bool
    ensures { result ≡ forms.is_help word.now }
{
    word == "--help" || word == "-h"
}

/// Whether the words after a command ask how it is used.
fn asks_help(words: &[String]) -> bool
    ensures { result ≡ forms.asks_help (map string_bytes words.now) }
{
    match words {
        [word] => is_help(word.as_str()),
        _ => false,
    }
}

/// The move of an item to another one, where both words are numbers.
fn moved<'a>(from: &str, to: &str, budget: Option<u32>) -> Option<Command<'a>>
    ensures { form_if_some result
        ≡ forms.moved (forms.number_up_to forms.most_number from.now) (forms.number_up_to forms.most_number to.now) budget }
{
    match (number_up_to(u32::MAX, from), number_up_to(u32::MAX, to)) {
        (Some(from), Some(to)) => Some(Command::Why { from, to, budget }),
        _ => None,
    }
}

/// The comparison of two sheets, where the word is a number of bytes.
fn compared<'a>(split: &str, budget: Option<u32>) -> Option<Command<'a>>
    ensures { form_if_some result ≡ forms.compared (forms.number_up_to forms.most_number split.now) budget }
{
    match number_up_to(u32::MAX, split) {
        Some(split) => Some(Command::Same { split, budget }),
        None => None,
    }
}

/// All differences of two sheets, where the word is a number of bytes.
fn differing<'a>(split: &str, budget: Option<u32>, limit: Option<u32>) -> Option<Command<'a>>
    ensures { form_if_some result
        ≡ forms.differing (forms.number_up_to forms.most_number split.now) budget limit }
{
    let limit = limit.unwrap_or(USUAL_LIMIT);
    match number_up_to(u32::MAX, split) {
        Some(split) => Some(Command::Diff {
            split,
            budget,
            limit,
        }),
        None => None,
    }
}

/// The trial of a made sheet, where the word is a number of its rules.
fn tried<'a>(rules: &str) -> Option<Command<'a>>
    ensures { form_if_some result ≡ forms.tried (forms.number_up_to forms.most_rules rules.now) }
{
    match number_up_to(MOST_RULES, rules) {
        Some(number) => Some(Command::Trial {
            rules: RuleCount { number },
        }),
        None => None,
    }
}

/// The command with these operands and options.
fn asked<'a>(about: Topic, words: Option<Arguments<'a>>) -> Option<Command<'a>>
    ensures { form_if_some result ≡ forms.asked about (arguments_if_some words.entry) }
{
    let arguments = words?;
    match (
        about,
        arguments.operands,
        arguments.budget,
        arguments.limit,
        arguments.work,
        arguments.log,
        arguments.report,
    ) {
        (Topic::Min, Operands::None, budget, None, work, false, report) => Some(Command::Min {
            budget,
            work,
            report,
        }),
        (Topic::Style, Operands::None, None, None, None, false, false) => Some(Command::Style),
        (Topic::Dead, Operands::None, budget, None, None, false, false) => {
            Some(Command::Dead { budget })
        }
        (Topic::Cmp, Operands::Two(left, right), budget, None, None, log, false) => Some(
            Command::Cmp {
                left,
                right,
                budget,
                log,
            },
        ),
        (Topic::Check, Operands::None, None, None, None, false, false) => Some(Command::Check),
        (Topic::Why, Operands::Two(from, to), budget, None, None, false, false) => {
            moved(from, to, budget)
        }
        (Topic::Same, Operands::One(split), budget, None, None, false, false) => compared(
            split, budget,
        ),
        (Topic::Diff, Operands::One(split), budget, limit, None, false, false) => {
            differing(split, budget, limit)
        }
        (Topic::Blockers, Operands::None, budget, None, None, false, false) => {
            Some(Command::Blockers { budget })
        }
        (Topic::Listing, Operands::None, None, None, None, false, false) => Some(Command::Listing),
        (Topic::Lint, Operands::None, budget, None, None, false, false) => {
            Some(Command::Lint { budget })
        }
        (Topic::Inspect, Operands::None, None, None, None, false, false) => Some(Command::Inspect),
        (Topic::Trial, Operands::One(rules), None, None, None, false, false) => tried(rules),
        _ => None,
    }
}

/// The command of a name.
#[tactic(auto, unfolding(crate::specs::Forms::command_named))]
fn command_named(name: &str) -> Option<Topic>
    ensures { result ≡ forms.command_named name.now }
{
    if name == "min" {
        Some(Topic::Min)
    } else if name == "dead" {
        Some(Topic::Dead)
    } else if name == "style" {
        Some(Topic::Style)
    } else if name == "cmp" {
        Some(Topic::Cmp)
    } else if name == "check" {
        Some(Topic::Check)
    } else if name == "why" {
        Some(Topic::Why)
    } else if name == "same" {
        Some(Topic::Same)
    } else if name == "diff" {
        Some(Topic::Diff)
    } else if name == "blockers" {
        Some(Topic::Blockers)
    } else if name == "list" {
        Some(Topic::Listing)
    } else if name == "lint" {
        Some(Topic::Lint)
    } else if name == "inspect" {
        Some(Topic::Inspect)
    } else if name == "trial" {
        Some(Topic::Trial)
    } else {
        None
    }
}

/// What a word that is no command asks for, where it is alone.
fn alone<'a>(word: &'a str, words: &'a [String]) -> Option<Command<'a>>
    ensures { form_if_some result ≡ forms.alone word.now (map string_bytes words.now) }
{
    match words {
        [] => {
            if is_help(word) || word == "help" {
                Some(Command::Help(Topic::Program))
            } else if word == "--version" || word == "-V" {
                Some(Command::Version)
            } else {
                None
            }
        }
        _ => None,
    }
}

/// What a name and the words after it ask for.
fn named<'a>(name: &'a str, words: &'a [String]) -> Option<Command<'a>>
    ensures { form_if_some result
        ≡ forms.named (forms.command_named name.now) name.now (map string_bytes words.now) }
{
    match command_named(name) {
        Some(about) => {
            if asks_help(words) {
                Some(Command::Help(about))
            } else {
                asked(about, arguments_of(words))
            }
        }
        None => alone(name, words),
    }
}

/// The command that the words after the program's name are, if they are one.
pub fn command_of<'a>(words: &'a Vec<String>) -> Option<Command<'a>>
    ensures { form_if_some result ≡ forms.form_of (map string_bytes words.now.items) }
{
    match words.as_slice() {
        [] => None,
        [name, behind @ ..] => named(name.as_str(), behind),
    }
}
