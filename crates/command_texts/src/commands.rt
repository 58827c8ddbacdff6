//! The commands of the program, as `clap` describes them.

use crate::arguments::{budget, flag, limit, number, required, split, work};
use crate::purposes::purpose;
use clap::{Command, value_parser};
use command_words::{MOST_RULES, Topic};
use std::alloc::{AllocError, Global};

const PROGRAM_HELP: &str = "\
Exit status:
  0  done                            6  not enough memory
  1  lint or diff found something    7  no item of this number
  2  wrong words                     8  the log is refused
  3  the sheet is refused            9  the page is refused
  4  the input cannot be read       10  the input is shorter than N bytes
  5  the output cannot be written   11  the second sheet is refused

    cssmin min <sheet.css >sheet.min.css

cssmin takes no file names. Name the sheet with `<`, and another file, the
target, with `>`. Each command has a page, as `cssmin min --help`.

A page is legal if each id occurs once, no link is both visited and unvisited,
and nothing is both enabled and disabled.";

const MIN_HELP: &str = "\
cssmin reads the sheet from standard input, and writes the smaller one to
standard output. It merges rules across the whole sheet where that saves bytes
and changes no winner. If it refuses the sheet, it writes nothing there, exits
with status 3, and says why on standard error: `refused: KIND at N`, N in bytes
from 0.

The winners stay on every legal page. A page is legal if each id occurs once, no
link is both visited and unvisited, and nothing is both enabled and disabled.
The case of attribute values counts, even if HTML ignores it. So write a value
such as that of `type` in one way. In quirks mode the winners may change.

With `--work N`, cssmin ends when its steps and the answers for pairs of
selectors that it holds are N or more together. Then it writes the sheet as it
is by then, with the same winners. The report says `work spent` if steps may be
left.

With `--report`, standard error lists the items and bytes before and after, the
number of steps, and each step that would still save bytes. The last words of
such a line say what blocks the step: `meet`, a rule that the same element may
match; `kept`, an item that stays as written; `outside R` or `spent`, as in
`cssmin cmp`.

No option limits the seconds and the memory. Use `timeout` and `ulimit -v`.";

const CMP_HELP: &str = "\
Writes one of these to standard output, and reads no input:

    disjoint    no element of any legal page matches both
    overlap     some element does; a small legal page follows, with its mark `*`
    outside R   not compared, for the reason with the number R
    spent       the budget ran out first

A page is legal if each id occurs once, no link is both visited and unvisited,
and nothing is both enabled and disabled. The case of attribute values counts,
even if HTML ignores it: `[type=a]` and `[type=A]` are disjoint here.

No selector begins with `-`. Write `\\-a` for the type `-a`.";

const DEAD_HELP: &str = "\
cssmin reads the sheet from standard input. Each selector of each style rule
outside all at-rules gets a line on standard output: the number of the rule
among all rules and at-rules, a point, the number of the selector in the rule,
and one of these:

    dead        no element of any legal page matches it
    alive       some element does; a small legal page follows, with its mark `*`
    outside 12  not decided: it wants a word in an attribute, and refuses all
                white space next to it
    spent       the budget ran out first

A page is legal if each id occurs once, no link is both visited and unvisited,
and nothing is both enabled and disabled. A page that repeats an id may need a
rule that is dead here. The case of attribute values counts, even if HTML
ignores it: `[type=a][type=A]` is dead here.";

/// The command `dead`.
fn dead_command<'a>(alloc: Global) -> Result<Command<'a>, AllocError> {
    Command::new(alloc, "dead")
        .about(purpose(Topic::Dead))
        .override_usage("cssmin dead [OPTIONS] <SHEET")
        .after_help(DEAD_HELP)
        .arg(budget(alloc))
}

const STYLE_HELP: &str = "\
Standard input has three parts: a small page as `cssmin cmp` writes it after
`overlap`, an empty line, and a style sheet. The first line of the output says
how many items of the sheet cssmin keeps as written; they do not count. Then
each property that a rule gives to the element with the mark `*` has a line: the
declaration that wins, and the specificity of its selector. Every value counts
as one that the browser understands.

    kept 0
    color:green!important 0,1,1

The lines do not say which of two related properties comes last, as `margin` and
`margin-top`.";

/// The command `style`.
fn style_command<'a>(alloc: Global) -> Command<'a> {
    Command::new(alloc, "style")
        .about(purpose(Topic::Style))
        .override_usage("cssmin style <PAGE-AND-SHEET")
        .after_help(STYLE_HELP)
}

/// The command `min`.
fn min_command<'a>(alloc: Global) -> Result<Command<'a>, AllocError> {
    Command::new(alloc, "min")
        .about(purpose(Topic::Min))
        .override_usage("cssmin min [OPTIONS] <SHEET >TARGET")
        .after_help(MIN_HELP)
        .arg(budget(alloc))?
        .arg(work(alloc))?
        .arg(flag(
            alloc,
            "report",
            "List on standard error what blocks further steps",
        ))
}

const TRIAL_HELP: &str = "\
Makes a sheet of N small rules, the same for the same N, and merges it as
`cssmin min` does. Writes to standard output how many items and bytes there were
and are, and how many steps that took. Reads no input.";

/// The command `trial`.
fn trial_command<'a>(alloc: Global) -> Result<Command<'a>, AllocError> {
    Command::new(alloc, "trial")
        .about(purpose(Topic::Trial))
        .after_help(TRIAL_HELP)
        .arg(required(alloc, "N", "The number of rules, 0 to 2000").value_parser(value_parser!(
            u32
        ).range(0..=i64::from(MOST_RULES))))
}

/// The command `cmp`.
fn cmp_command<'a>(alloc: Global) -> Result<Command<'a>, AllocError> {
    Command::new(alloc, "cmp")
        .about(purpose(Topic::Cmp))
        .after_help(CMP_HELP)
        .arg(required(alloc, "LEFT", "A selector"))?
        .arg(required(alloc, "RIGHT", "Another selector"))?
        .arg(budget(alloc))?
        .arg(flag(
            alloc,
            "log",
            "Write a log for `cssmin check` instead of `disjoint`,\nif there is one",
        ))
}

const CHECK_HELP: &str = "\
cssmin reads the log from standard input. A log has a formula and the steps that
refute it, in lines of numbers. The output is one of these:

    yes         each step follows from what comes before it, and the last one is
                empty: the formula has no model
    no N        unit propagation does not give step N; or there is no step N,
                and the last step is not empty

If it refuses the log, it writes nothing there, exits with status 8, and says
why on standard error: `log refused: line N`, the first line that no log has, or
`log refused: too long`.";

/// The command `check`.
fn check_command<'a>(alloc: Global) -> Command<'a> {
    Command::new(alloc, "check")
        .about(purpose(Topic::Check))
        .override_usage("cssmin check <LOG")
        .after_help(CHECK_HELP)
}

const WHY_HELP: &str = "\
cssmin reads the sheet from standard input and counts its rules and at-rules
from 1. The rule FROM moves before the item TO if TO comes first, and after it
otherwise. The output is one of these:

    free        every winner stays, on every legal page
    kept N      the rule may not pass item N, which stays as written
    blocked     the rule may not pass another one: two pairs of a selector and a
                declaration follow, and a small legal page where their order
                decides, if a browser understands both and nothing else applies
    outside R   two selectors are not compared, for the reason with the number R
    spent       the budget ran out first

A page is legal if each id occurs once, no link is both visited and unvisited,
and nothing is both enabled and disabled. The case of attribute values counts,
even if HTML ignores it.";

/// The command `why`.
fn why_command<'a>(alloc: Global) -> Result<Command<'a>, AllocError> {
    Command::new(alloc, "why")
        .about(purpose(Topic::Why))
        .override_usage("cssmin why [OPTIONS] FROM TO <SHEET")
        .after_help(WHY_HELP)
        .arg(number(alloc, "FROM", "The number of the rule to move"))?
        .arg(number(alloc, "TO", "The number of the item to move it to"))?
        .arg(budget(alloc))
}

const SAME_HELP: &str = "\
Standard input has two style sheets, one after the other. The first one has N
bytes. cssmin compares them, with the rules inside `@media` blocks, and writes
the first difference that it finds. After `same` the winners are equal. Any
other answer leaves open whether they are:

    same           none: the same declarations win, on every legal page
    missing RULE   the second sheet lacks this pair of a selector and a
                   declaration
    extra RULE     the second sheet has this pair, and the first one lacks it
    kept N         the Nth item that stays as written differs, or has another
                   order with a rule
    reversed       two pairs that follow have another order; on the small page
                   after them the other one wins, if a browser understands both
                   and nothing else applies
    unsure R       two selectors are not compared, for the reason with number R
    unsure spent   the budget ran out first

A page is legal if each id occurs once, no link is both visited and unvisited,
and nothing is both enabled and disabled. The case of attribute values counts,
even if HTML ignores it. If cssmin refuses a sheet, it writes nothing: for the
first one as `cssmin min` does, for the second one with status 11 and
`second refused: KIND at N`, N in bytes of that sheet.";

/// The command `same`.
fn same_command<'a>(alloc: Global) -> Result<Command<'a>, AllocError> {
    Command::new(alloc, "same")
        .about(purpose(Topic::Same))
        .override_usage("cssmin same [OPTIONS] N <TWO-SHEETS")
        .after_help(SAME_HELP)
        .arg(split(alloc))?
        .arg(budget(alloc))
}

const DIFF_HELP: &str = "\
Standard input has two style sheets, one after the other. The first one has N
bytes. cssmin looks through both, also inside `@media` blocks. After `same` the
same declarations win on every legal page. Otherwise the first line has the
number of each word below, and then come lines with places as in `cssmin list`:

    reversed   two pairs of a selector and a declaration have another order. On
               the small legal page after them the winners differ: `first` is
               that of the first sheet, `second` that of the second one
    related    two such pairs of related properties, as `top` and `left`
    masked     two such pairs; on their page the winner is the same
    unsure     another order that is not decided: `kept`, next to a part that
               stays as written; `media`, under two heads; `R` or `spent`, as
               in `cssmin cmp`
    limit K    there are K lines on order, and there may be more
    missing    a pair or a part that only the first sheet has
    extra      one that only the second sheet has
    changed    one that has another value in the second sheet

White space that says nothing does not count. Blocks with equal heads count as
one. A page is legal if each id occurs once, no link is both visited and
unvisited, and nothing is both enabled and disabled.

The status is 1 if the sheets differ, and 0 after `same`. A greater one is a
failure: `refused: KIND at N (LINE:COLUMN)`, `second refused: ..`, `no split N`.";

/// The command `diff`.
fn diff_command<'a>(alloc: Global) -> Result<Command<'a>, AllocError> {
    Command::new(alloc, "diff")
        .about(purpose(Topic::Diff))
        .override_usage("cssmin diff [OPTIONS] N <TWO-SHEETS")
        .after_help(DIFF_HELP)
        .arg(split(alloc))?
        .arg(budget(alloc))?
        .arg(limit(alloc))
}

const BLOCKERS_HELP: &str = "\
cssmin reads the sheet from standard input and merges it as `cssmin min` does.
Of each step that would still save bytes it looks for all items that stop it:
parts that stay as written, and rules that one element may match too. First come
four lines of two numbers, the steps and the bytes that they would save: all of
them, those stopped by kept parts alone, by rules alone, and by both. Then each
item that stops a step has a line, the one that stops most bytes first:

    stops 2 6 2 6 3:1 .b
    best 3 JoinSelUp 1:1 5:1 .a{top:2px} .b{top:1px}

`stops` has the steps that the item stops and their bytes, those that nothing
else stops and theirs, where it begins, and its selectors or its text. `best` is
the best of those that nothing else stops: its bytes and its kind, where its two
rules begin, and the two pairs of a selector and a declaration that would change
their order. If the item is kept as written, there is one pair.

Steps exclude one another, so the sum of their bytes is no promise. A place is a
line and a column of the sheet. `cssmin min --report` lists each step.

The status is 0, whatever is stopped. If cssmin refuses the sheet, it says
where: `refused: KIND at N (LINE:COLUMN)`.";

/// The command `blockers`.
fn blockers_command<'a>(alloc: Global) -> Result<Command<'a>, AllocError> {
    Command::new(alloc, "blockers")
        .about(purpose(Topic::Blockers))
        .override_usage("cssmin blockers [--budget N] <SHEET")
        .after_help(BLOCKERS_HELP)
        .arg(budget(alloc))
}

const LIST_HELP: &str = "\
cssmin reads the sheet from standard input. Each rule and at-rule outside all
at-rules gets a line on standard output, in order:

    1 1:1 rule a,b
    2 4:1 media @media print
    2.1 5:3 rule .c

The first number is the one that `min --report`, `why` and `dead` use. The items
of an opened `@media` block follow it, as `2.1`. Then come the line and the
column where the item begins, and one of these:

    rule      a style rule
    media     an `@media` block whose rules `min` merges with each other
    kept:R    a rule that stays as written, for the reason with the number R
    block     anything else that stays as written

At the end is what comes before the block: the selectors, or the text that is
kept. A column counts characters, from 1. Control characters are spaces.

If cssmin refuses the sheet, it says where: `refused: KIND at N (LINE:COLUMN)`.";

/// The command `list`.
fn list_command<'a>(alloc: Global) -> Command<'a> {
    Command::new(alloc, "list")
        .about(purpose(Topic::Listing))
        .override_usage("cssmin list <SHEET")
        .after_help(LIST_HELP)
}

const LINT_HELP: &str = "\
cssmin reads the sheet from standard input. What can go from the sheet gets a
line on standard output, in order:

    1:1 dead a:link:visited
    3:6 repeated top:0 9:6

`dead` is a selector that no element of any legal page matches. `repeated` is a
declaration that comes again later for each selector of its rule. The second
place is the last one for the first selector. Without all of this, the same
declarations win on every legal page. A rule that then has no selector or no
declaration can go too.

A place is a line and a column. A column counts characters, from 1. The body of
an opened `@media` block counts as a sheet of its own. Control characters are
spaces. `cssmin list --help` says which blocks are opened.

The status is 1 if cssmin finds something, and 0 if it finds nothing. A greater
one is a failure. If cssmin refuses the sheet, it says where:
`refused: KIND at N (LINE:COLUMN)`.

A page is legal if each id occurs once, no link is both visited and unvisited,
and nothing is both enabled and disabled. A page that repeats an id may need a
selector that is dead here. Look before you delete.";

/// The command `lint`.
fn lint_command<'a>(alloc: Global) -> Result<Command<'a>, AllocError> {
    Command::new(alloc, "lint")
        .about(purpose(Topic::Lint))
        .override_usage("cssmin lint [--budget N] <SHEET")
        .after_help(LINT_HELP)
        .arg(budget(alloc))
}

const INSPECT_HELP: &str = "\
Standard input is that of `cssmin style`: a small page, an empty line, and a
style sheet. The first line of the output says how many items cssmin keeps as
written; they do not count. Then each declaration of a rule has a line for each
selector of the rule that matches the element with the mark `*`:

    kept 0

    wins 2:4 0,1,0 .b{top:1px}
    lost 1:3 0,0,1 a{top:0}

An empty line comes before each group of properties that may set the same thing,
as `margin` and `margin-top`. In a group the lines are in the order of the
cascade, what wins most first. The declarations of `all` are in each group. A
line has a word, where the declaration begins, the specificity, and the selector
with the declaration:

    wins    it wins if no opened `@media` block applies
    when    it stands in such a block, and wins if only blocks with its head
            apply; the head follows
    lost    it never wins: another one that sets the same property, or `all`,
            always comes before it

A place is a line and a column. A column counts characters, from 1. Control
characters are spaces. `cssmin list --help` says which blocks are opened. Every
value counts as one that the browser understands. If it does not understand one,
a later line may win. Inherited values do not count.

If cssmin refuses the sheet, it says where: `refused: KIND at N (LINE:COLUMN)`,
all counted from the start of the sheet.";

/// The command `inspect`.
fn inspect_command<'a>(alloc: Global) -> Command<'a> {
    Command::new(alloc, "inspect")
        .about(purpose(Topic::Inspect))
        .override_usage("cssmin inspect <PAGE-AND-SHEET")
        .after_help(INSPECT_HELP)
}

/// The word `help`.
fn help_command<'a>(alloc: Global) -> Command<'a> {
    Command::new(alloc, "help").about("Print this message")
}

/// The program without its commands.
fn bare_program<'a>(alloc: Global, version: &'a str) -> Command<'a> {
    Command::new(alloc, "cssmin")
        .about(purpose(Topic::Program))
        .version(version)
        .after_help(PROGRAM_HELP)
        .subcommand_required(true)
        .disable_help_subcommand(true)
}

/// The commands, in the order in which help lists them.
const COMMANDS: [Topic; 13] = [
    Topic::Min,
    Topic::Cmp,
    Topic::Dead,
    Topic::Style,
    Topic::Why,
    Topic::Same,
    Topic::Diff,
    Topic::Blockers,
    Topic::Listing,
    Topic::Lint,
    Topic::Inspect,
    Topic::Check,
    Topic::Trial,
];

/// The program without its commands, or one of them.
fn command<'a>(alloc: Global, version: &'a str, about: Topic) -> Result<Command<'a>, AllocError> {
    match about {
        Topic::Program => Ok(bare_program(alloc, version)),
        Topic::Min => min_command(alloc),
        Topic::Cmp => cmp_command(alloc),
        Topic::Dead => dead_command(alloc),
        Topic::Style => Ok(style_command(alloc)),
        Topic::Why => why_command(alloc),
        Topic::Same => same_command(alloc),
        Topic::Diff => diff_command(alloc),
        Topic::Blockers => blockers_command(alloc),
        Topic::Listing => Ok(list_command(alloc)),
        Topic::Lint => lint_command(alloc),
        Topic::Inspect => Ok(inspect_command(alloc)),
        Topic::Check => Ok(check_command(alloc)),
        Topic::Trial => trial_command(alloc),
    }
}

/// The program.
pub(crate) fn program<'a>(alloc: Global, version: &'a str) -> Result<Command<'a>, AllocError> {
    let mut program = bare_program(alloc, version);
    for about in COMMANDS {
        program = program.subcommand(command(alloc, version, about)?)?;
    }
    program.subcommand(help_command(alloc))
}
