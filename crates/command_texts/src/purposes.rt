//! What the program and its commands do, in a line each.

ghost use Rattle.std.specs.Prelude.{◌≡◌};
ghost use Rattle.command_texts.specs.Texts as spec;

use command_words::Topic;

/// What the program does, or a command of it.
pub(crate) fn purpose(about: Topic) -> &'static str
    ensures { result.now ≡ spec.purpose about }
{
    match about {
        Topic::Program => {
            "Makes a CSS style sheet smaller, with the same winners on every legal page"
        }
        Topic::Min => "Make a style sheet smaller, with the same winners on each legal page",
        Topic::Dead => "Tell which selectors of a sheet match nothing on any legal page",
        Topic::Style => "Tell which declarations win for an element of a small page",
        Topic::Cmp => "Tell whether one element of a legal page can match two selectors",
        Topic::Why => "Tell why a rule of a style sheet may not be moved to another one",
        Topic::Same => "Compare which declarations win by two style sheets",
        Topic::Diff => "Tell how a style sheet differs from what another tool made of it",
        Topic::Blockers => "Tell which items of a style sheet stop merges that would save bytes",
        Topic::Listing => "List the items of a style sheet, each with its number and its place",
        Topic::Lint => "Tell which selectors match nothing and which declarations come again",
        Topic::Inspect => "List all declarations for an element of a small page, and which win",
        Topic::Check => "Check a log that refutes a formula",
        Topic::Trial => "Make a sheet and merge it, and tell what came of it",
    }
}
