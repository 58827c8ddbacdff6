//! Comments (CSS Syntax 3, section 4.3.2).

ghost use Rattle.std.specs.Prelude.{◌≡◌, ◌≤◌, ◌+◌, length, drop, false, true, MatchOption};
ghost use Rattle.css_model.specs.Text.Characters.{star, begins};
ghost use Rattle.css_model.specs.Text.Runs.{run};
ghost use Rattle.css_model.specs.Text.Units.{comment_unit};

use memchr::memmem;

/// How many bytes come before the first `*/` of the text, if there is one.
pub(crate) fn comment_len(text: &[u8]) -> Option<usize>
    ensures { MatchOption result (begins star (drop (run comment_unit text.now) text.now) ≡ false)
        (λ n. (n ≡ run comment_unit text.now) × (begins star (drop n text.now) ≡ true) × (n + 2 ≤ length text.now)) }
{
    memmem::find(text, b"*/")
}
