//! The flags that the simple selectors of two lists ask for (Selectors 3, sections 6.6.1, 6.6.2 and 6.6.4).

ghost use Rattle.std.specs.Prelude.{◌≡◌, ◌++◌, ◌<◌, ◌≤◌, ◌+◌, ◌*◌, ◌^◌, if◌then◌else◌};
ghost use Rattle.std.specs.List.{list_any};
ghost use Rattle.css_model.specs.declared.selector.Flag.{Flag};
ghost use Rattle.css_model.specs.Documents.Features.{flag_number, flags_of};
ghost use Rattle.compound_fit.specs.Flags.{
  FlagsDecided,
  clashes_at,
  flags_clash,
  is_flag_asked,
  is_flag_refused,
  is_state,
};
ghost use Rattle.compound_fit.specs.Parts.{is_of_flag};

use css_model::{Flag, Simple, Test};

/// Whether no flags of a legal element pass. Where some pass, those that are asked for pass.
pub(crate) fn flags_clash(x: &[Simple], y: &[Simple]) -> bool
    ensures { FlagsDecided result (x.now ++ y.now) }
{
    if have_state(x, y) {
        has_clash(x, y)
    } else {
        false
    }
}

/// Whether some flag is tested.
fn have_state(x: &[Simple], y: &[Simple]) -> bool
    ensures { result ≡ list_any (λ s. is_of_flag s.test) (x.now ++ y.now) }
{
    has_state(x) || has_state(y)
}

/// Whether some of these tests a flag.
fn has_state(simples: &[Simple]) -> bool
    ensures { result ≡ list_any (λ s. is_of_flag s.test) simples.now }
{
    simples.iter().any(|simple| is_of_flag(&simple.test))
}

/// Whether a test is one of a flag.
fn is_of_flag(test: &Test) -> bool
    ensures { result ≡ is_of_flag test.now }
{
    matches!(test, Test::State(_))
}

/// Whether a flag is both asked for and refused, or two are asked for that no element has together.
fn has_clash(x: &[Simple], y: &[Simple]) -> bool
    ensures { result ≡ flags_clash (x.now ++ y.now) }
{
    clashes_at(x, y, Flag::Link)
        || clashes_at(x, y, Flag::Visited)
        || clashes_at(x, y, Flag::Hover)
        || clashes_at(x, y, Flag::Active)
        || clashes_at(x, y, Flag::Focus)
        || clashes_at(x, y, Flag::Target)
        || clashes_at(x, y, Flag::Enabled)
        || clashes_at(x, y, Flag::Disabled)
        || clashes_at(x, y, Flag::Checked)
        || is_flag_asked(x, y, Flag::Link) && is_flag_asked(x, y, Flag::Visited)
        || is_flag_asked(x, y, Flag::Enabled) && is_flag_asked(x, y, Flag::Disabled)
}

/// Whether a flag is both asked for and refused.
fn clashes_at(x: &[Simple], y: &[Simple], flag: Flag) -> bool
    ensures { result ≡ clashes_at flag (x.now ++ y.now) }
{
    is_flag_asked(x, y, flag) && is_flag_refused(x, y, flag)
}

/// Whether a flag is asked for.
fn is_flag_asked(x: &[Simple], y: &[Simple], flag: Flag) -> bool
    ensures { result ≡ is_flag_asked flag (x.now ++ y.now) }
{
    asks(x, flag) || asks(y, flag)
}

/// Whether some of these asks for a flag.
fn asks(simples: &[Simple], flag: Flag) -> bool
    ensures { result ≡ is_flag_asked flag simples.now }
{
    simples
        .iter()
        .any(|simple| !simple.negated && is_state(&simple.test, flag))
}

/// Whether a flag is refused.
fn is_flag_refused(x: &[Simple], y: &[Simple], flag: Flag) -> bool
    ensures { result ≡ is_flag_refused flag (x.now ++ y.now) }
{
    refuses(x, flag) || refuses(y, flag)
}

/// Whether some of these refuses a flag.
fn refuses(simples: &[Simple], flag: Flag) -> bool
    ensures { result ≡ is_flag_refused flag simples.now }
{
    simples
        .iter()
        .any(|simple| simple.negated && is_state(&simple.test, flag))
}

/// Whether a test asks for a flag.
fn is_state(test: &Test, flag: Flag) -> bool
    ensures { result ≡ is_state flag test.now }
{
    match test {
        Test::State(f) => flag_number(*f) == flag_number(flag),
        _ => false,
    }
}

/// The number of a flag, from 0.
fn flag_number(flag: Flag) -> u16
    ensures { result ≡ flag_number flag }
{
    match flag {
        Flag::Link => 0,
        Flag::Visited => 1,
        Flag::Hover => 2,
        Flag::Active => 3,
        Flag::Focus => 4,
        Flag::Target => 5,
        Flag::Enabled => 6,
        Flag::Disabled => 7,
        Flag::Checked => 8,
    }
}

/// The flags that are asked for, as a number: bit k, from 0, for the k-th flag.
pub(crate) fn flags(x: &[Simple], y: &[Simple]) -> u16
    ensures flags { (flag : Flag) → flags_of result flag ≡ is_flag_asked flag (x.now ++ y.now) }
    ensures few { result < 2 ^ 9 }
{
    if have_state(x, y) { all_flags(x, y) } else { 0 }
}

/// The same, flag by flag.
fn all_flags(x: &[Simple], y: &[Simple]) -> u16
    ensures flags { (flag : Flag) → flags_of result flag ≡ is_flag_asked flag (x.now ++ y.now) }
    ensures few { result < 2 ^ 9 }
{
    let checked = with(x, y, 0, Flag::Checked);
    let disabled = with(x, y, checked, Flag::Disabled);
    let enabled = with(x, y, disabled, Flag::Enabled);
    let target = with(x, y, enabled, Flag::Target);
    let focus = with(x, y, target, Flag::Focus);
    let active = with(x, y, focus, Flag::Active);
    let hover = with(x, y, active, Flag::Hover);
    let visited = with(x, y, hover, Flag::Visited);
    with(x, y, visited, Flag::Link)
}

/// A number with one bit more, at its low end.
fn with(x: &[Simple], y: &[Simple], number: u16, flag: Flag) -> u16
    requires { number < 2 ^ 8 }
    ensures value { result ≡ 2 * number + (if is_flag_asked flag (x.now ++ y.now) then 1 else 0) }
    ensures bound { result ≤ 2 * number + 1 }
{
    if is_flag_asked(x, y, flag) {
        2 * number + 1
    } else {
        2 * number
    }
}
