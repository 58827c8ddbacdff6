//! The part of a name that decides its family.

ghost use Rattle.std.specs.Prelude.{◌≡◌, ◌≤◌, length};
ghost use Rattle.std.specs.List.{list_all, position_or_len, prefix_len};
ghost use Rattle.std.specs.Option.{option_copied};
ghost use Rattle.std.specs.Char.{is_ascii_alphanumeric};
ghost use Rattle.css_model.specs.Cascade.Family.{is_hyphen, is_vendor, part_of, without_underscores, without_vendor};
ghost use Rattle.related_props.specs.Parts.{behind_vendor, is_underscore};

fn count_underscores(name: &[char]) -> usize
    ensures count { result ≡ prefix_len is_underscore name.now }
    ensures within { result ≤ length name.now }
{
    name.iter().take_while(|c| **c == '_').count()
}

/// A name without the underscores at its start.
fn without_underscores(name: &[char]) -> &[char]
    ensures { result.now ≡ without_underscores name.now }
{
    &name[count_underscores(name)..]
}

/// The place of the first hyphen, or the length of a text that has none.
fn hyphen_or_end(text: &[char]) -> usize
    ensures { result ≡ position_or_len is_hyphen text.now }
{
    text.iter().take_while(|c| **c != '-').count()
}

fn is_alphanumeric(word: &[char]) -> bool
    ensures { result ≡ list_all is_ascii_alphanumeric word.now }
{
    word.iter().all(|c| c.is_ascii_alphanumeric())
}

/// Whether a word may be in a vendor prefix: it is not empty, and of letters and digits of ASCII.
fn is_vendor(word: &[char]) -> bool
    ensures { result ≡ is_vendor word.now }
{
    !word.is_empty() && is_alphanumeric(word)
}

/// What follows a vendor's word and a hyphen, if these are at the start.
fn behind_vendor(rest: &[char]) -> Option<&[char]>
    ensures { option_copied result ≡ behind_vendor rest.now }
{
    let end = hyphen_or_end(rest);
    if end < rest.len() && is_vendor(&rest[..end]) {
        Some(&rest[end + 1..])
    } else {
        None
    }
}

/// A name without one vendor prefix at its start.
fn without_vendor(name: &[char]) -> &[char]
    ensures { result.now ≡ without_vendor name.now }
{
    if let ['-', rest @ ..] = name
        && let Some(bare) = behind_vendor(rest)
    {
        bare
    } else {
        name
    }
}

/// The part of a property's name that decides its family.
pub(crate) fn part_of(name: &[char]) -> &[char]
    ensures { result.now ≡ part_of name.now }
{
    let bare = without_vendor(without_underscores(name));
    &bare[..hyphen_or_end(bare)]
}
