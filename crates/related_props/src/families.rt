//! The family of a name, and whether two names are related.

ghost use Rattle.std.specs.Prelude.{◌≡◌, ◌↔◌, IfOk, IsTrue, codes};
ghost use Rattle.css_model.specs.Lists.{begins_with};
ghost use Rattle.css_model.specs.Cascade.Family.{Related, family_of, related, related_families};
ghost use Rattle.related_props.specs.Seen.{family_seen};

use crate::parts::part_of;
use crate::table::{is_word, listed_family};
use css_model::{Family, Text};
use std::alloc::{AllocError, Global};

/// The family of a name, by parts of the name and of the table. It takes no memory.
#[derive(Clone, Copy)]
pub(crate) enum Seen<'a> {
    /// That of `all`.
    All,
    /// A custom property's own.
    Custom(&'a [char]),
    /// A family of the table.
    Listed(&'static [u8]),
    /// The family that the part of a name names itself.
    Named(&'a [char]),
}

/// Whether a name is that of a custom property.
fn is_custom(name: &[char]) -> bool
    ensures { result ≡ begins_with name.now (codes "--") }
{
    matches!(name, ['-', '-', ..])
}

/// The family of a name.
pub(crate) fn seen_family(name: &[char]) -> Seen<'_>
    ensures { family_seen result ≡ family_of name.now }
{
    if is_word(name, b"all") {
        return Seen::All;
    }
    if is_custom(name) {
        return Seen::Custom(name);
    }
    let part = part_of(name);
    match listed_family(part) {
        Some(family) => Seen::Listed(family),
        None => Seen::Named(part),
    }
}

fn text_of(alloc: Global, codes: &[char]) -> Result<Text, AllocError>
    ensures { IfOk result (λ t. t ≡ codes.now) }
{
    Ok(Text::new(Vec::from_slice(alloc, codes)?))
}

fn text_of_word(alloc: Global, word: &[u8]) -> Result<Text, AllocError>
    ensures { IfOk result (λ t. t ≡ word.now) }
{
    let mut codes = Vec::with_capacity(alloc, word.len())?;
    for byte in word {
        codes.push(char::from(*byte))?;
    }
    Ok(Text::new(codes))
}

/// The family of a property's name. The name is decoded and in lower case; that of a custom property is only decoded.
/// `AllocError` where memory runs out.
pub fn family(alloc: Global, name: &Text) -> Result<Family, AllocError>
    ensures { IfOk result (λ f. f ≡ family_of name.now) }
{
    match seen_family(name.codes()) {
        Seen::All => Ok(Family::All),
        Seen::Custom(codes) => Ok(Family::Custom(text_of(alloc, codes)?)),
        Seen::Listed(word) => Ok(Family::Named(text_of_word(alloc, word)?)),
        Seen::Named(codes) => Ok(Family::Named(text_of(alloc, codes)?)),
    }
}

fn related_seen(x: Seen<'_>, y: Seen<'_>) -> bool
    ensures { result ≡ related_families (family_seen x.entry) (family_seen y.entry) }
{
    match (x, y) {
        (Seen::All, _) | (_, Seen::All) => true,
        (Seen::Custom(a), Seen::Custom(b)) => a == b,
        (Seen::Named(a), Seen::Named(b)) => a == b,
        (Seen::Listed(a), Seen::Listed(b)) => a == b,
        (Seen::Listed(word), Seen::Named(text)) | (Seen::Named(text), Seen::Listed(word)) => {
            is_word(text, word)
        }
        _ => false,
    }
}

/// Whether two names are related: one is of the family of `all`, or both are of one family.
pub fn related(x: &Text, y: &Text) -> bool
    ensures same { result ≡ related x.now y.now }
    ensures exact { IsTrue result ↔ Related x.now y.now }
{
    related_seen(seen_family(x.codes()), seen_family(y.codes()))
}
