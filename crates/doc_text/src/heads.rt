//! The first line of a document's text.

ghost use Rattle.std.specs.Prelude.{◌≡◌, ◌≢◌, ◌++◌, Bool, Option, OnOk, MatchOption};
ghost use Rattle.css_model.specs.declared.selector.Pseudo.{Pseudo};
ghost use Rattle.doc_text.specs.DocText.{child_name, head_text, pseudo_name};

use css_model::Pseudo;
use std::alloc::AllocError;

/// Appends the first line of a document's text, without its end.
pub(crate) fn push_head(
    out: &mut Vec<u8>,
    root_is_child: bool,
    pseudo: Option<Pseudo>,
) -> Result<(), AllocError>
    ensures { OnOk result (out.new.items ≡ out.old.items ++ head_text root_is_child pseudo) }
{
    out.extend_from_slice(child_name(root_is_child))?;
    out.extend_from_slice(pseudo_name(pseudo))
}

fn child_name(root_is_child: bool) -> &'static [u8]
    ensures { result.now ≡ child_name root_is_child }
{
    if root_is_child {
        b"child 1 pseudo "
    } else {
        b"child 0 pseudo "
    }
}

fn pseudo_name(pseudo: Option<Pseudo>) -> &'static [u8]
    ensures { result.now ≡ pseudo_name pseudo }
{
    match pseudo {
        None => b"none",
        Some(Pseudo::FirstLine) => b"first-line",
        Some(Pseudo::FirstLetter) => b"first-letter",
        Some(Pseudo::Before) => b"before",
        Some(Pseudo::After) => b"after",
    }
}

/// Whether the root counts as a child, and the pseudo-element, where this is a first line of a document's text.
pub(crate) fn read_head(line: &[u8]) -> Option<(bool, Option<Pseudo>)>
    ensures { MatchOption result
        ((root_is_child : Bool) (pseudo : Option Pseudo) → line.now ≢ head_text root_is_child pseudo)
        (λ head. line.now ≡ head_text head.0 head.1) }
{
    if let Some(name) = line.strip_prefix(child_name(false)) {
        return with_pseudo(false, name);
    }
    match line.strip_prefix(child_name(true)) {
        Some(name) => with_pseudo(true, name),
        None => None,
    }
}

fn with_pseudo(root_is_child: bool, name: &[u8]) -> Option<(bool, Option<Pseudo>)>
    ensures { MatchOption result
        ((pseudo : Option Pseudo) → name.now ≢ pseudo_name pseudo)
        (λ head. (head.0 ≡ root_is_child) × (name.now ≡ pseudo_name head.1)) }
{
    match read_pseudo(name) {
        Some(pseudo) => Some((root_is_child, pseudo)),
        None => None,
    }
}

/// The pseudo-element of a name, or none for `none`; nothing for any other name.
fn read_pseudo(name: &[u8]) -> Option<Option<Pseudo>>
    ensures { MatchOption result
        ((pseudo : Option Pseudo) → name.now ≢ pseudo_name pseudo)
        (λ pseudo. name.now ≡ pseudo_name pseudo) }
{
    if name == pseudo_name(None) {
        Some(None)
    } else if name == pseudo_name(Some(Pseudo::FirstLine)) {
        Some(Some(Pseudo::FirstLine))
    } else if name == pseudo_name(Some(Pseudo::FirstLetter)) {
        Some(Some(Pseudo::FirstLetter))
    } else if name == pseudo_name(Some(Pseudo::Before)) {
        Some(Some(Pseudo::Before))
    } else if name == pseudo_name(Some(Pseudo::After)) {
        Some(Some(Pseudo::After))
    } else {
        None
    }
}
