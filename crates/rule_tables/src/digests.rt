//! Digests of selectors and declarations: equal ones have equal digests.

ghost use Rattle.std.specs.Prelude.{◌≡◌, IfOk};
ghost use Rattle.rule_tables.specs.Digests as spec;
ghost use Rattle.rule_tables.specs.Tables as tables;

use css_model::{Decl, DeclItem, SelItem, Selector};
use mixing::Mixer;
use std::alloc::{AllocError, Global};
use std::hash::Hash;

/// The digest of a selector. Equal selectors have equal digests.
#[tactic(auto, unfolding(crate::specs::Digests::selector_digest))]
pub fn selector_digest(selector: &Selector) -> u32
    ensures { result ≡ spec.selector_digest selector.now }
{
    selector.digest()
}

/// The digest of a declaration: of its property, its value and its importance. Equal declarations have equal digests.
#[tactic(auto, unfolding(crate::specs::Digests::decl_digest))]
pub fn decl_digest(decl: &Decl) -> u32
    ensures { result ≡ spec.decl_digest decl.now }
{
    let mut state = Mixer::new();
    decl.name.hash(&mut state);
    decl.value.bytes().hash(&mut state);
    decl.important.hash(&mut state);
    state.digest()
}

/// The digests of selectors, in their order. `AllocError` where memory is short.
pub fn selector_digests(alloc: Global, selectors: &[SelItem]) -> Result<Vec<u32>, AllocError>
    ensures { IfOk result (λ digests. digests.items ≡ tables.selector_digests selectors.now) }
{
    let mut digests = Vec::new(alloc);
    for item in selectors {
        digests.push(selector_digest(&item.selector))?;
    }
    Ok(digests)
}

/// The digests of declarations, in their order. `AllocError` where memory is short.
pub fn decl_digests(alloc: Global, decls: &[DeclItem]) -> Result<Vec<u32>, AllocError>
    ensures { IfOk result (λ digests. digests.items ≡ tables.decl_digests decls.now) }
{
    let mut digests = Vec::new(alloc);
    for item in decls {
        digests.push(decl_digest(&item.decl))?;
    }
    Ok(digests)
}
