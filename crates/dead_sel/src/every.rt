//! The selector that matches everything.

ghost use Rattle.std.specs.Prelude.{◌≡◌, IfOk};
ghost use Rattle.dead_sel.specs.Living.{every};

use css_model::{Compound, Pseudo, Selector, Simple, Test};
use smallvec::SmallVec;
use std::alloc::{AllocError, Global};

/// `*` with a pseudo-element, or without one (Selectors 3, sections 6.2 and 7).
pub(crate) fn every(alloc: Global, pseudo: Option<Pseudo>) -> Result<Selector, AllocError>
    ensures { IfOk result (λ s. s ≡ every pseudo) }
{
    let mut simples = SmallVec::new(alloc);
    simples.push(Simple {
        negated: false,
        test: Test::Any,
    })?;
    let chain = vec![in alloc; Compound { simples }]?;
    Ok(Selector::new(chain, Vec::new(alloc), pseudo))
}
