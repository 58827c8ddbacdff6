//! The compounds and combinators of a selector by their numbers.

ghost use Rattle.std.specs.Prelude.{◌≡◌, ◌<◌, length};
ghost use Rattle.grid_laws.specs.Solved.{nth_compound};

use css_model::{Combinator, Compound, Selector, Simple};

/// The compounds of a selector, from the right.
pub fn chain_of(selector: &Selector) -> &[Compound]
    ensures { result.now ≡ selector.now.chain }
{
    selector.chain.as_slice()
}

/// The combinators of a selector, from the right.
pub fn links_of(selector: &Selector) -> &[Combinator]
    ensures { result.now ≡ selector.now.links }
{
    selector.links.as_slice()
}

/// The simple selectors of the i-th compound, counted from 0.
pub fn simples_at(chain: &[Compound], i: usize) -> &[Simple]
    requires { i < length chain.now }
    ensures { result.now ≡ nth_compound chain.now i }
{
    let compound = &chain[i];
    compound.simples.as_slice()
}
