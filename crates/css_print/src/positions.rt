//! The positions that a selector tests, in the order of its text.

ghost use Rattle.std.specs.Prelude.{◌≡◌, ◌∷◌, [], drop, MatchOption};
ghost use Rattle.selector_laws.specs.Positions.{position_of, positions_in};

use css_model::{AnB, Compound, Selector, Simple, Test};

/// The positions that simple selectors test, and after them those of compounds, from right to left.
#[derive(Clone, Copy)]
pub(crate) struct Positions<'a> {
    simples: &'a [Simple],
    compounds: &'a [Compound],
}

/// The position that a simple selector tests, if it does.
fn position(simple: &Simple) -> Option<AnB>
    ensures { MatchOption result (position_of simple.now.test ≡ []) (λ x. position_of simple.now.test ≡ x ∷ []) }
{
    match simple.test {
        Test::Nth(x) | Test::NthLast(x) => Some(x),
        _ => None,
    }
}

/// The first position of simple selectors. They are then those after it.
fn next_in(simples: &mut &[Simple]) -> Option<AnB>
    ensures { MatchOption result ((positions_in simples.old.now ≡ []) × (positions_in simples.new.now ≡ [])) (λ x. positions_in simples.old.now ≡ x ∷ positions_in simples.new.now) }
{
    'simples: while let [simple, rest @ ..] = *simples {
        *simples = rest;
        if let Some(x) = position(simple) {
            return Some(x);
        }
    }
    None
}

impl<'a> Positions<'a> {
    ghost use Rattle.css_print.specs.Positions.{remaining};
    ghost use Rattle.selector_laws.specs.Positions.{positions_of};

    /// The positions of a selector.
    pub(crate) fn new(selector: &'a Selector) -> Positions<'a>
        ensures { remaining result ≡ positions_of selector.now.chain }
    {
        Positions {
            simples: &[],
            compounds: selector.chain.as_slice(),
        }
    }

    /// The next position, or none after the last.
    pub(crate) fn next(&mut self) -> Option<AnB>
        ensures { MatchOption result ((remaining self.old ≡ []) × (remaining self.new ≡ [])) (λ x. remaining self.old ≡ x ∷ remaining self.new) }
    {
        let mut simples = self.simples;
        let mut compounds = self.compounds;
        'compounds: loop {
            if let Some(x) = next_in(&mut simples) {
                *self = Positions { simples, compounds };
                return Some(x);
            }
            match compounds.split_last() {
                None => {
                    *self = Positions { simples, compounds };
                    return None;
                }
                Some((compound, rest)) => {
                    compounds = rest;
                    simples = compound.simples.as_slice();
                }
            }
        }
    }

    /// Passes the next position, if there is one.
    pub(crate) fn pass(&mut self)
        ensures { remaining self.new ≡ drop 1 (remaining self.old) }
    {
        self.next();
    }
}
