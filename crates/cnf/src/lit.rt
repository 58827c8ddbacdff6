//! Literals: a variable, or its negation.

ghost use Rattle.std.specs.Prelude.{◌≡◌, ◌/◌, List, Bool, not};

/// A literal: twice the number of a variable, plus 1 for the negation of the variable.
#[derive(Clone, Copy, Debug, Default, PartialEq, Eq, Hash)]
pub struct Lit(pub u32);

impl Lit {
    ghost use Rattle.cnf.specs.Lits.{negation, variable};
    ghost use Rattle.cnf.specs.Values.{value};

    /// The number of its variable.
    pub fn variable(self) -> u32
        ensures { result ≡ variable self }
    {
        self.0 / 2
    }

    /// The literal that is true where this one is false.
    pub fn negation(self) -> Lit
        ensures value { result ≡ negation self }
        ensures same_variable { variable result ≡ variable self }
        ensures flips { (vs : List Bool) → value vs result ≡ not (value vs self) }
    {
        if self.0 % 2 == 0 {
            Lit(self.0 + 1)
        } else {
            Lit(self.0 - 1)
        }
    }
}
