//! What a division leaves.

ghost use Rattle.std.specs.Prelude.{◌≡◌, ◌≤◌};
ghost use Rattle.remainders.specs.Remainders.{moved};
ghost use Rattle.remainders.specs.Sizes.{IsShort};

/// So much is left by a division.
#[derive(Clone, Copy, Debug, PartialEq, Eq)]
pub struct Remainder {
    /// By what is divided.
    pub step: u32,
    /// What is left.
    pub rest: u32,
}

impl Remainder {
    /// What a number leaves that is `up` more and `down` less than one that leaves this. Takes no memory.
    pub fn moved(self, up: u32, down: u32) -> Remainder
        requires short { IsShort self }
        requires up { up ≤ 1000 }
        requires down { down ≤ 1000 }
        ensures value { result ≡ moved up down self }
        ensures short { IsShort result }
    {
        let rest = (self.rest + up + down * (self.step - 1)) % self.step;
        Remainder {
            step: self.step,
            rest,
        }
    }
}
