//! The numbers from which a sheet is made.

ghost use Rattle.std.specs.Prelude.{◌≡◌, ◌<◌, ◌^◌};
ghost use Rattle.trial_gen.specs.Draws.{drawn, next};

/// A generator of numbers that look drawn at random: the example `rand` of the C standard (C11, section 7.22.2.2).
#[derive(Drop)]
pub(crate) struct Draws {
    state: u32,
}

impl Draws {
    pub(crate) fn new() -> Draws
        ensures { result.state ≡ 1 }
    {
        Draws { state: 1 }
    }

    /// The next draw, below 32,768.
    pub(crate) fn draw(&mut self) -> u32
        ensures state { self.new.state ≡ next self.old.state }
        ensures drawn { result ≡ drawn self.new.state }
    {
        let next = (u64::from(self.state) * 1_103_515_245 + 12_345) % (1 << 31);
        self.state = next as u32;
        self.state / 65_536
    }
}
