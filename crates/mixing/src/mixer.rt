//! A hasher of one number. It is fast at the short writes that texts of code points make.

ghost use Rattle.std.specs.Prelude.{◌≡◌, fold, length};
ghost use Rattle.std.specs.Int.{from_le_bytes, w32, w64};
ghost use Rattle.mixing.specs.Mixer as spec;

use std::hash::Hasher;

/// A hasher: what was fed so far. Whoever picks what is fed can make it collide. It serves only where a collision costs
/// no more than time.
#[derive(Clone, Copy)]
pub struct Mixer {
    state: u64,
}

impl Mixer {
    /// A hasher that was fed nothing.
    #[tactic(auto, unfolding(crate::specs::Mixer::initial))]
    pub fn new() -> Mixer
        ensures { result ≡ spec.initial }
    {
        Mixer {
            state: 0x243f_6a88_85a3_08d3,
        }
    }

    /// Feeds one number.
    #[tactic(auto, unfolding(crate::specs::Mixer::mixed))]
    fn mix(&mut self, number: u64)
        ensures { self.new ≡ spec.mixed self.old number }
    {
        self.state = (self.state.rotate_left(5) ^ number).wrapping_mul(0x9e37_79b9_7f4a_7c15);
    }

    /// Feeds each byte as a number.
    fn mix_each(&mut self, bytes: &[u8])
        ensures { self.new ≡ fold spec.mixed self.old bytes.now }
    {
        for byte in bytes {
            self.mix(u64::from(*byte));
        }
    }

    /// The upper half of what a hasher gives.
    #[tactic(auto, unfolding(crate::specs::Mixer::finished))]
    pub fn digest(&self) -> u32
        ensures { result ≡ spec.finished self.now }
    {
        (self.state >> 32) as u32
    }
}

/// Four bytes as one number.
fn number_of_four(bytes: &[u8]) -> u64
    requires { length bytes.now ≡ 4 }
    ensures { result ≡ from_le_bytes w32 bytes.now }
{
    u64::from(u32::from_le_bytes([bytes[0], bytes[1], bytes[2], bytes[3]]))
}

/// Eight bytes as one number.
fn number_of_eight(bytes: &[u8]) -> u64
    requires { length bytes.now ≡ 8 }
    ensures { result ≡ from_le_bytes w64 bytes.now }
{
    u64::from_le_bytes([
        bytes[0], bytes[1], bytes[2], bytes[3], bytes[4], bytes[5], bytes[6], bytes[7],
    ])
}

impl Default for Mixer {
    ghost is_default = { λ m. m ≡ spec.initial };

    fn default() -> Mixer {
        Mixer::new()
    }
}

impl Hasher for Mixer {
    ghost write = { spec.write };

    ghost finish = { λ m. m.state };

    fn finish(&self) -> u64 {
        self.state
    }

    fn write(&mut self, bytes: &[u8]) {
        match bytes.len() {
            4 => self.mix(number_of_four(bytes)),
            8 => self.mix(number_of_eight(bytes)),
            _ => self.mix_each(bytes),
        }
    }

    fn write_u8(&mut self, i: u8) {
        self.mix(u64::from(i));
    }

    fn write_u32(&mut self, i: u32) {
        self.mix(u64::from(i));
    }

    fn write_u64(&mut self, i: u64) {
        self.mix(i);
    }

    fn write_usize(&mut self, i: usize) {
        self.mix(i as u64);
    }
}
