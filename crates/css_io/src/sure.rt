//! A source and a sink that never fail.

ghost use Rattle.std.specs.Prelude.{◌≡◌, ◌+◌, ◌≤◌, ◌++◌, ℕ, List, [], Some, Ok, min, length, take, drop, IfOk};
ghost use Rattle.css_io.specs.Io.{GivesFirst};
ghost use Rattle.css_io.specs.Sure.{sure_room, SureGives};

use crate::copying::copy_front;
use crate::traits::{Failed, Sink, Source};
use std::alloc::{AllocError, Global};
use std::marker::Model;

/// How many bytes a [`SureSink`] has room for.
pub const SURE_ROOM: usize = 4_194_304;

/// A source in memory that never fails. Contracts see it as the list of the bytes left.
#[derive(Drop)]
pub struct SureSource {
    bytes: Vec<u8>,
    given: usize,
}

impl Model for SureSource {
    ghost use Rattle.std.specs.Prelude.{List, ℕ, ◌≤◌, drop, vec_len};

    ghost Value = { List ℕ };

    ghost view = { λ s. drop s.given s.bytes.items };

    ghost invariant = { λ s. s.given ≤ vec_len s.bytes };
}

impl SureSource {
    /// A source of these bytes.
    pub fn new(bytes: Vec<u8>) -> SureSource
        ensures { result ≡ bytes.items }
    {
        SureSource { bytes, given: 0 }
    }

    /// The bytes that are left.
    pub fn rest(&self) -> &[u8]
        ensures { result.now ≡ self.now }
    {
        &self.bytes[self.given..]
    }
}

impl Source for SureSource {
    ghost left = { λ s. Some s };

    ghost faults = { λ _. 0 };

    ghost read_gives = { SureGives };

    /// Reads as many bytes as are left and fit, and answers how many. It never fails.
    fn read(&mut self, into: &mut [u8]) -> Result<usize, Failed>
        // What every source says; its count of faults is always 0.
        ensures bytes { GivesFirst (Some self.old) (Some self.new) into.new result }
        ensures bound { IfOk result (λ n. n ≤ length into.new) }
        ensures gives { SureGives self.old result self.new }

        // What this one adds.
        ensures sure { result ≡ Ok (min (length self.old) (length into.old)) }
        ensures buffer { IfOk result (λ n. into.new ≡ take n self.old ++ drop n into.old) }
    {
        let n = copy_front(&self.bytes[self.given..], into, usize::MAX);
        self.given += n;
        Ok(n)
    }
}

/// A sink in memory that never fails, with room for [`SURE_ROOM`] bytes. What is written has to fit. Contracts see it
/// as the list of the bytes written.
#[derive(Drop)]
pub struct SureSink {
    bytes: Vec<u8>,
}

impl Model for SureSink {
    ghost use Rattle.std.specs.Prelude.{List, ℕ, ◌≤◌, vec_capacity};
    ghost use Rattle.css_io.specs.Sure.{sure_room};

    ghost Value = { List ℕ };

    ghost view = { λ s. s.bytes.items };

    ghost invariant = { λ s. sure_room ≤ vec_capacity s.bytes };
}

impl SureSink {
    /// An empty sink, which takes all its room at once: every list of at most [`SURE_ROOM`] bytes fits. `AllocError`
    /// where memory runs out.
    pub fn new(alloc: Global) -> Result<SureSink, AllocError>
        ensures empty { IfOk result (λ sink. sink ≡ []) }
        ensures room { IfOk result (λ sink. (bytes : List ℕ) → length bytes ≤ sure_room
            → ⟦<SureSink as Sink>⟧.fits sink bytes) }
    {
        let bytes = Vec::with_capacity(alloc, SURE_ROOM)?;
        Ok(SureSink { bytes })
    }

    /// The bytes written so far.
    pub fn bytes(&self) -> &[u8]
        ensures { result.now ≡ self.now }
    {
        self.bytes.as_slice()
    }
}

impl Sink for SureSink {
    ghost written = { λ s. Some s };

    ghost faults = { λ _. 0 };

    ghost fits = { λ s piece. length s + length piece ≤ sure_room };

    /// Writes all of `from`, which has to fit. It never fails.
    fn write(&mut self, from: &[u8]) -> Result<usize, Failed>
        requires { length self.old + length from.now ≤ sure_room }
        ensures sure { result ≡ Ok (length from.now) }
        ensures wrote { self.new ≡ self.old ++ from.now }
    {
        self.bytes.extend_from_slice(from).unwrap();
        Ok(from.len())
    }
}
