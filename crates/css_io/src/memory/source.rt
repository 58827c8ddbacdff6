//! A source in memory, which fails at chosen calls.

ghost use Rattle.std.specs.Prelude.{◌≡◌, ◌↔◌, ◌≤◌, ◌++◌, Some, min, max, length, take, drop, IfOk, IsErr, OnErr, Contains};
ghost use Rattle.css_io.specs.Io.{next_count, Rose, GivesFirst};
ghost use Rattle.css_io.specs.Memory.{SourceGives};

use crate::copying::copy_front;
use crate::counting::next_count_of;
use crate::traits::{Failed, Source};
use std::marker::Model;

/// A source in memory, which fails at chosen calls.
///
/// Calls are numbered from 0. Each gives at most a piece of so many bytes, which finds out a reader that relies on
/// whole reads.
#[derive(Drop)]
pub struct MemSource {
    bytes: Vec<u8>,
    given: usize,
    piece: u32,
    fails: Vec<u64>,
    call: u64,
    faults: u64,
}

impl Model for MemSource {
    ghost use Rattle.std.specs.Prelude.{◌≤◌, ◌<◌, drop, vec_len};
    ghost use Rattle.css_io.specs.Memory.{SourceState};

    ghost Value = { SourceState };

    ghost view = { λ s. record {
      left = drop s.given s.bytes.items;
      piece = s.piece;
      fails = s.fails.items;
      call = s.call;
      faults = s.faults;
    } };

    ghost invariant = { λ s. (s.given ≤ vec_len s.bytes) × (0 < s.piece) };
}

impl MemSource {
    /// A source of these bytes. A call gives at most `piece` bytes (0 counts as 1). The calls whose numbers, from 0,
    /// are in `fails` fail.
    pub fn new(bytes: Vec<u8>, piece: u32, fails: Vec<u64>) -> MemSource
        ensures { result ≡ record {
          left = bytes.items;
          piece = max piece 1;
          fails = fails.items;
          call = 0;
          faults = 0;
        } }
    {
        MemSource {
            bytes,
            given: 0,
            piece: piece.max(1),
            fails,
            call: 0,
            faults: 0,
        }
    }

    /// The bytes that are left.
    pub fn rest(&self) -> &[u8]
        ensures { result.now ≡ self.now.left }
    {
        &self.bytes[self.given..]
    }
}

impl Source for MemSource {
    ghost left = { λ s. Some s.left };

    ghost faults = { λ s. s.faults };

    ghost read_gives = { SourceGives };

    /// Reads a piece, and answers how many bytes it gave. `Failed` exactly where the number of this call is in `fails`.
    fn read(&mut self, into: &mut [u8]) -> Result<usize, Failed>
        // What every source says.
        ensures bytes { GivesFirst (Some self.old.left) (Some self.new.left) into.new result }
        ensures bound { IfOk result (λ n. n ≤ length into.new) }
        ensures later { self.old.faults ≤ self.new.faults }
        ensures cause { OnErr result (Rose self.old.faults self.new.faults) }
        ensures gives { SourceGives self.old result self.new }

        // What this one adds: exactly when it fails, how much it gives, and what it is afterwards.
        ensures fails { IsErr result ↔ Contains self.old.fails self.old.call }
        ensures size { IfOk result (λ n.
            n ≡ min self.old.piece (min (length self.old.left) (length into.old))) }
        ensures buffer { IfOk result (λ n.
            into.new ≡ take n self.old.left ++ drop n into.old) }
        ensures read { IfOk result (λ n. self.new ≡ record self.old {
          left = drop n self.old.left;
          call = next_count self.old.call;
        }) }
        ensures untouched { OnErr result (into.new ≡ into.old) }
        ensures failed { OnErr result (self.new ≡ record self.old {
          call = next_count self.old.call;
          faults = next_count self.old.faults;
        }) }
    {
        let fails = self.fails.contains(&self.call);
        self.call = next_count_of(self.call);
        if fails {
            self.faults = next_count_of(self.faults);
            return Err(Failed);
        }
        let n = copy_front(&self.bytes[self.given..], into, self.piece as usize);
        self.given += n;
        Ok(n)
    }
}
