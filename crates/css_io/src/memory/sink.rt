//! A sink in memory, which fails at chosen calls.

ghost use Rattle.std.specs.Prelude.{◌≡◌, ◌⊎◌, ◌↔◌, ◌-◌, ◌≤◌, ◌<◌, ◌++◌, [], Some, min, max, length, take, IfOk, IsErr, OnErr, Contains};
ghost use Rattle.css_io.specs.Io.{next_count, Rose, TakesFirst};

use crate::counting::next_count_of;
use crate::traits::{Failed, Sink};
use std::alloc::{AllocError, Global};
use std::marker::Model;

/// A sink in memory, which has room for so many bytes and fails at chosen calls.
///
/// Calls are numbered from 0. Each takes at most a piece of so many bytes, which finds out a writer that relies on
/// whole writes.
#[derive(Drop)]
pub struct MemSink {
    bytes: Vec<u8>,
    room: u32,
    piece: u32,
    fails: Vec<u64>,
    call: u64,
    faults: u64,
}

impl Model for MemSink {
    ghost use Rattle.std.specs.Prelude.{◌≤◌, ◌<◌, vec_len, vec_capacity};
    ghost use Rattle.css_io.specs.Memory.{SinkState};

    ghost Value = { SinkState };

    ghost view = { λ s. record {
      written = s.bytes.items;
      room = s.room;
      piece = s.piece;
      fails = s.fails.items;
      call = s.call;
      faults = s.faults;
    } };

    ghost invariant = { λ s.
        (vec_len s.bytes ≤ s.room) × (s.room ≤ vec_capacity s.bytes) × (0 < s.piece) };
}

impl MemSink {
    /// An empty sink with room for `room` bytes, which it takes at once. A call takes at most `piece` bytes (0 counts
    /// as 1). The calls whose numbers, from 0, are in `fails` fail. `AllocError` where memory runs out.
    pub fn new(alloc: Global, room: u32, piece: u32, fails: Vec<u64>) -> Result<MemSink, AllocError>
        ensures { IfOk result (λ sink. sink ≡ record {
          written = [];
          room = room;
          piece = max piece 1;
          fails = fails.items;
          call = 0;
          faults = 0;
        }) }
    {
        let bytes = Vec::with_capacity(alloc, room as usize)?;
        Ok(MemSink {
            bytes,
            room,
            piece: piece.max(1),
            fails,
            call: 0,
            faults: 0,
        })
    }

    /// The bytes written so far.
    pub fn bytes(&self) -> &[u8]
        ensures { result.now ≡ self.now.written }
    {
        self.bytes.as_slice()
    }
}

impl Sink for MemSink {
    ghost written = { λ s. Some s.written };

    ghost faults = { λ s. s.faults };

    ghost fits = { λ _ _. Unit {0} };

    /// Writes a piece, and answers how many bytes it took. `Failed` exactly where the number of this call is in
    /// `fails`, or where the room is full and `from` is not empty.
    fn write(&mut self, from: &[u8]) -> Result<usize, Failed>
        // What every sink says.
        ensures bytes { TakesFirst (Some self.old.written) (Some self.new.written) from.now result }
        ensures later { self.old.faults ≤ self.new.faults }
        ensures cause { OnErr result (Rose self.old.faults self.new.faults) }

        // What this one adds: exactly when it fails, how much it takes, and what it is afterwards.
        ensures fails { IsErr result ↔ (Contains self.old.fails self.old.call
            ⊎ ((length self.old.written ≡ self.old.room) × (0 < length from.now))) }
        ensures size { IfOk result (λ n. n ≡ min self.old.piece
            (min (self.old.room - length self.old.written) (length from.now))) }
        ensures wrote { IfOk result (λ n. self.new ≡ record self.old {
          written = self.old.written ++ take n from.now;
          call = next_count self.old.call;
        }) }
        ensures failed { OnErr result (self.new ≡ record self.old {
          call = next_count self.old.call;
          faults = next_count self.old.faults;
        }) }
    {
        let fails = self.fails.contains(&self.call);
        self.call = next_count_of(self.call);
        let free = self.room as usize - self.bytes.len();
        if fails || (free == 0 && !from.is_empty()) {
            self.faults = next_count_of(self.faults);
            return Err(Failed);
        }
        let n = (self.piece as usize).min(free.min(from.len()));
        self.bytes.extend_from_slice(&from[..n]).unwrap();
        Ok(n)
    }
}
