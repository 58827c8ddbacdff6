//! The adapter over std's readers.

ghost use Rattle.std.specs.Prelude.{◌≡◌, ◌≤◌, None, length, IfOk, OnErr};
ghost use Rattle.std.specs.Io.KnownBytes.{ReadConsumes};
ghost use Rattle.css_io.specs.Io.{CountsFaults, Rose, GivesFirst};
ghost use Rattle.css_io.specs.Standard.{source_reader, source_faults};

use super::INTERRUPTIONS;
use crate::counting::next_count_of;
use crate::traits::{Failed, Source};
use std::io::{ErrorKind, Read};

/// One of std's readers as a source.
///
/// It says nothing of its bytes, since a file or a terminal may give any. It counts each error of the reader,
/// interruptions too, and each time that it gives up.
#[derive(Drop)]
pub struct StdSource<R: Read + Drop> {
    inner: R,
    faults: u64,
}

impl<R: Read + Drop> StdSource<R> {
    /// A source that reads from `inner`.
    pub fn new(inner: R) -> StdSource<R>
        ensures reader { source_reader result ≡ inner }
        ensures faults { source_faults result ≡ 0 }
    {
        StdSource { inner, faults: 0 }
    }

    /// How many faults were counted.
    pub fn faults(&self) -> u64
        ensures { result ≡ source_faults self.now }
    {
        self.faults
    }
}

impl<R: Read + Drop> Source for StdSource<R> {
    ghost left = { λ _. None };

    ghost faults = { λ s. source_faults s };

    ghost read_gives = { λ old result new. CountsFaults (source_faults old) result (source_faults new) };

    /// Reads once, and again where the reader was interrupted; answers how many bytes were given. `Failed` at any other
    /// error, and after 1,000 interruptions.
    fn read(&mut self, into: &mut [u8]) -> Result<usize, Failed>
        // What every source says.
        ensures bytes { GivesFirst None None into.new result }
        ensures bound { IfOk result (λ n. n ≤ length into.new) }
        ensures later { source_faults self.old ≤ source_faults self.new }
        ensures cause { OnErr result (Rose (source_faults self.old) (source_faults self.new)) }
        ensures gives { CountsFaults (source_faults self.old) result (source_faults self.new) }

        // What this one adds: where the bytes of the reader are known, they are passed on.
        ensures passes { ReadConsumes (R.remaining (source_reader self.old))
            (R.remaining (source_reader self.new)) result into.new }
    {
        for _ in 0..INTERRUPTIONS {
            match self.inner.read(into) {
                Ok(n) => return Ok(n),
                Err(e) => {
                    self.faults = next_count_of(self.faults);
                    if e.kind() != ErrorKind::Interrupted {
                        return Err(Failed);
                    }
                }
            }
        }
        self.faults = next_count_of(self.faults);
        Err(Failed)
    }
}
