//! The adapter over std's writers.

ghost use Rattle.std.specs.Prelude.{◌≡◌, ◌≤◌, None, OnErr};
ghost use Rattle.std.specs.Io.KnownBytes.{WriteAppends};
ghost use Rattle.css_io.specs.Io.{Rose, TakesFirst};
ghost use Rattle.css_io.specs.Standard.{sink_writer, sink_faults};

use super::INTERRUPTIONS;
use crate::counting::next_count_of;
use crate::traits::{Failed, Sink};
use std::io::{ErrorKind, Write};

/// One of std's writers as a sink.
///
/// It says nothing of its bytes, since what a file or a terminal takes is not seen. It counts each error of the writer,
/// interruptions too, each write that took nothing, and each time that it gives up. It does not flush: the writer is to
/// keep nothing back, as std's standard output and standard error do not.
#[derive(Drop)]
pub struct StdSink<W: Write + Drop> {
    inner: W,
    faults: u64,
}

impl<W: Write + Drop> StdSink<W> {
    /// A sink that writes to `inner`.
    pub fn new(inner: W) -> StdSink<W>
        ensures writer { sink_writer result ≡ inner }
        ensures faults { sink_faults result ≡ 0 }
    {
        StdSink { inner, faults: 0 }
    }

    /// How many faults were counted.
    pub fn faults(&self) -> u64
        ensures { result ≡ sink_faults self.now }
    {
        self.faults
    }
}

impl<W: Write + Drop> Sink for StdSink<W> {
    ghost written = { λ _. None };

    ghost faults = { λ s. sink_faults s };

    ghost fits = { λ _ _. Unit {0} };

    /// Writes once, and again where the writer was interrupted; answers how many bytes were taken. `Failed` at any
    /// other error, where the writer took nothing of a piece that is not empty, and after 1,000 interruptions.
    fn write(&mut self, from: &[u8]) -> Result<usize, Failed>
        // What every sink says.
        ensures bytes { TakesFirst None None from.now result }
        ensures later { sink_faults self.old ≤ sink_faults self.new }
        ensures cause { OnErr result (Rose (sink_faults self.old) (sink_faults self.new)) }

        // What this one adds: where the bytes of the writer are known, it took those.
        ensures passes { WriteAppends (W.contents (sink_writer self.old))
            (W.contents (sink_writer self.new)) result from.now }
    {
        for _ in 0..INTERRUPTIONS {
            match self.inner.write(from) {
                Ok(0) if !from.is_empty() => {
                    self.faults = next_count_of(self.faults);
                    return Err(Failed);
                }
                Ok(n) => return Ok(n),
                Err(e) => {
                    self.faults = next_count_of(self.faults);
                    if e.kind() != ErrorKind::Interrupted {
                        return Err(Failed);
                    }
                }
            }
        }
        self.faults = next_count_of(self.faults);
        Err(Failed)
    }
}
