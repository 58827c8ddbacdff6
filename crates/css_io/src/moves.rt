//! Reading all bytes of a source, and writing all of some bytes to a sink.

ghost use Rattle.std.specs.Prelude.{◌≡◌, ◌+◌, ◌≤◌, ◌<◌, ◌++◌, ℕ, List, [], Some, length, take, IfSome, IsSomeAnd, IfOk, IsErr, IsErrOf, OnOk, OnErr, vec_len};
ghost use Rattle.css_io.specs.Io.{Rose, HasTaken, HasAdded};
ghost use Rattle.css_io.specs.Messages.{read_error, write_fault};
ghost use Rattle.css_io.specs.Reading.{ReadsAll};
ghost use Rattle.css_io.specs.declared.moves.ReadError.TheVariants.{NoMemory};

use crate::traits::{Failed, Sink, Source};
use std::alloc::{AllocError, Global};
use std::fmt;
use thiserror::Error;

/// Why the bytes of a source could not all be read.
#[derive(Clone, Copy, Debug, PartialEq, Eq, Error)]
pub enum ReadError {
    /// A read failed.
    ReadFault,
    /// There are more bytes than the limit.
    TooLong,
    /// There is no memory for as many bytes as are allowed.
    NoMemory,
}

impl fmt::Display for ReadError {
    ghost output = { λ error. Some (read_error error) };

    fn fmt<W: fmt::Write>(&self, f: &mut fmt::Formatter<W>) -> fmt::Result {
        f.write_str(match self {
            ReadError::ReadFault => "the input could not be read to its end",
            ReadError::TooLong => "the input has more bytes than are allowed",
            ReadError::NoMemory => "not enough memory to hold the input",
        })
    }
}

impl From<AllocError> for ReadError {
    ghost from_gives = { λ _ e. e ≡ NoMemory };

    fn from(_: AllocError) -> ReadError {
        ReadError::NoMemory
    }
}

/// A write failed before all bytes were written.
#[derive(Clone, Copy, Debug, PartialEq, Eq, Error)]
pub struct WriteFault;

impl fmt::Display for WriteFault {
    ghost output = { λ _. Some write_fault };

    fn fmt<W: fmt::Write>(&self, f: &mut fmt::Formatter<W>) -> fmt::Result {
        f.write_str("the output could not be written to its end")
    }
}

/// How many bytes one call of `read` is asked for.
const PIECE: usize = 4096;

/// Reads all that is left in `src`, at most `limit` bytes.
///
/// All memory is taken before the first read.
///
/// | error | when | what was taken from `src` |
/// |---|---|---|
/// | `NoMemory` | before the first read | nothing |
/// | `ReadFault` | a read failed | at most `limit` bytes; they are lost |
/// | `TooLong` | there are more than `limit` bytes | `limit + 1` bytes |
pub fn read_all<S: Source>(alloc: Global, src: &mut S, limit: u32) -> Result<Vec<u8>, ReadError>
    requires { limit < u32.MAX }

    // All that was left, within the limit, and nothing is left.
    ensures ok { IfOk result (λ read. IfSome (S.left src.old) (λ bytes.
        (read.items ≡ bytes) × (S.left src.new ≡ Some []))) }
    ensures short { IfOk result (λ read. vec_len read ≤ limit) }

    // Exactly where more was left than the limit, if no read failed.
    ensures too_long { IsErrOf result ReadError.TooLong
        → HasTaken (limit + 1) (S.left src.old) (S.left src.new) }
    ensures longer { IsSomeAnd (S.left src.old) (λ bytes. limit < length bytes) → IsErr result }

    // Only where the count rose in this call; some bytes of the front were taken.
    ensures read_fault { IsErrOf result ReadError.ReadFault
        → Rose (S.faults src.old) (S.faults src.new) }
    ensures part { IsErrOf result ReadError.ReadFault
        → (n : ℕ) × (n ≤ limit) × HasTaken n (S.left src.old) (S.left src.new) }

    // Before the first read.
    ensures no_memory { IsErrOf result ReadError.NoMemory → src.new ≡ src.old }
    ensures later { S.faults src.old ≤ S.faults src.new }

    // Each read gave at least one byte, found the end, or failed; it is not read on after that.
    ensures reads { ReadsAll S.read_gives limit result src.old src.new }
{
    let room = limit as usize + 1;
    let mut read = Vec::with_capacity(alloc, room)?;
    let mut piece = [0u8; PIECE];
    'pieces: while read.len() < room {
        let most = PIECE.min(room - read.len());
        match src.read(&mut piece[..most]) {
            Ok(0) => return Ok(read),
            Ok(n) => read.extend_from_slice(&piece[..n]).unwrap(),
            Err(Failed) => return Err(ReadError::ReadFault),
        }
    }
    Err(ReadError::TooLong)
}

/// Writes all of `bytes`. `WriteFault` where a write fails: then only the front of `bytes` was written.
pub fn write_all<O: Sink>(out: &mut O, bytes: &[u8]) -> Result<(), WriteFault>
    requires { O.fits out.old bytes.now }
    ensures ok { OnOk result (HasAdded bytes.now (O.written out.old) (O.written out.new)) }

    // Only where the count rose in this call; some bytes of the front were written, but not all.
    ensures write_fault { OnErr result (Rose (O.faults out.old) (O.faults out.new)) }
    ensures part { OnErr result ((n : ℕ) × (n < length bytes.now)
        × HasAdded (take n bytes.now) (O.written out.old) (O.written out.new)) }
    ensures later { O.faults out.old ≤ O.faults out.new }

    // What fitted after these bytes fits now.
    ensures more { OnOk result ((behind : List ℕ) → O.fits out.old (bytes.now ++ behind)
        → O.fits out.new behind) }
{
    let mut rest = bytes;
    'pieces: while !rest.is_empty() {
        match out.write(rest) {
            Ok(n) => rest = &rest[n..],
            Err(Failed) => return Err(WriteFault),
        }
    }
    Ok(())
}
