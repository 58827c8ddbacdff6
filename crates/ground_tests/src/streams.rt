//! Bytes that are read from sources and written to sinks, in pieces and with faults at chosen calls.

use css_io::{
    Failed, MemSink, MemSource, ReadError, Sink, Source, StdSink, StdSource, SureSink, SureSource,
    WriteFault, read_all, write_all,
};
use std::alloc::{AllocError, Global};
use std::io;
use std::io::{ErrorKind, Read, Write};
use std::process::Abort;
use std::test::Fail;

const SHEET: &[u8] = b"a{color:red}";

/// The number of a call that never comes.
const NEVER: u64 = 99;

/// Reads the sheet by pieces of so many bytes, where the call of a number fails. Compares the outcome, and the bytes
/// that are left.
fn reads(
    rt: &impl Abort,
    alloc: Global,
    piece: u32,
    fault: u64,
    limit: u32,
    want: Result<(), ReadError>,
    rest: &[u8],
) -> Result<(), AllocError> {
    assert!(rt; limit <= 100);
    let mut src = MemSource::new(SHEET.to_vec(alloc)?, piece, [fault].to_vec(alloc)?);
    let found = match read_all(alloc, &mut src, limit) {
        Ok(read) => {
            assert_eq!(rt; read.as_slice(), SHEET, "by {piece}");
            Ok(())
        }
        Err(error) => Err(error),
    };
    assert!(rt; found == want, "by {piece} up to {limit}");
    assert_eq!(rt; src.rest(), rest, "by {piece} up to {limit}");
    Ok(())
}

#[test]
fn a_source_is_read_up_to_the_limit(rt: HostRuntime) -> Result<(), Fail> {
    for (limit, want, rest) in [
        (0, Err(ReadError::TooLong), "{color:red}"),
        (3, Err(ReadError::TooLong), "lor:red}"),
        (11, Err(ReadError::TooLong), ""),
        (12, Ok(()), ""),
    ] {
        for piece in [0, 1, 5, 4096] {
            reads(&rt, rt.alloc(), piece, NEVER, limit, want, rest.as_bytes())?;
        }
    }
    Ok(())
}

/// The last of these calls comes when all bytes are read.
#[test]
fn each_read_may_fail(rt: HostRuntime) -> Result<(), Fail> {
    for fault in 0..13 {
        let rest = &SHEET[fault..];
        let want = Err(ReadError::ReadFault);
        reads(&rt, rt.alloc(), 1, fault as u64, 100, want, rest)?;
    }
    Ok(())
}

/// No call comes after the one that finds the end.
#[test]
fn a_source_is_not_read_past_its_end(rt: HostRuntime) -> Result<(), Fail> {
    let alloc = rt.alloc();
    let mut src = MemSource::new(SHEET.to_vec(alloc)?, 1, [13].to_vec(alloc)?);
    assert_eq!(rt; read_all(alloc, &mut src, 100)?.as_slice(), SHEET);
    assert!(rt; src.read(&mut [0]) == Err(Failed));
    assert!(rt; src.read(&mut [0]) == Ok(0));
    Ok(())
}

#[test]
fn a_sink_takes_what_comes_before_a_fault(rt: HostRuntime) -> Result<(), Fail> {
    let alloc = rt.alloc();
    for (room, piece, fault, want, wrote) in [
        (100, 1, 0, Err(WriteFault), ""),
        (100, 1, 1, Err(WriteFault), "a"),
        (100, 1, 4, Err(WriteFault), "a{co"),
        (100, 1, 11, Err(WriteFault), "a{color:red"),
        (100, 0, 12, Ok(()), "a{color:red}"),
        (12, 5, NEVER, Ok(()), "a{color:red}"),
        (5, 4096, NEVER, Err(WriteFault), "a{col"),
    ] {
        let mut out = MemSink::new(alloc, room, piece, [fault].to_vec(alloc)?)?;
        assert!(rt; write_all(&mut out, SHEET) == want, "at {fault}");
        assert_eq!(rt; out.bytes(), wrote.as_bytes(), "at {fault}");
    }
    let mut full = MemSink::new(alloc, 0, 1, Vec::new(alloc))?;
    assert!(rt; full.write(b"o") == Err(Failed));
    assert!(rt; full.write(b"") == Ok(0));
    Ok(())
}

#[test]
fn sure_ones_never_fail(rt: HostRuntime) -> Result<(), Fail> {
    let mut src = SureSource::new(SHEET.to_vec(rt.alloc())?);
    let read = read_all(rt.alloc(), &mut src, 100)?;
    assert_eq!(rt; src.rest().len(), 0);
    let mut out = SureSink::new(rt.alloc())?;
    for piece in [read.as_slice(), b"b{", b"}"] {
        assert!(rt; out.bytes().len() + piece.len() <= 100);
        write_all(&mut out, piece)?;
    }
    assert_eq!(rt; out.bytes(), b"a{color:red}b{}".as_slice());
    Ok(())
}

#[test]
fn readers_and_writers_of_std_are_passed_on(rt: HostRuntime) -> Result<(), Fail> {
    let mut src = StdSource::new(SHEET);
    let read = read_all(rt.alloc(), &mut src, 100)?;
    let mut copy = Vec::new(rt.alloc());
    let mut out = StdSink::new(&mut copy);
    write_all(&mut out, &read)?;
    assert_eq!(rt; (src.faults(), out.faults()), (0, 0));
    drop(out);
    assert_eq!(rt; copy.as_slice(), SHEET);
    Ok(())
}

/// A reader and writer that is interrupted so often. Then it fails, or it gives one byte at each call, and takes so
/// many at most.
#[derive(Drop)]
struct Interrupted {
    times: u32,
    breaks: bool,
    most: usize,
}

impl Interrupted {
    fn next(&mut self) -> io::Result<()> {
        if self.times > 0 {
            self.times -= 1;
            return Err(io::Error::new(ErrorKind::Interrupted, "a signal came"));
        }
        if self.breaks {
            return Err(io::Error::new(ErrorKind::BrokenPipe, "the pipe is broken"));
        }
        Ok(())
    }
}

impl Read for Interrupted {
    fn read(&mut self, buf: &mut [u8]) -> io::Result<usize> {
        self.next()?;
        match buf {
            [first, ..] => {
                *first = b'a';
                Ok(1)
            }
            [] => Ok(0),
        }
    }
}

impl Write for Interrupted {
    fn write(&mut self, buf: &[u8]) -> io::Result<usize> {
        self.next()?;
        Ok(buf.len().min(self.most))
    }

    fn flush(&mut self) -> io::Result<()> {
        Ok(())
    }
}

#[test]
fn an_interrupted_read_is_repeated(rt: HostRuntime) {
    for (times, breaks, want, faults) in [
        (0, false, Ok(1), 0),
        (3, false, Ok(1), 3),
        (999, false, Ok(1), 999),
        (1000, false, Err(Failed), 1001),
        (u32::MAX, false, Err(Failed), 1001),
        (3, true, Err(Failed), 4),
    ] {
        let most = 0;
        let mut src = StdSource::new(Interrupted {
            times,
            breaks,
            most,
        });
        assert!(rt; src.read(&mut [0, 0]) == want, "after {times}");
        assert_eq!(rt; src.faults(), faults, "after {times}");
    }
}

/// A write that took nothing of something failed.
#[test]
fn an_interrupted_write_is_repeated(rt: HostRuntime) {
    for (times, breaks, most, text, want, faults) in [
        (0, false, 1, "ab", Ok(1), 0),
        (3, false, 1, "ab", Ok(1), 3),
        (999, false, 1, "ab", Ok(1), 999),
        (1000, false, 1, "ab", Err(Failed), 1001),
        (3, true, 1, "ab", Err(Failed), 4),
        (0, false, 0, "", Ok(0), 0),
        (0, false, 0, "a", Err(Failed), 1),
    ] {
        let mut out = StdSink::new(Interrupted {
            times,
            breaks,
            most,
        });
        assert!(rt; out.write(text.as_bytes()) == want, "after {times}");
        assert_eq!(rt; out.faults(), faults, "after {times}");
    }
    let (times, breaks, most) = (0, false, 0);
    let mut full = StdSink::new(Interrupted {
        times,
        breaks,
        most,
    });
    assert!(rt; write_all(&mut full, SHEET) == Err(WriteFault));
}
