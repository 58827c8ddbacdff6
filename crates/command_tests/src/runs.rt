//! Runs over streams in memory.

use css_io::{MemSink, MemSource};
use css_model::{FaultKind, SheetFault};
use cssmin_run::{Status, run_words, words_after_name};
use std::alloc::Global;
use std::process::Abort;

/// The input of a run that is not to read it.
pub(crate) const SHEET: &[u8] = b"a { color : red ; }";

/// A sheet is refused that ends inside a string. The string begins at its fifth byte.
pub(crate) const END_INSIDE: Status = Status::SheetRefused(SheetFault {
    kind: FaultKind::EndInside,
    at: 4,
});

/// How the input gives its bytes, and how the output and standard error take theirs.
#[derive(Clone, Copy)]
pub(crate) struct Outside<'a> {
    /// How many bytes one call gives or takes at most.
    pub(crate) piece: u32,
    /// The numbers of the reads that fail, from 0.
    pub(crate) failing_reads: &'a [u64],
    /// The numbers of the writes to the output that fail, from 0.
    pub(crate) failing_writes: &'a [u64],
    /// How many bytes the output has room for.
    pub(crate) room: u32,
    /// How many bytes standard error has room for.
    pub(crate) err_room: u32,
}

/// No call fails, and there is room for all.
pub(crate) const FAULTLESS: Outside<'static> = Outside {
    piece: 4096,
    failing_reads: &[],
    failing_writes: &[],
    room: 4096,
    err_room: 4096,
};

/// What a run ended with.
#[derive(Drop)]
pub(crate) struct Ran {
    pub(crate) status: Status,
    /// How many bytes of the input were not read.
    pub(crate) left: usize,
    pub(crate) out: MemSink,
    pub(crate) err: MemSink,
}

/// The words after the program's name, of a line with one space between two words.
pub(crate) fn words_of(rt: &impl Abort, alloc: Global, line: &str) -> Vec<String> {
    let mut words = Vec::new(alloc);
    for word in line.split(' ') {
        let word = String::from_str(alloc, word).expect(rt, "a word");
        words.push(word).expect(rt, "room for a word");
    }
    words_after_name(alloc, Ok(words.into_iter())).expect(rt, "words")
}

/// A source of these bytes.
fn source(rt: &impl Abort, alloc: Global, bytes: &[u8], outside: Outside<'_>) -> MemSource {
    let bytes = bytes.to_vec(alloc).expect(rt, "an input");
    let fails = outside.failing_reads.to_vec(alloc).expect(rt, "calls");
    MemSource::new(bytes, outside.piece, fails)
}

/// A sink with room for so many bytes.
fn sink(rt: &impl Abort, alloc: Global, room: u32, piece: u32, fails: &[u64]) -> MemSink {
    let fails = fails.to_vec(alloc).expect(rt, "calls");
    MemSink::new(alloc, room, piece, fails).expect(rt, "a sink")
}

/// Runs the program on a line of words, its name first, as `main` does.
pub(crate) fn run_line(
    rt: &impl Abort,
    alloc: Global,
    line: &str,
    input: &[u8],
    outside: Outside<'_>,
) -> Ran {
    let words = words_of(rt, alloc, line);
    let mut input = source(rt, alloc, input, outside);
    let mut out = sink(
        rt,
        alloc,
        outside.room,
        outside.piece,
        outside.failing_writes,
    );
    let mut err = sink(rt, alloc, outside.err_room, outside.piece, &[]);
    let mut held = None;
    let status = run_words(alloc, Ok(words), &mut input, &mut out, &mut err, &mut held);
    let left = input.rest().len();
    Ran {
        status,
        left,
        out,
        err,
    }
}

/// What a run is to end with: the status, how many bytes of the input are left, the output, and standard error.
pub(crate) type End<'a> = (Status, usize, &'a [u8], &'a [u8]);

/// A run ends as `end` says.
pub(crate) fn ends(
    rt: &impl Abort,
    alloc: Global,
    line: &str,
    input: &[u8],
    outside: Outside<'_>,
    end: End<'_>,
) {
    let (status, left, out, err) = end;
    let ran = run_line(rt, alloc, line, input, outside);
    assert_eq!(rt; ran.status, status, "{line}");
    assert_eq!(rt; ran.out.bytes(), out, "{line}");
    assert_eq!(rt; ran.err.bytes(), err, "{line}");
    assert_eq!(rt; ran.left, left, "{line}");
}

/// A line of words, an input, and the status, the output and standard error of the run on them.
pub(crate) type Row = (
    &'static str,
    &'static [u8],
    Status,
    &'static str,
    &'static str,
);

/// Each run ends as its row says, and reads all of its input.
pub(crate) fn end_so(rt: &impl Abort, alloc: Global, rows: &[Row]) {
    for row in rows {
        let (line, input, status, out, err) = *row;
        let end = (status, 0, out.as_bytes(), err.as_bytes());
        ends(rt, alloc, line, input, FAULTLESS, end);
    }
}

/// Each line of words has this output, and its run reads nothing.
pub(crate) fn write_so(rt: &impl Abort, alloc: Global, rows: &[(&str, &str)]) {
    for row in rows {
        let (line, out) = *row;
        let end = (Status::Done, SHEET.len(), out.as_bytes(), b"".as_slice());
        ends(rt, alloc, line, SHEET, FAULTLESS, end);
    }
}
