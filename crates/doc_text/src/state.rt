//! The lines of a document that are read so far.

ghost use Rattle.std.specs.Prelude.{◌≡◌, ◌<◌, ◌^◌, [], None, length, IfOk, OnOk, option_copied};
ghost use Rattle.doc_text.specs.States.{IsStart, Reads, follows, may_follow, with_line};

use crate::line::read_line;
use css_model::RunLine;
use std::alloc::{AllocError, Global};
use std::marker::Model;

/// Lines, and the number of the marked one, if it is among them.
#[derive(Drop)]
pub(crate) struct State {
    pub(crate) lines: Vec<RunLine>,
    pub(crate) marked: Option<u32>,
}

impl Model for State {
    ghost use Rattle.doc_text.specs.States.{StateParts};

    ghost Value = { StateParts };

    ghost view = { λ s. record { lines = s.lines.items; marked = s.marked } };
}

impl State {
    /// No line yet.
    pub(crate) fn new(alloc: Global) -> State
        ensures { result ≡ record { lines = []; marked = None } }
    {
        State {
            lines: Vec::new(alloc),
            marked: None,
        }
    }

    /// Reads one line more, and answers whether it may follow.
    pub(crate) fn read(&mut self, alloc: Global, bytes: &[u8]) -> Result<bool, AllocError>
        requires start { IsStart self.old }
        requires room { length self.old.lines < 2 ^ 16 }
        ensures { IfOk result (λ read. Reads read self.old bytes.now self.new) }
    {
        match read_line(alloc, bytes)? {
            Some((mark, line)) => {
                if !self.may_follow(mark, &line) {
                    return Ok(false);
                }
                self.push(mark, line)?;
                Ok(true)
            }
            None => Ok(false),
        }
    }

    /// Whether a line may follow, marked or not.
    fn may_follow(&self, mark: bool, line: &RunLine) -> bool
        ensures { result ≡ may_follow self.now mark line.now }
    {
        (!mark || self.marked.is_none() && line.count == 1) && follows(self.lines.last(), line)
    }

    /// Appends a line.
    fn push(&mut self, mark: bool, line: RunLine) -> Result<(), AllocError>
        requires room { length self.old.lines < 2 ^ 16 }
        ensures { OnOk result (self.new ≡ with_line self.old mark line) }
    {
        if mark {
            self.marked = Some(self.lines.len() as u32);
        }
        self.lines.push(line)?;
        Ok(())
    }
}

/// Whether a line may come after a last one. The root alone has depth 0. A line is at most one deeper than the one
/// before it; where it is deeper, that one has a single element.
fn follows(last: Option<&RunLine>, line: &RunLine) -> bool
    ensures { result ≡ follows (option_copied last.entry) line.now }
{
    match last {
        None => line.depth == 0 && line.count == 1,
        Some(last) => {
            line.depth > 0
                && (line.depth <= last.depth || line.depth - 1 == last.depth && last.count == 1)
        }
    }
}
