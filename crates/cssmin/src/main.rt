//! `cssmin`: a style sheet in no more bytes, with the same winners in every legal document. All that it does is a call
//! of the library `cssmin_run`.
#![tactic(auto)]

use css_io::{StdSink, StdSource};
use cssmin_run::{run_words, words_after_name};
use std::env;
use std::process::ExitCode;

fn main(rt: HostRuntime) -> ExitCode {
    let words = words_after_name(rt.alloc(), env::args(&rt));
    let mut input = StdSource::new(rt.stdin());
    let mut out = StdSink::new(rt.stdout());
    let mut err = StdSink::new(rt.stderr());
    let mut held = None;
    run_words(rt.alloc(), words, &mut input, &mut out, &mut err, &mut held).exit_code()
}
