//! The words of the command line, as the process has them.

ghost use Rattle.std.specs.Prelude.{◌≡◌, drop, IfOk};
ghost use Rattle.std.specs.Vec.Iter.{into_iter_items};
ghost use Rattle.cssmin_run.specs.Words.{HandsIn};

use std::alloc::{AllocError, Global};
use std::env::Args;
use std::io;
use std::io::ErrorKind;

/// The words after the first one.
fn behind_first(alloc: Global, mut words: Args) -> Result<Vec<String>, AllocError>
    ensures { IfOk result (λ behind. behind.items ≡ drop 1 (into_iter_items words)) }
{
    let _first = words.next();
    words.collect(alloc)
}

/// The words after the program's name, of all its words, the name first. Words that are not UTF-8 are those of no
/// command: none are handed in then. `AllocError` where there is no room for them.
pub fn words_after_name(alloc: Global, all: io::Result<Args>) -> Result<Vec<String>, AllocError>
    ensures { HandsIn all result }
{
    match all {
        Ok(words) => behind_first(alloc, words),
        Err(error) => {
            if error.kind() == ErrorKind::InvalidData {
                Ok(Vec::new(alloc))
            } else {
                Err(AllocError)
            }
        }
    }
}
