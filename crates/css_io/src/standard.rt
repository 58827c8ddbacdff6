//! Adapters over std's readers and writers: the edge of what is proved.

mod sink;
mod source;

pub use sink::StdSink;
pub use source::StdSource;

/// How often one call may be interrupted before it gives up.
const INTERRUPTIONS: usize = 1000;
