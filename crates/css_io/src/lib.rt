//! The outside: where bytes come from and where they go to.
//!
//! A [`Source`] gives bytes, a [`Sink`] takes them, and each counts its faults. [`read_all`] and [`write_all`] use
//! these two traits alone. What is written over them is proved for every source and every sink: those in memory, those
//! that never fail, and std's readers and writers.
#![tactic(auto)]

mod copying;
mod counting;
mod laws;
mod memory;
mod moves;
mod standard;
mod sure;
mod traits;

pub use laws::{constant_count_has_not_risen, sure_sink_has_no_faults, sure_source_has_no_faults};
pub use memory::{MemSink, MemSource};
pub use moves::{ReadError, WriteFault, read_all, write_all};
pub use standard::{StdSink, StdSource};
pub use sure::{SURE_ROOM, SureSink, SureSource};
pub use traits::{Failed, Sink, Source};
