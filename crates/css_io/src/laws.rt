//! What follows from the contracts, as functions that do nothing.
ghost use Rattle.std.specs.Prelude.{ℕ, List, ◌<◌};
ghost use Rattle.css_io.specs.Io.{Rose, last_count};

use crate::sure::{SureSink, SureSource};
use crate::traits::{Sink, Source};

/// A count that stays the same, below its last value, has not risen. Over a source or a sink of such a count no fault
/// is answered.
pub fn constant_count_has_not_risen()
    ensures { (count : ℕ) → count < last_count → ¬ Rose count count }
{}

/// The count of a [`SureSource`] never rises: reading all of one never ends in a read fault.
pub fn sure_source_has_no_faults()
    ensures { (old : List ℕ) (new : List ℕ) → ¬ Rose (⟦<SureSource as Source>⟧.faults old)
        (⟦<SureSource as Source>⟧.faults new) }
{}

/// The count of a [`SureSink`] never rises: writing all to one never ends in a write fault.
pub fn sure_sink_has_no_faults()
    ensures { (old : List ℕ) (new : List ℕ) → ¬ Rose (⟦<SureSink as Sink>⟧.faults old)
        (⟦<SureSink as Sink>⟧.faults new) }
{}
