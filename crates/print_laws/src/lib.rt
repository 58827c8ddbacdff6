//! Laws on the printed text of a style sheet: it is read back, it is no longer than its source, and the text of each
//! selector is read as this selector. They speak of definitions, and no function that prints needs them.
#![tactic(auto)]

mod laws;

pub use laws::{
    printed_is_no_longer, printed_reads_back, printed_reads_back_as_twin, replaced_reads_back,
    selectors_are_in_the_profile,
};
