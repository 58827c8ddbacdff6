//! Whether two selectors meet: some legal document has an element that both match. It answers with evidence, and the
//! answers are remembered.
#![tactic(auto)]

mod answer;
mod clashing;
mod decision;
mod formula;
mod laws;
mod pairs;
mod single;
mod store;

pub use answer::{Answer, NO_SPACE_LEFT, TOO_MANY_STEPPED};
pub use laws::{apart_selectors_do_not_meet, reasons_are_defined};
pub use pairs::Pairs;
