//! What a plan leads to.

use css_model::Sheet;
use sheet_order::BlockCause;
use step_laws::Step;

/// A planned sheet.
#[derive(Debug, Drop)]
pub struct Plan {
    /// The sheet after the last step.
    pub sheet: Sheet,
    /// How many steps led to it.
    pub taken: u32,
    /// Each step of this sheet that saves bytes, in the order of steps, with what blocks it.
    pub blocked: Vec<(Step, BlockCause)>,
}
