//! What is found in two common members that come in another order.

use css_model::Example;

/// What is found in two common members that weigh and come in another order.
#[derive(Debug, Drop)]
pub enum Verdict {
    /// One of them is a kept item.
    Kept,
    /// Their selectors meet in this example.
    Meet(Example),
    /// Their selectors were not compared, for this reason.
    Outside(u32),
    /// The budget was spent for their selectors.
    Spent,
}
