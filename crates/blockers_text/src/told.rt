//! What is told of the levels of a sheet.

use crate::ranked::Ranked;
use crate::totals::Weighed;

/// The steps of some levels, and the lines of the items that stop them.
#[derive(Drop)]
pub(crate) struct Told {
    pub(crate) weighed: Vec<Weighed>,
    pub(crate) ranked: Vec<Ranked>,
}
