//! The kinds of steps of merging, each an edit of a sheet, and what each leaves of the sheet.
#![tactic(auto)]

mod cause;
mod kinds;
mod left;
mod step;

pub use cause::BlockCause;
pub use kinds::{cuts_rearrange, decl_joins_rearrange, selector_joins_rearrange, shares_rearrange};
pub use left::{
    each_is_made_of_itself, free_steps_keep, parts_are_few, steps_are_one_edit, steps_make_of,
    steps_rearrange, steps_stay_sound, steps_weigh,
};
pub use step::Step;
