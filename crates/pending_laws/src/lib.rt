//! Laws of what a plan holds of the steps of a sheet, cuts among them, while it takes one step after the other.
//! They have the form that code needs: a test instead of a list of what waits.
#![tactic(auto)]

mod barred;
mod before;
mod behind;
mod candidates;
mod facts;
mod item_ids;
mod pending;
mod priorities;
mod room;
mod taken;
mod way;

pub use barred::{
    barred_items_go_on, barred_joins_are_hindered, barred_moves_are_hindered,
    barred_priorities_are_blocked, barred_priorities_are_moves, barriers_go_on,
    lower_barred_joins_are_hindered, lower_barred_shares_are_hindered, lower_barriers_go_on,
    moves_are_barred, parts_stay,
};
pub use before::{cuts_have_been, no_step_adds_pairs, steps_have_been};
pub use behind::{going_on_is_side_by_side, hindered_goes_on};
pub use candidates::{
    candidates_go_on, first_candidate_is_taken, no_candidate_is_done, pending_goes_over,
    pending_may_change, start_is_pending,
};
pub use facts::{
    joined_has_no_cut, joined_has_own_parts, no_cut_comes, own_pairs_go_on, own_pairs_have_no_cut,
    own_parts_stay,
};
pub use item_ids::{item_ids_tell_items, old_owners_have_come, owners_stay};
pub use pending::{pending_steps_are_covered, steps_are_watched, steps_pending_go_on};
pub use priorities::{
    first_priority_is_first, names_tell_steps, order_keys_tell_order, priorities_are_ordered,
};
pub use room::{sheets_have_room, steps_add_one_item};
pub use taken::{free_step_is_taken, no_priority_is_left};
pub use way::Way;
