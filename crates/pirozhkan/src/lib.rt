// The library to link: every call of the board on numbers and slices, over a state that the caller lends; `pirozhkan_c` exports them.
//
// make: pirozhkan_new, pirozhkan_add_variable, pirozhkan_add_variable_with_values
// shut: pirozhkan_remove_value, pirozhkan_assign_variable, pirozhkan_remove_below, pirozhkan_remove_above,
//       pirozhkan_reset_changed_flag
// batches: pirozhkan_batch
// lists: pirozhkan_propagate_alldiff, pirozhkan_ready
// trials: pirozhkan_mark, pirozhkan_restore, pirozhkan_keep
// questions: pirozhkan_domain_size, pirozhkan_is_assigned, pirozhkan_assigned_value, pirozhkan_is_inconsistent,
//            pirozhkan_get_bounds, pirozhkan_get_domain_values, pirozhkan_variables, pirozhkan_domains_changed
//
// Each is the by-value call of the same name between reading and writing the state; values and ids go out by the calls `.._into`, and
// pirozhkan_batch is `batch::close_many`. None has a `requires`: whatever the words are, a call answers, and leaves words that are too few
// or that aren't a well-formed board's as they came.
#![tactic(auto)]

pub mod batches;
pub mod inner;
pub mod lists;
pub mod make;
pub mod questions;
pub mod shut;
pub mod trials;
