// The library's calls on a sparse set, on numbers and slices, over five cells of state and two orderings that the caller lends;
// `pirozhkan_sparse_c` exports them.
//
// make: pirozhkan_sparse_new, pirozhkan_sparse_new_from_values
// change: pirozhkan_sparse_remove, pirozhkan_sparse_remove_all, pirozhkan_sparse_remove_all_but, pirozhkan_sparse_remove_below,
//         pirozhkan_sparse_remove_above, pirozhkan_sparse_restore_state
// pairs: pirozhkan_sparse_intersect_with, pirozhkan_sparse_diff_with, pirozhkan_sparse_union_with
// ask: pirozhkan_sparse_contains, pirozhkan_sparse_size, pirozhkan_sparse_min, pirozhkan_sparse_max, pirozhkan_sparse_values,
//      pirozhkan_sparse_text, pirozhkan_sparse_save_state
//
// Each is the by-value call of the same name between reading and writing the state; values is `to_vec`, and text `write_text`. None has a
// `requires`.
#![tactic(auto)]

pub mod ask;
pub mod change;
pub mod inner;
pub mod make;
pub mod pairs;
