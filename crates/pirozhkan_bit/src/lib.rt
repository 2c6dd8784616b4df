// The library's calls on a bit domain, on numbers and slices, over three words that the caller lends; `pirozhkan_bit_c` exports them.
//
// make: pirozhkan_bit_new, pirozhkan_bit_new_empty, pirozhkan_bit_new_from_values
// change: pirozhkan_bit_insert, pirozhkan_bit_remove, pirozhkan_bit_remove_all, pirozhkan_bit_remove_all_but,
//         pirozhkan_bit_remove_below, pirozhkan_bit_remove_above
// ask: pirozhkan_bit_contains, pirozhkan_bit_size, pirozhkan_bit_fixed_value, pirozhkan_bit_min, pirozhkan_bit_max,
//      pirozhkan_bit_values, pirozhkan_bit_text
//
// Each is the by-value call of the same name between reading and writing the words; values is `to_vec`, and text `write_text`. None has a
// `requires`.
#![tactic(auto)]

pub mod ask;
pub mod change;
pub mod inner;
pub mod make;
