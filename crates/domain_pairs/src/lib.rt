// Bit domains two at a time, and their masks and saved states.
//
// pairs: intersect_with, union_with, is_subset_of, equals, union_mask
// states: remove_by_mask, get_mask, current_mask, get_min_val, save_state, restore_state, restore_mask
//
// Every call tests first that each domain is well formed, and refuses it by number otherwise. A refused call hands the domain
// back as it came.
#![tactic(auto)]

use mask::Mask;
use rules::Refusal;

pub mod pairs;
pub mod states;

pub use pairs::{equals, intersect_with, is_subset_of, union_mask, union_with};
pub use states::{
    current_mask, get_mask, get_min_val, remove_by_mask, restore_mask, restore_state, save_state,
};

// What a domain held when it was saved.
#[derive(Clone, Copy)]
pub struct BitState {
    pub mask: Mask,
    pub size: usize,
}
