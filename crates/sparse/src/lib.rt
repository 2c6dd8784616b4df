// A sparse set: up to 4,096 values in an order of their own, over two orderings that the caller lends.
//
// ask: size, is_empty, is_fixed, contains, min, max, first, last, universe_size, min_universe_value, max_universe_value,
//      complement_size, should_use_complement, save_state, current_size
// change: remove, remove_all, remove_all_but, remove_below, remove_above, restore_state
//
// The state goes in by value and comes back beside the answer of a call that may change it. Every call tests first that the state and its
// orderings are well formed, and refuses them by number otherwise, as they came. `sparse_inner` holds the same work without that test.
#![tactic(auto)]

use rules::Refusal;
use sparse_inner::Sparse;

pub mod ask;
pub mod change;
pub mod inner;

pub use ask::{
    complement_size, contains, current_size, first, is_empty, is_fixed, last, max,
    max_universe_value, min, min_universe_value, save_state, should_use_complement, size,
    universe_size,
};
pub use change::{remove, remove_above, remove_all, remove_all_but, remove_below, restore_state};

// A set handed back by a call that may change it, and what the call answers.
#[derive(Clone, Copy)]
pub struct Handed<A> {
    pub set: Sparse,
    pub answer: Result<A, Refusal>,
}

// Of a call that tells whether it changed the set.
pub type Changed = Handed<bool>;

// Of a call that has nothing else to tell.
pub type Narrowed = Handed<()>;
