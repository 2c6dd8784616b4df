// A bit domain: the chutes that a destination may still use, out of a universe of at most as many values as a mask has room for.
//
// make: new, new_empty, new_invalid, try_new, try_new_empty
// ask: is_invalid, contains, size, is_empty, is_fixed, fixed_value, min, max, first, last, universe_size,
//      min_universe_value, max_universe_value
// change: insert, remove, remove_all, remove_all_but, remove_below, remove_above
//
// A domain goes in by value; a call that may change it hands it back beside the answer. Every call but those that make a
// domain tests first that it is well formed, and refuses it by number otherwise, as it came. `inner` holds the same work
// without that test, for callers that have made it.
#![tactic(auto)]

use mask::Mask;
use rules::{Refusal, Value};

pub mod ask;
pub mod change;
pub mod inner;
pub mod make;

pub use ask::{
    contains, first, fixed_value, is_empty, is_fixed, is_invalid, last, max, max_universe_value,
    min, min_universe_value, size, universe_size,
};
pub use change::{insert, remove, remove_above, remove_all, remove_all_but, remove_below};
pub use make::{new, new_empty, new_invalid, try_new, try_new_empty};

#[derive(Clone, Copy)]
pub struct BitDomain {
    pub mask: Mask,
    pub min: i32,
    pub max: i32,
}

// A domain handed back, and what the call answers. A refused call hands it back as it came.
#[derive(Clone, Copy)]
pub struct Answered<T> {
    pub domain: BitDomain,
    pub answer: Result<T, Refusal>,
}

// Of a call that answers whether the domain changed, and of one that has nothing else to tell.
pub type Changed = Answered<bool>;

pub type Narrowed = Answered<()>;
