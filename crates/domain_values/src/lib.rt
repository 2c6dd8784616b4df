// The values of a bit domain one by one, all at once, and domains made from values.
//
// cursor: iter, next, left
// list: to_vec
// make: new_from_values, try_new_from_values
//
// A cursor goes in by value and is handed back beside what it yielded. A domain or a cursor that isn't well formed is refused
// by number, before anything else; a refused call hands the cursor back as it came and writes no cell.
#![tactic(auto)]

use mask::Mask;
use rules::{Refusal, Value};

pub mod cursor;
pub mod list;
pub mod make;

pub use cursor::{iter, left, next};
pub use list::to_vec;
pub use make::{new_from_values, try_new_from_values};

// Where a walk over a domain's values stands: the offsets that are still to come.
#[derive(Clone, Copy)]
pub struct BitCursor {
    pub mask: Mask,
    pub min: i32,
}

// A cursor handed back, and what it yielded.
#[derive(Clone, Copy)]
pub struct Stepped {
    pub cursor: BitCursor,
    pub answer: Result<Option<Value>, Refusal>,
}
