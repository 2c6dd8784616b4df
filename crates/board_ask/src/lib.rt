// Questions to a board. None of them changes it, so none hands it back.
//
// ask: domain_size, is_assigned, assigned_value, is_inconsistent, get_bounds, get_domain_values, get_domain_values_into
// ids: variables, next_variable, variables_into
// list: ready
//
// A call checks the board once, and refuses one that isn't well formed by number, before anything else. A refused call
// writes no cell.
#![tactic(auto)]

use rules::{Refusal, Value, Variable};

pub mod ask;
pub mod ids;
pub mod list;

pub use ask::{
    assigned_value, domain_size, get_bounds, get_domain_values, get_domain_values_into,
    is_assigned, is_inconsistent,
};
pub use ids::{next_variable, variables, variables_into};
pub use list::ready;

// Where a walk over a board's ids stands: a place among its rows. It has ended at or past their count.
#[derive(Clone, Copy)]
pub struct IdCursor {
    pub at: usize,
}

// A cursor handed back, and what it yielded.
#[derive(Clone, Copy)]
pub struct Walked {
    pub cursor: IdCursor,
    pub answer: Result<Option<Variable>, Refusal>,
}
