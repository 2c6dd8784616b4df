// Questions of one destination: what its domain would answer.
#![tactic(auto, unfolding(crate::specs::Domains::sought_of, crate::specs::Questions::domain_size_of, crate::specs::Questions::is_assigned_of, crate::specs::Questions::assigned_value_of, crate::specs::Questions::is_inconsistent_of, crate::specs::Questions::get_bounds_of, crate::specs::Questions::get_values_of, crate::specs::Questions::get_into_of))]

ghost use Rattle.std.specs.Prelude.{◌≡◌};
ghost use Rattle.board_ask.specs.Domains.{sought_of};
ghost use Rattle.board_ask.specs.Questions.{domain_size_of, is_assigned_of, assigned_value_of, is_inconsistent_of, get_bounds_of, get_values_of, get_into_of};
ghost use Rattle.domain_values.specs.Calls.{written};

use board::Board;
use domain::BitDomain;
use domain_values::BitCursor;
use rules::{Refusal, Value, Variable};

// The one check, and the domain of an id. An id that isn't registered is answered for as a domain of no chutes is.
fn domain_of(b: &Board, id: Variable) -> Result<BitDomain, Refusal>
    ensures { result ≡ sought_of b.now.rows b.now.count b.now.saved b.now.marks id.0 }
{
    match board::look(b, id)? {
        Some(at) => Ok(b.rows[at].domain),
        None => Ok(domain::new_invalid()),
    }
}

pub fn domain_size(b: Board, id: Variable) -> Result<usize, Refusal>
    ensures { result ≡ domain_size_of b id }
{
    domain::size(domain_of(&b, id)?)
}

pub fn is_assigned(b: Board, id: Variable) -> Result<bool, Refusal>
    ensures { result ≡ is_assigned_of b id }
{
    domain::is_fixed(domain_of(&b, id)?)
}

pub fn assigned_value(b: Board, id: Variable) -> Result<Value, Refusal>
    ensures { result ≡ assigned_value_of b id }
{
    domain::fixed_value(domain_of(&b, id)?)
}

pub fn is_inconsistent(b: Board, id: Variable) -> Result<bool, Refusal>
    ensures { result ≡ is_inconsistent_of b id }
{
    domain::is_empty(domain_of(&b, id)?)
}

pub fn get_bounds(b: Board, id: Variable) -> Result<(Value, Value), Refusal>
    ensures { result ≡ get_bounds_of b id }
{
    let d = domain_of(&b, id)?;
    Ok((domain::min(d)?, domain::max(d)?))
}

// The chutes one by one: `domain_values::next` goes on.
pub fn get_domain_values(b: Board, id: Variable) -> Result<BitCursor, Refusal>
    ensures { result ≡ get_values_of b id }
{
    domain_values::iter(domain_of(&b, id)?)
}

// The chutes all at once, and how many they are.
pub fn get_domain_values_into(b: Board, id: Variable, cells: &mut [i32]) -> Result<usize, Refusal>
    ensures { written result cells.new ≡ get_into_of b id cells.old }
{
    domain_values::to_vec(domain_of(&b, id)?, cells)
}
