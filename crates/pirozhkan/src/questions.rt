// Questions: the state is only read. Values and ids go into cells that the caller lends.
ghost use Rattle.std.specs.Prelude.{◌≡◌, List, ℕ, ℤ};
ghost use Rattle.reply.specs.Through.{left, answered, shown};
ghost use Rattle.pirozhkan.specs.Calls.{sizing, whether_assigned, assigned_to, whether_inconsistent, whether_changed, bounds_into, values_into, ids_into, ends_into};

use super::inner;
use rules::{Refusal, Value, Variable};

pub fn pirozhkan_domain_size(ws: &[u64], id: u32) -> u64
    ensures { result ≡ answered (sizing id) ws.now }
{
    inner::ask(
        ws,
        |b| reply::counted(board_ask::domain_size(b, Variable(id))),
    )
}

pub fn pirozhkan_is_assigned(ws: &[u64], id: u32) -> u64
    ensures { result ≡ answered (whether_assigned id) ws.now }
{
    inner::ask(ws, |b| reply::told(board_ask::is_assigned(b, Variable(id))))
}

pub fn pirozhkan_assigned_value(ws: &[u64], id: u32) -> u64
    ensures { result ≡ answered (assigned_to id) ws.now }
{
    inner::ask(
        ws,
        |b| reply::found(board_ask::assigned_value(b, Variable(id))),
    )
}

pub fn pirozhkan_is_inconsistent(ws: &[u64], id: u32) -> u64
    ensures { result ≡ answered (whether_inconsistent id) ws.now }
{
    inner::ask(
        ws,
        |b| reply::told(board_ask::is_inconsistent(b, Variable(id))),
    )
}

pub fn pirozhkan_domains_changed(ws: &[u64]) -> u64
    ensures { result ≡ answered whether_changed ws.now }
{
    inner::ask(ws, |b| reply::told(board_close::domains_changed(b)))
}

// Both ends into the first two cells.
#[tactic(auto, unfolding(reply::specs::Told::coded))]
fn put_ends(answer: Result<(Value, Value), Refusal>, cells: &mut [i32]) -> u64
    ensures { left {C = List ℤ} result cells.new ≡ ends_into answer cells.old }
{
    match answer {
        Err(r) => reply::refusal(r),
        Ok((low, high)) => {
            if cells.len() < 2 {
                return reply::refusal(Refusal::NoRoom);
            }
            cells[0] = low.0;
            cells[1] = high.0;
            0
        }
    }
}

pub fn pirozhkan_get_bounds(ws: &[u64], id: u32, cells: &mut [i32]) -> u64
    ensures { left {C = List ℤ} result cells.new ≡ shown (bounds_into id cells.old) ws.now cells.old }
{
    match reply::judge(ws) {
        Err(why) => reply::refusal(why),
        Ok(()) => put_ends(board_ask::get_bounds(state::read(ws), Variable(id)), cells),
    }
}

pub fn pirozhkan_get_domain_values(ws: &[u64], id: u32, cells: &mut [i32]) -> u64
    ensures { left {C = List ℤ} result cells.new ≡ shown (values_into id cells.old) ws.now cells.old }
{
    match reply::judge(ws) {
        Err(why) => reply::refusal(why),
        Ok(()) => reply::counted(board_ask::get_domain_values_into(
            state::read(ws),
            Variable(id),
            cells,
        )),
    }
}

pub fn pirozhkan_variables(ws: &[u64], cells: &mut [u32]) -> u64
    ensures { left {C = List ℕ} result cells.new ≡ shown (ids_into cells.old) ws.now cells.old }
{
    match reply::judge(ws) {
        Err(why) => reply::refusal(why),
        Ok(()) => reply::counted(board_ask::variables_into(state::read(ws), cells)),
    }
}
