// A new board, and registration.
ghost use Rattle.std.specs.Prelude.{◌≡◌, List, ℕ};
ghost use Rattle.board_enter.specs.Enter.{blank};
ghost use Rattle.reply.specs.Through.{left, through, begun};
ghost use Rattle.pirozhkan.specs.Calls.{ranging, listing};

use super::inner;
use rules::{Refusal, Value, Variable};

// Whatever the words were.
pub fn pirozhkan_new(ws: &mut [u64]) -> u64
    ensures { left {C = List ℕ} result ws.new ≡ begun blank ws.old }
{
    if ws.len() < state::WORDS {
        return reply::refusal(Refusal::NoRoom);
    }
    state::write(board_enter::new(), ws);
    0
}

pub fn pirozhkan_add_variable(ws: &mut [u64], id: u32, min: i32, max: i32) -> u64
    ensures { left {C = List ℕ} result ws.new ≡ through (ranging id min max) ws.old }
{
    inner::change(
        ws,
        |b| board_enter::add_variable(b, Variable(id), Value(min), Value(max)),
    )
}

pub fn pirozhkan_add_variable_with_values(ws: &mut [u64], id: u32, values: &[i32]) -> u64
    ensures { left {C = List ℕ} result ws.new ≡ through (listing id values.now) ws.old }
{
    inner::change(
        ws,
        |b| board_enter::add_variable_with_values(b, Variable(id), values),
    )
}
