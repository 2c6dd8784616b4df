// The closings, and the flag.
ghost use Rattle.std.specs.Prelude.{◌≡◌, List, ℕ};
ghost use Rattle.rules.specs.Board.{remove, assign, below, above};
ghost use Rattle.closing.specs.Kinds.{kind_of};
ghost use Rattle.reply.specs.Through.{left, through};
ghost use Rattle.pirozhkan.specs.Calls.{closing, resetting};

use super::inner;
use closing::Kind;
use rules::{Value, Variable};

fn close(ws: &mut [u64], kind: Kind, id: u32, value: i32) -> u64
    ensures { left {C = List ℕ} result ws.new ≡ through (closing (kind_of kind) id value) ws.old }
{
    match reply::judge(ws) {
        Err(why) => reply::refusal(why),
        Ok(()) => {
            let after = board_close::close(state::read(ws), kind, Variable(id), Value(value));
            state::write(after.board, ws);
            reply::told(after.answer)
        }
    }
}

pub fn pirozhkan_remove_value(ws: &mut [u64], id: u32, value: i32) -> u64
    ensures { left {C = List ℕ} result ws.new ≡ through (closing remove id value) ws.old }
{
    close(ws, Kind::Remove, id, value)
}

pub fn pirozhkan_assign_variable(ws: &mut [u64], id: u32, value: i32) -> u64
    ensures { left {C = List ℕ} result ws.new ≡ through (closing assign id value) ws.old }
{
    close(ws, Kind::Assign, id, value)
}

pub fn pirozhkan_remove_below(ws: &mut [u64], id: u32, value: i32) -> u64
    ensures { left {C = List ℕ} result ws.new ≡ through (closing below id value) ws.old }
{
    close(ws, Kind::Below, id, value)
}

pub fn pirozhkan_remove_above(ws: &mut [u64], id: u32, value: i32) -> u64
    ensures { left {C = List ℕ} result ws.new ≡ through (closing above id value) ws.old }
{
    close(ws, Kind::Above, id, value)
}

pub fn pirozhkan_reset_changed_flag(ws: &mut [u64]) -> u64
    ensures { left {C = List ℕ} result ws.new ≡ through resetting ws.old }
{
    inner::change(ws, board_close::reset_changed_flag)
}
