// What the exported calls share: the words are read as a board, a call is made, and the board that it hands back is written.
ghost use Rattle.std.specs.Prelude.{◌≡◌, List, ℕ, ◌≤◌, length};
ghost use Rattle.state.specs.Layout.{size};
ghost use Rattle.reply.specs.Through.{left, written, settled};
ghost use Rattle.pirozhkan.specs.Shared.{Asks, Makes};

use board::{Board, Settled};

// A question of the board that the words stand for.
pub fn ask<F: FnOnce(Board) -> u64>(ws: &[u64], question: F) -> u64
    requires { F.IsAlwaysCallable question }
    ensures { Asks (F.post question) ws.now result }
{
    match reply::judge(ws) {
        Err(why) => reply::refusal(why),
        Ok(()) => question(state::read(ws)),
    }
}

// The board that a call handed back is written, and its answer told.
pub fn settle(ws: &mut [u64], s: Settled) -> u64
    requires { size ≤ length ws.old }
    ensures { left {C = List ℕ} result ws.new ≡ written ws.old (settled s) }
{
    state::write(s.board, ws);
    reply::outcome(s.answer)
}

// A call that hands a board back, made on the board that the words stand for.
pub fn change<F: FnOnce(Board) -> Settled>(ws: &mut [u64], call: F) -> u64
    requires { F.IsAlwaysCallable call }
    ensures { Makes settled (F.post call) ws.old (left {C = List ℕ} result ws.new) }
{
    match reply::judge(ws) {
        Err(why) => reply::refusal(why),
        Ok(()) => {
            let after = call(state::read(ws));
            settle(ws, after)
        }
    }
}
