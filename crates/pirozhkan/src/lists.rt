// Lists of destinations: propagated, or asked whether they are ready.
ghost use Rattle.std.specs.Prelude.{◌≡◌, List, ℕ};
ghost use Rattle.reply.specs.Through.{left, through, answered};
ghost use Rattle.pirozhkan.specs.Calls.{spreading, whether_ready};

use super::inner;

pub fn pirozhkan_propagate_alldiff(ws: &mut [u64], list: &[u32]) -> u64
    ensures { left {C = List ℕ} result ws.new ≡ through (spreading list.now) ws.old }
{
    match reply::judge(ws) {
        Err(why) => reply::refusal(why),
        Ok(()) => {
            let after = board_spread::propagate_alldiff(state::read(ws), list);
            state::write(after.board, ws);
            reply::pair(after.answer)
        }
    }
}

pub fn pirozhkan_ready(ws: &[u64], list: &[u32]) -> u64
    ensures { result ≡ answered (whether_ready list.now) ws.now }
{
    inner::ask(ws, |b| reply::told(board_ask::ready(b, list)))
}
