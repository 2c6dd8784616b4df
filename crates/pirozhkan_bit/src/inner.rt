// A domain in three words, and what the exported calls share: the words are read, a call is made, and the domain that it hands back is
// written.
ghost use Rattle.std.specs.Prelude.{◌≡◌, List, ◌++◌, ℕ, ◌≤◌, length, drop};
ghost use Rattle.reply.specs.Through.{left};
ghost use Rattle.pirozhkan_bit.specs.Layout.{size, written_of, read_of};
ghost use Rattle.pirozhkan_bit.specs.Lent.{Asks, Makes};

use domain::{Answered, BitDomain};
use mask::Mask;
use rules::Refusal;

// How many words a domain takes.
pub const WORDS: usize = 3;

pub fn read(ws: &[u64]) -> BitDomain
    requires { size ≤ length ws.now }
    ensures { result ≡ read_of ws.now }
{
    BitDomain {
        mask: Mask {
            lo: ws[1],
            hi: ws[2],
        },
        min: state::low_chute(ws[0]),
        max: state::high_chute(ws[0]),
    }
}

// Words past the domain's stay as they are.
pub fn write(d: BitDomain, ws: &mut [u64])
    requires { size ≤ length ws.old }
    ensures { ws.new ≡ written_of d ++ drop size ws.old }
{
    ws[0] = state::ends_word(d.min, d.max);
    ws[1] = d.mask.lo;
    ws[2] = d.mask.hi;
}

// A question of the domain that the words stand for.
#[tactic(auto, unfolding(reply::specs::Lent::answered, reply::specs::Told::coded))]
pub fn ask<F: FnOnce(BitDomain) -> u64>(ws: &[u64], question: F) -> u64
    requires { F.IsAlwaysCallable question }
    ensures { Asks (F.post question) ws.now result }
{
    if ws.len() < WORDS {
        return reply::refusal(Refusal::NoRoom);
    }
    question(read(ws))
}

// A call that hands a domain back: it is written, and the answer told.
#[tactic(auto, unfolding(reply::specs::Lent::through, reply::specs::Told::coded))]
pub fn settle<T, F: FnOnce(BitDomain) -> Answered<T>, G: FnOnce(Result<T, Refusal>) -> u64>(
    ws: &mut [u64],
    call: F,
    tell: G,
) -> u64
    requires call { F.IsAlwaysCallable call }
    requires tell { G.IsAlwaysCallable tell }
    ensures { Makes (F.post call) (G.post tell) ws.old (left {C = List ℕ} result ws.new) }
{
    if ws.len() < WORDS {
        return reply::refusal(Refusal::NoRoom);
    }
    let after = call(read(ws));
    write(after.domain, ws);
    tell(after.answer)
}
