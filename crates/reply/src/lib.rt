// What an exported call returns: one number that carries the refusal or the answer, and what it does with words that are no
// board's. The code is in specs/Told, and what a call does with the words it is lent in specs/Through.
//
// refusal, said, count, chute; told, outcome, counted, found, pair: of the by-value calls' answers; judge
#![tactic(auto, unfolding(crate::specs::Told::coded))]

ghost use Rattle.std.specs.Prelude.{◌≡◌};
ghost use Rattle.rules.specs.Board as rules;
ghost use Rattle.board.specs.Obeys.{told_of, outcome_of};
ghost use Rattle.board_ask.specs.Answers.{count_of, chute_of};
ghost use Rattle.board_spread.specs.Spread.{pair_of};
ghost use Rattle.state.specs.Typed.{Words};
ghost use Rattle.reply.specs.Told.{packed, coded};
ghost use Rattle.reply.specs.Through.{judge_of};

use rules::{Pair, Refusal, Value};

// A payload stands above the byte of the refusal's number.
const PAYLOADS: u64 = 72057594037927936;

fn pack(n: u64) -> u64
    ensures { result ≡ packed n }
{
    (n % PAYLOADS) * 256
}

pub fn refusal(r: Refusal) -> u64
    ensures { result ≡ coded (rules.denied r) }
{
    let number = r.number();
    let place = r.place();
    number as u64 + pack(place as u64)
}

pub fn said(y: bool) -> u64
    ensures { result ≡ coded (rules.said y) }
{
    pack(u64::from(y))
}

pub fn count(n: usize) -> u64
    ensures { result ≡ coded (rules.count n) }
{
    pack(n as u64)
}

pub fn chute(v: Value) -> u64
    ensures { result ≡ coded (rules.chute v.0) }
{
    pack(state::half_of(v.0))
}

pub fn told(t: Result<bool, Refusal>) -> u64
    ensures { result ≡ coded (told_of t) }
{
    t.map_or_else(refusal, said)
}

pub fn outcome(o: Result<(), Refusal>) -> u64
    ensures { result ≡ coded (outcome_of o) }
{
    o.map_or_else(refusal, |()| 0)
}

pub fn counted(c: Result<usize, Refusal>) -> u64
    ensures { result ≡ coded (count_of c) }
{
    c.map_or_else(refusal, count)
}

pub fn found(f: Result<Value, Refusal>) -> u64
    ensures { result ≡ coded (chute_of f) }
{
    f.map_or_else(refusal, chute)
}

pub fn pair(p: Result<Pair, Refusal>) -> u64
    ensures { result ≡ coded (pair_of p) }
{
    p.map_or_else(refusal, both)
}

fn both(p: Pair) -> u64
    ensures { result ≡ coded (rules.outcome p.changed p.consistent) }
{
    pack(u64::from(p.changed) + 2 * u64::from(p.consistent))
}

// Whether words can be read as a board: they are refused where they are too few, and where a field is out of its range.
pub fn judge(ws: &[u64]) -> Result<(), Refusal>
    ensures { (result ≡ judge_of ws.now) × Words ws.now }
{
    if ws.len() < state::WORDS {
        return Err(Refusal::NoRoom);
    }
    if !state::is_fitting(ws) {
        return Err(Refusal::Broken);
    }
    Ok(())
}
